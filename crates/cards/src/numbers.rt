// Decimal numbers as cards write them.
ghost use Rattle.std.specs.Prelude.{◌≡◌, ◌-◌, ◌^◌, ◌≤◌, min, IfOk, IfSome};
ghost use Rattle.cards.specs.Numbers.{number_in, plain_in, is_numeral, leads_with_zero, value_of};

use refusals::Cause;

// The number that the text writes, at most the limit.
#[tactic(auto, unfolding(crate::specs::Numbers::number_in))]
pub(crate) fn number(text: &[u8], limit: u32) -> Result<u32, Cause>
    ensures value { result ≡ number_in limit text.now }
    ensures bound { IfOk result (λ n. n ≤ limit) }
{
    if !is_numeral(text) {
        return Err(Cause::Form);
    }
    if let [b'0', _, ..] = text {
        return Err(Cause::LeadingZero);
    }
    u32::try_from(capped_value(text))
        .ok()
        .filter(|value| *value <= limit)
        .ok_or(Cause::BeyondLimit)
}

// The number that the text writes, if it lies between the limits.
pub(crate) fn plain(text: &[u8], low: u32, high: u32) -> Option<u32>
    ensures value { result ≡ plain_in low high text.now }
    ensures bound { IfSome result (λ n. (low ≤ n) × (n ≤ high)) }
{
    number(text, high).ok().filter(|n| low <= *n)
}

// Whether the text is one or more digits.
fn is_numeral(text: &[u8]) -> bool
    ensures { result ≡ is_numeral text.now }
{
    !text.is_empty() && text.iter().all(|byte| byte.is_ascii_digit())
}

// The number that digits write, cut down to the largest of 64 bits, which is above all limits, so that no number of digits is too many.
fn capped_value(digits: &[u8]) -> u64
    ensures { result ≡ min (value_of digits.now) (2 ^ 64 - 1) }
{
    digits.iter().fold(0u64, |value, digit| {
        let digit = u64::from(digit.saturating_sub(b'0'));
        value.saturating_mul(10).saturating_add(digit)
    })
}
