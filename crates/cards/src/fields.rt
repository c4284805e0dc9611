// The fields of a row.
ghost use Rattle.std.specs.Prelude.{◌≡◌};
ghost use Rattle.cards.specs.Numbers.{number_in};
ghost use Rattle.cards.specs.Fields.{part_of, part_in, register_of, constant_of, operand_of, unused_of};

use crate::numbers::number;
use refusals::Cause;
use routine::LAST_REGISTER;
use routine::rows::Operand;

// A field by its first byte.
#[derive(Clone, Copy)]
pub(crate) enum Field<'a> {
    // the digits after an `r`
    Register(&'a [u8]),
    // the digits after a `#`
    Constant(&'a [u8]),
    // a field that is not used
    Dash,
    // any other field, whole
    Word(&'a [u8]),
}

// What a field is, before it is known which place it stands in.
#[tactic(auto, using(std::proofs::lemmas::Slice::first_rest))]
pub(crate) fn field_of(text: &[u8]) -> Field<'_>
    ensures { part_in result ≡ part_of text.now }
{
    match text {
        [b'r', digits @ ..] => Field::Register(digits),
        [b'#', digits @ ..] => Field::Constant(digits),
        [b'-'] => Field::Dash,
        _ => Field::Word(text),
    }
}

pub(crate) fn register(text: &[u8]) -> Result<u8, Cause>
    ensures { result ≡ register_of (part_of text.now) }
{
    match field_of(text) {
        Field::Register(digits) => register_number(digits),
        Field::Constant(_) | Field::Dash | Field::Word(_) => Err(Cause::Form),
    }
}

pub(crate) fn constant(text: &[u8], limit: u32) -> Result<u32, Cause>
    ensures { result ≡ constant_of limit (part_of text.now) }
{
    match field_of(text) {
        Field::Constant(digits) => number(digits, limit),
        Field::Register(_) | Field::Dash | Field::Word(_) => Err(Cause::Form),
    }
}

// A register, or a constant up to the limit.
pub(crate) fn operand(text: &[u8], limit: u32) -> Result<Operand, Cause>
    ensures { result ≡ operand_of limit (part_of text.now) }
{
    match field_of(text) {
        Field::Register(digits) => Ok(Operand::Register(register_number(digits)?)),
        Field::Constant(digits) => Ok(Operand::Constant(number(digits, limit)?)),
        Field::Dash | Field::Word(_) => Err(Cause::Form),
    }
}

pub(crate) fn unused(text: &[u8]) -> Result<(), Cause>
    ensures { result ≡ unused_of (part_of text.now) }
{
    match field_of(text) {
        Field::Dash => Ok(()),
        Field::Register(_) | Field::Constant(_) | Field::Word(_) => Err(Cause::Form),
    }
}

fn register_number(digits: &[u8]) -> Result<u8, Cause>
    ensures { result ≡ number_in 15 digits.now }
{
    // A cast: `try_from` would bring a second refusal, which never comes.
    Ok(number(digits, u32::from(LAST_REGISTER))? as u8)
}
