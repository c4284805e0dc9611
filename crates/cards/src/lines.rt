// A card's lines, and a line's fields.
ghost use Rattle.std.specs.Prelude.{◌≡◌, ◌+◌, ◌<◌, [], ◌∷◌, ◌++◌, length, IfOk, IfSome, IfNone, OnSome, MatchOption};
ghost use Rattle.cards.specs.Rows.{map_ok};
ghost use Rattle.cards.specs.Reading.{counted_fields};
ghost use Rattle.cards.specs.Text.{Lacks, lines_of, four_texts, left_in};

use crate::reader::Reader;
use refusals::CardRefusal;

// A line by its number and its four fields, as they stand on the card.
#[derive(Clone, Copy)]
pub(crate) struct Fields<'a> {
    pub line: usize,
    pub first: &'a [u8],
    pub second: &'a [u8],
    pub third: &'a [u8],
    pub fourth: &'a [u8],
}

// The text before the first such byte and the text after it, if there is such a byte.
fn cut(text: &[u8], byte: u8) -> Option<(&[u8], &[u8])>
    ensures { MatchOption result (Lacks byte text.now) (λ parts. (text.now ≡ parts.0.now ++ byte ∷ parts.1.now) × Lacks byte parts.0.now) }
{
    let at = text.iter().position(|x| *x == byte)?;
    Some((&text[..at], &text[at + 1..]))
}

// The fields of line `line`, which have to be exactly four.
pub(crate) fn four_fields(line: usize, text: &[u8]) -> Result<Fields<'_>, CardRefusal>
    ensures texts { map_ok result four_texts ≡ counted_fields line text.now }
    ensures line { IfOk result (λ fields. fields.line ≡ line) }
{
    let refusal = CardRefusal::FieldCount { line };
    let (first, rest) = cut(text, b',').ok_or(refusal)?;
    let (second, rest) = cut(rest, b',').ok_or(refusal)?;
    let (third, fourth) = cut(rest, b',').ok_or(refusal)?;
    if cut(fourth, b',').is_some() {
        return Err(refusal);
    }
    Ok(Fields {
        line,
        first,
        second,
        third,
        fourth,
    })
}

impl<'a> Reader<'a> {
    // At the first line of the card.
    pub(crate) fn new(card: &'a [u8]) -> Reader<'a>
        ensures left { left_in result ≡ card.now }
        ensures line { result.line ≡ 0 }
    {
        Reader {
            card,
            at: 0,
            line: 0,
        }
    }

    // The next line, if there is one. A last line that nothing ends is taken as it stands.
    pub(crate) fn next_line(&mut self) -> Option<&'a [u8]>
        ensures none { IfNone result ((left_in self.old ≡ []) × (self.new ≡ self.old)) }
        ensures line { IfSome result (λ line. lines_of (left_in self.old) ≡ line.now ∷ lines_of (left_in self.new)) }
        ensures number { OnSome result (self.new.line ≡ self.old.line + 1) }
        ensures shorter { OnSome result (length (left_in self.new) < length (left_in self.old)) }
    {
        if self.at == self.card.len() {
            return None;
        }
        let rest = &self.card[self.at..];
        self.line += 1;
        match cut(rest, b'\n') {
            Some((line, _)) => {
                self.at += line.len() + 1;
                Some(line)
            }
            None => {
                self.at += rest.len();
                Some(rest)
            }
        }
    }
}
