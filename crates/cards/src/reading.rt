// Reading a card.
ghost use Rattle.std.specs.Prelude.{◌≡◌, ◌+◌, ◌≤◌, IfOk};
ghost use Rattle.cards.specs.Text.{lines_of, left_in};
ghost use Rattle.cards.specs.Reading.{extent_fits, head_line, lines_in, read_card};
ghost use Rattle.cards.specs.Laws.{ReadingLaws};
ghost use Rattle.cards.specs.Reads.{Reads};
ghost use Rattle.cards.specs.Drafts.{Gathers, Takes};

use crate::accepted::Accepted;
use crate::draft::Draft;
use crate::heads::{Head, head_in};
use crate::lines::four_fields;
use crate::reader::Reader;
use refusals::CardRefusal;
use routine::rows::Row;

// As many bytes as a card may have.
pub const MAX_CARD: usize = 32768;

// Whether the text is as long as a card may be, and ended as one.
fn fits_extent(text: &[u8]) -> bool
    ensures { result ≡ extent_fits text.now }
{
    text.len() <= MAX_CARD && text.ends_with(b"\n")
}

// The head that the first line writes.
fn head_line(line: &[u8]) -> Result<Head, CardRefusal>
    ensures value { result ≡ head_line line.now }
    ensures bound { IfOk result (λ head. (1 ≤ head.words) × (head.words ≤ 4096)) }
{
    let fields = four_fields(1, line)?;
    head_in(&fields)
}

// Takes the lines that are left.
fn take_lines(reader: &mut Reader, draft: &mut Draft) -> Result<(), CardRefusal>
    ensures { Takes (λ card. lines_in card (reader.old.line + 1) (lines_of (left_in reader.old))) draft.old draft.new result }
{
    // A `while`: each line goes with the number that the reader has just counted.
    while let Some(line) = reader.next_line() {
        draft.take_line(reader.line, line)?;
    }
    Ok(())
}

// The draft of the card that the text writes.
fn gather(text: &[u8]) -> Result<Draft, CardRefusal>
    ensures { Gathers (read_card text.now) result }
{
    if !fits_extent(text) {
        return Err(CardRefusal::Extent);
    }
    let mut reader = Reader::new(text);
    let Some(first) = reader.next_line() else {
        return Err(CardRefusal::Extent);
    };
    let mut draft = Draft::begin(head_line(first)?);
    take_lines(&mut reader, &mut draft)?;
    draft.check_whole()?;
    Ok(draft)
}

// Reads a card. Its rows, and the labels of its words as numbers, are written to the tables handed in; nothing beyond them is, and
// nothing at all where the card is declined.
pub fn read(card: &[u8], rows: &mut [Row], labels: &mut [u32]) -> Result<Accepted, CardRefusal>
    ensures reads { Reads card.now rows.old labels.old result rows.new labels.new }
    ensures laws { ReadingLaws }
{
    let draft = gather(card)?;
    let words = draft.head.words as usize;
    let count = draft.rows.len();
    if rows.len() < count || labels.len() < words {
        return Err(CardRefusal::ShortTable);
    }
    rows[..count].copy_from_slice(draft.rows.as_slice());
    labels[..words].copy_from_slice(&draft.labels[..words]);
    Ok(Accepted {
        kind: draft.head.kind,
        reader: draft.head.reader,
        words,
        rows: count,
    })
}
