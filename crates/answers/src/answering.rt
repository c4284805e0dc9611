// The answer to a card.
ghost use Rattle.std.specs.Prelude.{◌≡◌, ◌*◌, ◌≤◌, true, map, length, take};
ghost use Rattle.routine.specs.Limits.{within};
ghost use Rattle.report.specs.Parts.{line_bytes};
ghost use Rattle.answers.specs.Answers.{GivesLineAs, GivesLine, Answers};

use crate::numbered::Numbered;
use cards::{Accepted, LabelKind, read};
use facts::types::Fact;
use judging::MAX_FACTS;
use labels::{Grade, Label, MakerSet};
use report::{Line, declined_line, verdict_line};
use routine::rows::Row;
use routine::{MAX_ROWS, MAX_WORDS, Source};

// Gives each word the label of its number.
fn fill_labels<L: Numbered>(numbers: &[u32], labels: &mut [L])
    requires { length numbers.now ≡ length labels.old }
    ensures { labels.new ≡ map L.Numbered.numbered numbers.now }
{
    // By index: of what a loop over a `zip` of `iter_mut` wrote nothing is known.
    for (i, number) in numbers.iter().enumerate() {
        labels[i] = L::from_number(*number);
    }
}

// The line of the verdict on rows, with labels and a reader by the numbers that a kind writes for them. The tables of labels and of
// facts are for working in. What is read goes as parameters: a struct for one call would be no plainer, and there is
// no `Taken` yet to keep `within`.
fn answer_as<L: Numbered>(
    rows: &[Row],
    numbers: &[u32],
    reader: u32,
    labels: &mut [L],
    table: &mut [Fact<L>],
) -> Line
    requires fits { within rows.now (length numbers.now) (length numbers.now) ≡ true }
    requires labels { length numbers.now ≤ length labels.old }
    requires table { 2 * length rows.now ≤ length table.old }
    ensures { GivesLineAs L.Label.kind (map L.Numbered.numbered numbers.now) rows.now (L.Numbered.numbered reader) (line_bytes result) }
{
    let labels = &mut labels[..numbers.len()];
    fill_labels(numbers, labels);
    let source = Source { rows, labels };
    let taken = routine::take(&source, numbers.len());
    let judged = judging::judge(taken, L::from_number(reader), table);
    verdict_line(judged.verdict())
}

// The line of the verdict on an accepted card, which was read into these tables.
fn answer_accepted(accepted: Accepted, rows: &[Row], numbers: &[u32]) -> Line
    requires rows { accepted.rows ≤ length rows.now }
    requires words { accepted.words ≤ length numbers.now }
    requires fits { within (take accepted.rows rows.now) accepted.words accepted.words ≡ true }
    ensures { GivesLine accepted.kind (take accepted.words numbers.now) (take accepted.rows rows.now) accepted.reader (line_bytes result) }
{
    let rows = &rows[..accepted.rows];
    let numbers = &numbers[..accepted.words];
    match accepted.kind {
        // Each kind has its tables made here: of an array of a type parameter no size is known.
        LabelKind::Makers => {
            let mut labels = [MakerSet::lowest(); MAX_WORDS];
            let mut table = [None; MAX_FACTS];
            answer_as(rows, numbers, accepted.reader, &mut labels, &mut table)
        }
        LabelKind::Grades => {
            let mut labels = [Grade::lowest(); MAX_WORDS];
            let mut table = [None; MAX_FACTS];
            answer_as(rows, numbers, accepted.reader, &mut labels, &mut table)
        }
    }
}

// The line that answers a text offered as a card: its verdict, or why it is declined. All tables are for the longest card, so
// that nothing is asked of the heap and there is an answer to every text.
pub fn answer(card: &[u8]) -> Line
    ensures { Answers card.now (line_bytes result) }
{
    let mut rows = [Row::Halt; MAX_ROWS];
    let mut numbers = [0; MAX_WORDS];
    match read(card, &mut rows, &mut numbers) {
        Ok(accepted) => answer_accepted(accepted, &rows, &numbers),
        Err(refusal) => declined_line(refusal),
    }
}
