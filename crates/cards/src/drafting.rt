// Reading a card into a draft, line by line.
ghost use Rattle.std.specs.Prelude.{◌≡◌, ◌≤◌, true, IfOk};
ghost use Rattle.cards.specs.Text.{four_texts};
ghost use Rattle.cards.specs.Cards.{Card, lab_fits};
ghost use Rattle.cards.specs.Heads.{lab_in};
ghost use Rattle.cards.specs.Reading.{head_only, whole_in, lab_line, row_line, line_in};
ghost use Rattle.cards.specs.Rows.{map_ok};
ghost use Rattle.cards.specs.Drafts.{Drafts, Takes};

use crate::draft::Draft;
use crate::heads::{Head, Lab};
use crate::lines::{Fields, four_fields};
use crate::numbers::plain;
use crate::rows::row_in;
use crate::words::{Word, word_in};
use arrayvec::ArrayVec;
use refusals::{CardRefusal, Refusal};
use routine::{MAX_WORDS, Source, check};

impl Draft {
    // The draft of a card of which only the head was read. It is made of the head and not of the line, which may be refused: a draft is
    // 20 kB, and a compiler may copy them at each `?` that they go through.
    pub(crate) fn begin(head: Head) -> Draft
        requires some { 1 ≤ head.words }
        requires small { head.words ≤ 4096 }
        ensures { Drafts result (head_only head) }
    {
        Draft {
            head,
            labs: 0,
            covered: 0,
            labels: [0; MAX_WORDS],
            rows: ArrayVec::new(),
        }
    }

    // The `lab` line that the fields write, or the first wrong field. It begins no sooner than the `lab` lines before it end.
    fn lab_in(&self, fields: &Fields) -> Result<Lab, CardRefusal>
        ensures value { result ≡ lab_in self.now.head self.now.covered fields.now.line (four_texts fields.now) }
        ensures bound { IfOk result (λ lab. lab_fits self.now.head self.now.covered lab ≡ true) }
    {
        let line = fields.line;
        let last = self.head.words - 1;
        let from = plain(fields.second, self.covered, last).ok_or(CardRefusal::Lab {
            line,
            field: 2,
        })?;
        let rest = self.head.words - from;
        let count = plain(fields.third, 1, rest).ok_or(CardRefusal::Lab { line, field: 3 })?;
        let limit = self.head.kind.label_limit();
        let label = plain(fields.fourth, 0, limit).ok_or(CardRefusal::Lab { line, field: 4 })?;
        Ok(Lab { from, count, label })
    }

    // Takes a line as a `lab` line.
    fn take_lab(&mut self, fields: &Fields) -> Result<(), CardRefusal>
        ensures { Takes (λ card. lab_line card fields.now.line (four_texts fields.now)) self.old self.new result }
    {
        if !self.rows.is_empty() {
            return Err(CardRefusal::Lab {
                line: fields.line,
                field: 1,
            });
        }
        let lab = self.lab_in(fields)?;
        let end = lab.from + lab.count;
        self.labels[lab.from as usize..end as usize].fill(lab.label);
        self.covered = end;
        self.labs += 1;
        Ok(())
    }

    // Takes a line as a row.
    fn take_row(&mut self, word: Word, fields: &Fields) -> Result<(), CardRefusal>
        ensures { Takes (λ card. row_line card fields.now.line word (four_texts fields.now)) self.old self.new result }
    {
        let line = fields.line;
        if self.rows.is_full() {
            return Err(CardRefusal::ExtraRow { line });
        }
        let row = row_in(self.head.words, word, fields).map_err(|fault| CardRefusal::RowField {
            line,
            field: fault.field,
            cause: fault.cause,
        })?;
        self.rows.push(row);
        Ok(())
    }

    // Takes line `line`, which is not the head.
    pub(crate) fn take_line(&mut self, line: usize, text: &[u8]) -> Result<(), CardRefusal>
        ensures { Takes (λ card. line_in card line text.now) self.old self.new result }
    {
        let fields = four_fields(line, text)?;
        if fields.first == b"lab".as_slice() {
            return self.take_lab(&fields);
        }
        let word = word_in(fields.first).ok_or(CardRefusal::UnknownWord { line })?;
        self.take_row(word, &fields)
    }

    // The routine as a whole: what only all rows together can tell.
    pub(crate) fn check_whole(&self) -> Result<(), CardRefusal>
        ensures { (card : Card) → Drafts self.now card → result ≡ map_ok (whole_in card) (λ _. tt) }
    {
        let words = self.head.words as usize;
        let source = Source {
            rows: self.rows.as_slice(),
            labels: &self.labels[..words],
        };
        // The head and the `lab` lines come before all rows.
        let first = self.labs as usize + 2;
        // No `map_err`: what its closure would ask of a refusal is not proved.
        match check(&source, words) {
            Ok(()) => Ok(()),
            Err(refusal) => match refusal {
                Refusal::RowCount => Err(CardRefusal::NoRow),
                Refusal::Target { row } => Err(CardRefusal::Target { line: first + row }),
                Refusal::Ending { row } => Err(CardRefusal::Ending { line: first + row }),
                // Every field was read within its limit, and `check` does not tell the other two.
                Refusal::WordCount
                | Refusal::RowField { row: _ }
                | Refusal::WorkTable
                | Refusal::GradeRange => unreachable(),
            },
        }
    }
}
