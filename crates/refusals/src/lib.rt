// Why a call is declined: every refusal, with the number, the place and the layer that it tells.
#![tactic(auto)]

ghost use Rattle.std.specs.Prelude.{◌≡◌};
ghost use Rattle.refusals.specs.Told.{told};

pub mod cards;

pub use cards::{CardRefusal, CardTold, Cause};

// The part of the product that declines: the card as a whole, a line of it, a field of a line, or the tables of rows,
// words and facts, whoever filled them.
#[derive(Clone, Copy)]
pub enum Layer {
    Card,
    Line,
    Field,
    Table,
}

// A refusal, named by its ground. Where one row is to blame, it is the first such row.
#[derive(Clone, Copy)]
pub enum Refusal {
    // there is no row, or there are more than 256
    RowCount,
    // the words are not 1 to 4,096, or there is not one label for each
    WordCount,
    // a register above 15, a base that is no word, or a constant shift above 31
    RowField { row: usize },
    // a target that is no row, or a branch to its own next row
    Target { row: usize },
    // the last row is neither a jump nor a halt
    Ending { row: usize },
    // the work table holds under two facts a row
    WorkTable,
    // a number above 15 offered as a grade
    GradeRange,
}

impl Refusal {
    pub fn number(self) -> u8
        ensures { result ≡ (told self).number }
    {
        match self {
            Refusal::RowCount => 1,
            Refusal::WordCount => 2,
            Refusal::RowField { row: _ } => 3,
            Refusal::Target { row: _ } => 4,
            Refusal::Ending { row: _ } => 5,
            Refusal::WorkTable => 6,
            Refusal::GradeRange => 9,
        }
    }

    // The row that is to blame, 0 where no one row is: no `Option`, for 0 is the place that is told then.
    pub fn place(self) -> usize
        ensures { result ≡ (told self).place }
    {
        match self {
            Refusal::RowField { row } | Refusal::Target { row } | Refusal::Ending { row } => row,
            Refusal::RowCount | Refusal::WordCount | Refusal::WorkTable | Refusal::GradeRange => 0,
        }
    }

    pub fn layer(self) -> Layer
        ensures { result ≡ (told self).layer }
    {
        Layer::Table
    }
}
