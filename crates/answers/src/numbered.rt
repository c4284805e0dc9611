// Labels by the numbers that cards write for them.
ghost use Rattle.std.specs.Prelude.{◌≡◌, ℕ};
ghost use Rattle.answers.specs.Numbered.{makers_numbered, grade_numbered};

use labels::{Grade, Label, MakerSet};

// A kind whose labels have numbers. A number past the last, which no card has, stands for the highest label.
pub(crate) trait Numbered: Label {
    ghost numbered: { ℕ → Self };

    fn from_number(number: u32) -> Self
        ensures { result ≡ numbered number };
}

impl Numbered for MakerSet {
    ghost numbered = { makers_numbered };

    fn from_number(number: u32) -> MakerSet {
        MakerSet {
            members: u16::try_from(number).unwrap_or(u16::MAX),
        }
    }
}

impl Numbered for Grade {
    ghost numbered = { grade_numbered };

    fn from_number(number: u32) -> Grade {
        Grade::try_from(number).unwrap_or(Grade::G15)
    }
}
