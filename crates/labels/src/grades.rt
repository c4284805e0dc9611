// Grades as labels: the higher the grade of a value, the fewer may read it.
ghost use Rattle.std.specs.Prelude.{◌≡◌};
ghost use Rattle.labels.specs.Grades.{number_of, IsGradeFor, grades};
ghost use Rattle.labels.specs.GradesLawful.{grades_lawful};

use crate::Label;
use refusals::Refusal;

// How closely a value is held: a reader of a grade may read what has that grade or a lower one. There are sixteen,
// numbered from 0.
#[derive(Clone, Copy, PartialEq, Eq, PartialOrd, Ord)]
pub enum Grade {
    G0,
    G1,
    G2,
    G3,
    G4,
    G5,
    G6,
    G7,
    G8,
    G9,
    G10,
    G11,
    G12,
    G13,
    G14,
    G15,
}

// The grade of a number from 0 to 15; a larger one is declined.
impl TryFrom<u32> for Grade {
    type Error = Refusal;

    ghost try_from_gives = { IsGradeFor };

    fn try_from(number: u32) -> Result<Grade, Refusal> {
        let grade = match number {
            0 => Grade::G0,
            1 => Grade::G1,
            2 => Grade::G2,
            3 => Grade::G3,
            4 => Grade::G4,
            5 => Grade::G5,
            6 => Grade::G6,
            7 => Grade::G7,
            8 => Grade::G8,
            9 => Grade::G9,
            10 => Grade::G10,
            11 => Grade::G11,
            12 => Grade::G12,
            13 => Grade::G13,
            14 => Grade::G14,
            15 => Grade::G15,
            _ => return Err(Refusal::GradeRange),
        };
        Ok(grade)
    }
}

impl From<Grade> for u8 {
    ghost from_gives = { λ grade number. number ≡ number_of grade };

    fn from(grade: Grade) -> u8 {
        grade as u8
    }
}

impl Label for Grade {
    ghost kind = { grades };

    ghost lawful = { grades_lawful };

    fn at_or_below(self, other: Grade) -> bool {
        self <= other
    }

    fn join(self, other: Grade) -> Grade {
        // By hand: that `self.max(other)` is this takes a proof of 256 cases, more than the check has steps for.
        if self <= other { other } else { self }
    }

    fn lowest() -> Grade {
        Grade::G0
    }
}
