// Sets of makers as labels. A maker is one whose figures a value may depend on; there are sixteen, numbered from 0.
ghost use Rattle.labels.specs.Makers.{sets};
ghost use Rattle.labels.specs.MakersLawful.{sets_lawful};

use crate::Label;

// A set of makers, written as the sum of 2^i over its members i. Every number of 16 bits is such a set.
#[derive(Clone, Copy)]
pub struct MakerSet {
    pub members: u16,
}

impl Label for MakerSet {
    ghost kind = { sets };

    ghost lawful = { sets_lawful };

    fn at_or_below(self, other: MakerSet) -> bool {
        self.members & other.members == self.members
    }

    fn join(self, other: MakerSet) -> MakerSet {
        MakerSet {
            members: self.members | other.members,
        }
    }

    fn lowest() -> MakerSet {
        MakerSet { members: 0 }
    }
}
