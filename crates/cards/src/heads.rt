// A card's head, and what its `lab` lines say.
ghost use Rattle.std.specs.Prelude.{◌≡◌, ◌≤◌, IfOk};
ghost use Rattle.cards.specs.Heads.{kind_named, label_limit, head_in};
ghost use Rattle.cards.specs.Text.{four_texts};

use crate::lines::Fields;
use crate::numbers::plain;
use refusals::CardRefusal;
use routine::MAX_WORDS;

// The kinds of label that a card can name.
#[derive(Clone, Copy)]
pub enum LabelKind {
    // sets of makers, written as the sum of 2^i over the members i
    Makers,
    // grades, written as their numbers
    Grades,
}

// What a card's first line says: the kind of its labels, its reader's label, and the number of words of memory.
#[derive(Clone, Copy)]
pub struct Head {
    pub kind: LabelKind,
    pub reader: u32,
    pub words: u32,
}

// A `lab` line: a label for so many words, from one on.
#[derive(Clone, Copy)]
pub struct Lab {
    pub from: u32,
    pub count: u32,
    pub label: u32,
}

impl LabelKind {
    // The largest number that a label of the kind is written as.
    pub(crate) fn label_limit(self) -> u32
        ensures { result ≡ label_limit self }
    {
        match self {
            LabelKind::Makers => u32::from(u16::MAX),
            // A number: this crate does not stand on the one that names the last grade.
            LabelKind::Grades => 15,
        }
    }

    // The kind of a name. No `TryFrom`: that would want an error that nothing reads.
    fn named(name: &[u8]) -> Option<LabelKind>
        ensures { result ≡ kind_named name.now }
    {
        match name {
            b"makers" => Some(LabelKind::Makers),
            b"grade" => Some(LabelKind::Grades),
            _ => None,
        }
    }
}

// The head that the fields write, or the first wrong field.
pub(crate) fn head_in(fields: &Fields) -> Result<Head, CardRefusal>
    ensures value { result ≡ head_in (four_texts fields.now) }
    ensures bound { IfOk result (λ head. (1 ≤ head.words) × (head.words ≤ 4096)) }
{
    if fields.first != b"card".as_slice() {
        return Err(CardRefusal::Head { field: 1 });
    }
    let kind = LabelKind::named(fields.second).ok_or(CardRefusal::Head { field: 2 })?;
    let reader = plain(fields.third, 0, kind.label_limit()).ok_or(CardRefusal::Head { field: 3 })?;
    let words = plain(fields.fourth, 1, MAX_WORDS as u32).ok_or(CardRefusal::Head { field: 4 })?;
    Ok(Head {
        kind,
        reader,
        words,
    })
}
