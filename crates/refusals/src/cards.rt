// Why a routine card is declined, and what each such refusal tells.
ghost use Rattle.std.specs.Prelude.{◌≡◌};
ghost use Rattle.refusals.specs.ToldOfCards.{cause_number, blames, told_of};

use crate::Layer;

// What is wrong with a field of a row; where several things are, the first of these.
#[derive(Clone, Copy)]
pub enum Cause {
    // it is not of the form that its place asks for
    Form,
    // its number has a leading zero
    LeadingZero,
    // its number is beyond the limit of its place
    BeyondLimit,
}

impl From<Cause> for u8 {
    ghost from_gives = { λ cause number. number ≡ cause_number cause };

    fn from(cause: Cause) -> u8 {
        match cause {
            Cause::Form => 1,
            Cause::LeadingZero => 2,
            Cause::BeyondLimit => 3,
        }
    }
}

// A refusal of a card, named by its ground. Lines and fields count from 1.
#[derive(Clone, Copy)]
pub enum CardRefusal {
    // the card is empty, over 32,768 bytes, or not ended by byte 10
    Extent,
    // the line has not exactly four fields
    FieldCount {
        line: usize,
    },
    // the first line is no head; its first wrong field
    Head {
        field: usize,
    },
    // a `lab` line is wrong; its first wrong field, 1 where it follows a row
    Lab {
        line: usize,
        field: usize,
    },
    // the line's first field is no known word
    UnknownWord {
        line: usize,
    },
    // the line would be row 257
    ExtraRow {
        line: usize,
    },
    // a field of a row is wrong
    RowField {
        line: usize,
        field: usize,
        cause: Cause,
    },
    // there is no row
    NoRow,
    // the line's target is no row, or it is a branch to its own next row
    Target {
        line: usize,
    },
    // the line is the last row and neither a jump nor a halt
    Ending {
        line: usize,
    },
    // the row or label table handed in is too short for the card
    ShortTable,
}

// What a refusal of a card tells. Line and field are 0 where none is to blame, no `Option`, for 0 is what is printed then; only a
// wrong field of a row has a cause.
#[derive(Clone, Copy)]
pub struct CardTold {
    pub number: u8,
    pub line: usize,
    pub field: usize,
    pub layer: Layer,
    pub cause: Option<Cause>,
}

// A refusal that blames no cause.
fn plain(number: u8, line: usize, field: usize, layer: Layer) -> CardTold
    ensures { result ≡ blames number line field layer }
{
    CardTold {
        number,
        line,
        field,
        layer,
        cause: None,
    }
}

impl CardRefusal {
    pub fn told(self) -> CardTold
        ensures { result ≡ told_of self }
    {
        match self {
            CardRefusal::Extent => plain(10, 0, 0, Layer::Card),
            CardRefusal::FieldCount { line } => plain(11, line, 0, Layer::Line),
            CardRefusal::Head { field } => plain(12, 1, field, Layer::Line),
            CardRefusal::Lab { line, field } => plain(13, line, field, Layer::Line),
            CardRefusal::UnknownWord { line } => plain(14, line, 1, Layer::Line),
            CardRefusal::ExtraRow { line } => plain(15, line, 0, Layer::Line),
            CardRefusal::RowField { line, field, cause } => CardTold {
                number: 16,
                line,
                field,
                layer: Layer::Field,
                cause: Some(cause),
            },
            CardRefusal::NoRow => plain(1, 0, 0, Layer::Table),
            CardRefusal::Target { line } => plain(4, line, 1, Layer::Table),
            CardRefusal::Ending { line } => plain(5, line, 1, Layer::Table),
            CardRefusal::ShortTable => plain(17, 0, 0, Layer::Card),
        }
    }
}
