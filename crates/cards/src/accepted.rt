// What an accepted card tells besides its rows and labels. The counts stand beside no table: the tables are the caller's.
use crate::heads::LabelKind;

#[derive(Clone, Copy)]
pub struct Accepted {
    // the kind of its labels
    pub kind: LabelKind,
    // the label of its reader, as a number
    pub reader: u32,
    // how many words of memory it is for, and so how many labels were written
    pub words: usize,
    // how many rows were written
    pub rows: usize,
}
