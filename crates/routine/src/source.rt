// What a routine is made of.
use crate::rows::Row;

// The rows, and a label for each word of memory.
#[derive_where(Clone, Copy)]
pub struct Source<'a, L> {
    pub rows: &'a [Row],
    pub labels: &'a [L],
}
