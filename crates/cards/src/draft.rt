// What was read of a card so far.
ghost use Rattle.std.specs.Prelude.{◌≡◌, ◌≤◌, true};
ghost use Rattle.routine.specs.Limits.{every_field_fits};

use crate::heads::Head;
use arrayvec::ArrayVec;
use routine::rows::Row;
use routine::{MAX_ROWS, MAX_WORDS};

// The tables handed in are not written before the whole card is accepted, so it is gathered here.
#[derive(Drop)]
pub(crate) struct Draft {
    pub head: Head,
    // how many `lab` lines there were, and the word after the last that they cover
    pub labs: u32,
    pub covered: u32,
    // of fixed size: how many of them are used is the head's to say
    pub labels: [u32; MAX_WORDS],
    pub rows: ArrayVec<Row, MAX_ROWS>,
    ghost some: { 1 ≤ head.words },
    ghost small: { head.words ≤ 4096 },
    ghost fits: { every_field_fits rows.items head.words ≡ true },
    // each `lab` line covers a word at least
    ghost counted: { labs ≤ covered },
    ghost inside: { covered ≤ head.words },
}
