// The verdicts.
use facts::types::{Mode, Reason};

// A leak: the row, how it is reached, and why it leaks.
#[derive(Clone, Copy)]
pub struct Leak {
    pub row: usize,
    pub mode: Mode,
    pub reason: Reason,
}

// What a routine may do beside figures that its reader must not learn.
#[derive(Clone, Copy)]
pub enum Verdict {
    // clear: some closed table of facts has no leak
    C,
    // guarded: not clear, but some closed table has no spill and no guessed leak; its first leak
    G(Leak),
    // leaking: neither; the first spill or guessed leak
    L(Leak),
}
