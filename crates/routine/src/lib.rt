// Rows, what they do to registers, which words they can reach, and the taking of a routine.
#![tactic(auto)]

pub mod addressing;
pub mod effects;
pub mod rows;
pub mod source;
pub mod taken;
pub mod taking;

pub use source::Source;
pub use taken::{Taken, take};
pub use taking::{LAST_REGISTER, LAST_SHIFT, MAX_ROWS, MAX_WORDS, check};
