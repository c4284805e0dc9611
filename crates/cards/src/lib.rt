// Routine cards: the text that a maker writes, and the routine that it stands for.
#![tactic(auto)]

pub mod accepted;
mod draft;
mod drafting;
mod fields;
pub mod heads;
mod lines;
mod numbers;
mod reader;
mod reading;
mod rows;
mod words;

pub use accepted::Accepted;
pub use heads::LabelKind;
pub use reading::{MAX_CARD, read};
