// Judging: the least closed table of facts of a routine, and the verdict that it gives.
#![tactic(auto)]

pub mod judged;
pub mod judgement;
mod least;
mod search;
pub mod verdict;

pub use judged::Judged;
pub use judgement::{MAX_FACTS, check, judge};
pub use verdict::{Leak, Verdict};
