// Reporting: the one line that tells a verdict, or tells why a card is declined.
#![tactic(auto)]

mod declined;
pub mod line;
mod verdicts;

pub use declined::declined_line;
pub use line::Line;
pub use verdicts::verdict_line;
