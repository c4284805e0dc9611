// From a card's bytes to the line that answers it.
#![tactic(auto)]

mod answering;
mod numbered;

pub use answering::answer;
