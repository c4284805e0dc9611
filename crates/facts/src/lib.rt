// Facts about registers: what a row hands on, and what leaks at it.
#![tactic(auto)]

pub mod leaks;
pub mod order;
mod registers;
pub mod rules;
pub mod types;
