// What a verdict promises of the machines that a routine runs on, proved of their rules. Each function stands for a theorem,
// which is its contract.
#![tactic(auto)]

ghost use Rattle.promise.specs.Invisible.{GuessingInvisible};
ghost use Rattle.promise.specs.Promise.{PromiseKept};
ghost use Rattle.promise.specs.Truth.{FactsTrue};

use labels::Label;

pub mod events;

// What C and G promise of two machines, for every kind of label.
pub fn promise_is_kept<L: Label>()
    ensures { PromiseKept L.Label.kind }
{}

// What a closed table says of rows and registers is true along every run on words of the routine's size.
pub fn facts_are_true<L: Label>()
    ensures { FactsTrue L.Label.kind }
{}

// Level 0 of a guessing machine is a plain machine.
pub fn guessing_is_invisible()
    ensures { GuessingInvisible }
{}
