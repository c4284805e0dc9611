// The order of facts, and how a fact rises to admit what is handed to it.
ghost use Rattle.std.specs.Prelude.{◌≡◌, ◌≤◌, length};
ghost use Rattle.facts.specs.Order.{below_known, below_all, join_known, join_all};
ghost use Rattle.facts.specs.Raising.{Bounded, Raised};

use crate::registers::copied;
use crate::types::{Fact, Known, REGISTERS, Registers};
use labels::Label;

fn known_below<L: Label>(a: Known<L>, b: Known<L>) -> bool
    ensures { result ≡ below_known L.Label.kind a b }
{
    a.label.at_or_below(b.label) && a.width <= b.width
}

fn all_below<L: Label>(one: &Registers<L>, other: &Registers<L>) -> bool
    ensures { result ≡ below_all L.Label.kind one.now other.now }
{
    one.iter().zip(other).all(|(a, b)| known_below(*a, *b))
}

fn known_joined<L: Label>(a: Known<L>, b: Known<L>) -> Known<L>
    ensures value { result ≡ join_known L.Label.kind a b }
    ensures ranked { L.Label.kind.rank result.label ≤ L.Label.kind.greatest }
    ensures wide { result.width ≤ 255 }
{
    Known {
        label: a.label.join(b.label),
        width: a.width.max(b.width),
    }
}

fn all_joined<L: Label>(one: &Registers<L>, other: &Registers<L>) -> Registers<L>
    ensures value { result ≡ join_all L.Label.kind one.now other.now }
    ensures bounded { Bounded L.Label.kind result }
    ensures long { (length one.now ≡ 16) × (length other.now ≡ 16) }
{
    let a: &[Known<L>] = one;
    let b: &[Known<L>] = other;
    let mut joined = copied(one);
    // By index: of what a loop over a `zip` of `iter_mut` wrote nothing is known, and no proof was found with `array::from_fn`.
    for i in 0..REGISTERS {
        joined[i] = known_joined(a[i], b[i]);
    }
    joined
}

// A copy of a fact, for whoever hands on what is known while facts change.
pub fn copy_of<L: Label>(fact: &Fact<L>) -> Option<Registers<L>>
    ensures { result ≡ fact.now }
{
    fact.as_ref().copied()
}

// What a fact has to rise to, to be at or above what is handed to it; none where it is already.
pub fn raised<L: Label>(fact: &Fact<L>, handed: &Registers<L>) -> Option<Registers<L>>
    ensures { Raised L.Label.kind fact.now handed.now result }
{
    match fact {
        None => Some(copied(handed)),
        Some(old) => {
            if all_below(handed, old) {
                None
            } else {
                Some(all_joined(old, handed))
            }
        }
    }
}
