// What a row makes of what is known before it.
ghost use Rattle.std.specs.Prelude.{◌≡◌, length};
ghost use Rattle.facts.specs.Rules.{join_from, after, at_target, at_next};

use crate::registers::{bits_of, copied, known_at, narrow, of_operand, result_of, with};
use crate::types::{Known, Registers};
use labels::Label;
use routine::addressing::Window;
use routine::rows::{Operand, Row, Test};

// The words that a load or a store can reach, from what is known of its index.
pub(crate) fn window_of<L: Label>(labels: &[L], base: u32, index: Known<L>) -> Window
    ensures { result ≡ record { words = length labels.now; base = base; width = index.width } }
{
    Window {
        words: labels.len(),
        base,
        width: index.width,
    }
}

// The label joined with those of all words of the window. By a loop: with `filter` and `fold` the judge executes half as many
// instructions more.
fn window_label<L: Label>(labels: &[L], window: Window, label: L) -> L
    ensures { result ≡ join_from L.Label.kind window.words window.base window.width 0 labels.now label }
{
    let mut joined = label;
    for (i, word) in labels.iter().enumerate() {
        if window.reaches(i) {
            joined = joined.join(*word);
        }
    }
    joined
}

// What is known after a row, on its way to the next one.
pub fn known_after<L: Label>(row: Row, known: &Registers<L>, labels: &[L]) -> Registers<L>
    ensures { result ≡ after L.Label.kind labels.now row known.now }
{
    match row {
        Row::Set { to, value } => {
            let new = of_operand(known, Operand::Constant(value));
            with(copied(known), to, new)
        }
        Row::Copy { to, from } => {
            let new = known_at(known, from);
            with(copied(known), to, new)
        }
        Row::Compute {
            operation,
            to,
            left,
            right,
        } => {
            let first = known_at(known, left);
            let second = of_operand(known, right);
            let new = result_of(operation, first, right, second);
            with(copied(known), to, new)
        }
        Row::Load { to, base, index } => {
            let at = known_at(known, index);
            let new = Known {
                label: window_label(labels, window_of(labels, base, at), at.label),
                width: 32,
            };
            with(copied(known), to, new)
        }
        Row::Store {
            from: _,
            base: _,
            index: _,
        }
        | Row::Branch {
            test: _,
            left: _,
            right: _,
            target: _,
        }
        | Row::Jump { target: _ }
        | Row::Fence
        | Row::Halt => copied(known),
    }
}

// What a passed test tells on the target's side. Test, left and right are a row's fields and go as it holds them.
pub fn known_at_target<L: Label>(
    test: Test,
    left: u8,
    right: Operand,
    known: &Registers<L>,
) -> Registers<L>
    ensures { result ≡ at_target L.Label.kind test left right known.now }
{
    match (test, right) {
        (Test::Less, Operand::Register(b)) => narrow(copied(known), left, known_at(known, b).width),
        (Test::Less, Operand::Constant(k)) => narrow(
            copied(known),
            left,
            bits_of(k.saturating_sub(1)),
        ),
        (Test::Equal, Operand::Register(b)) => {
            let narrowed = narrow(copied(known), left, known_at(known, b).width);
            narrow(narrowed, b, known_at(known, left).width)
        }
        (Test::Equal, Operand::Constant(k)) => narrow(copied(known), left, bits_of(k)),
    }
}

// What a failed test tells on the next row's side. The sides are two rules, and share no arm that one function could say once.
pub fn known_at_next<L: Label>(
    test: Test,
    left: u8,
    right: Operand,
    known: &Registers<L>,
) -> Registers<L>
    ensures { result ≡ at_next L.Label.kind test left right known.now }
{
    match (test, right) {
        (Test::Less, Operand::Register(b)) => narrow(copied(known), b, known_at(known, left).width),
        (Test::Less, Operand::Constant(_)) | (Test::Equal, _) => copied(known),
    }
}
