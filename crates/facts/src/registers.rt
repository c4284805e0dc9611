// What is known of one register or operand.
ghost use Rattle.std.specs.Prelude.{◌≡◌, ℕ, ◌+◌, ◌-◌, min, length, slice_set};
ghost use Rattle.facts.specs.Order.{known_at};
ghost use Rattle.facts.specs.Rules.{bits_of, of_operand, width_after, result_of, narrowed};

use crate::types::{Known, REGISTERS, Registers};
use labels::Label;
use routine::rows::{Operand, Operation};

// Of a register that there is not, what is known at the start.
pub(crate) fn known_at<L: Label>(known: &Registers<L>, register: u8) -> Known<L>
    ensures { result ≡ known_at L.Label.kind known.now register }
{
    known
        .get(usize::from(register))
        .copied()
        .unwrap_or_default()
}

// A copy of what a reference lends. Of a value whose type is a parameter the check covers `*value`; of one that holds such values, as
// `*known` does below, it does not yet.
fn copy<T: Copy>(value: &T) -> T
    ensures { result ≡ value.now }
{
    *value
}

// All registers are copied at once: of an array that is filled before it is written the filling stays, some 40 stores a turn of judging.
pub(crate) fn copied<L: Label>(known: &Registers<L>) -> Registers<L>
    ensures value { result ≡ known.now }
    ensures long { length result ≡ 16 }
{
    copy(known)
}

// The registers with one replaced.
pub(crate) fn with<L: Label>(mut known: Registers<L>, register: u8, new: Known<L>) -> Registers<L>
    ensures { result ≡ slice_set known register new }
{
    let at = usize::from(register);
    if at < REGISTERS {
        known[at] = new;
    }
    known
}

// The count of significant bits.
pub(crate) fn bits_of(n: u32) -> u8
    ensures { result ≡ bits_of n }
{
    (32 - n.leading_zeros()) as u8
}

pub(crate) fn of_operand<L: Label>(known: &Registers<L>, operand: Operand) -> Known<L>
    ensures { result ≡ of_operand L.Label.kind known.now operand }
{
    match operand {
        Operand::Register(register) => known_at(known, register),
        Operand::Constant(k) => Known {
            label: L::lowest(),
            width: bits_of(k),
        },
    }
}

// The width of a computing word's result, at most 32.
pub(crate) fn width_after(operation: Operation, left: u8, right: Operand, right_width: u8) -> u8
    ensures { result ≡ min 32 (width_after operation left right right_width) }
{
    let a = u64::from(left);
    let b = u64::from(right_width);
    let width = match operation {
        Operation::Add => a.max(b) + 1,
        Operation::Sub => 32,
        Operation::Mul => a + b,
        Operation::And => a.min(b),
        Operation::Or | Operation::Xor => a.max(b),
        Operation::ShiftLeft => match right {
            Operand::Constant(k) => a + u64::from(k),
            Operand::Register(_) => 32,
        },
        Operation::ShiftRight => match right {
            Operand::Constant(k) => a.saturating_sub(u64::from(k)),
            Operand::Register(_) => a,
        },
        Operation::Less | Operation::Equal => 1,
    };
    width.min(32) as u8
}

// What is known of a computing word's result. The label is the join even where the operands are one register.
pub(crate) fn result_of<L: Label>(
    operation: Operation,
    left: Known<L>,
    right: Operand,
    other: Known<L>,
) -> Known<L>
    ensures { result ≡ result_of L.Label.kind operation left right other }
{
    Known {
        label: left.label.join(other.label),
        width: width_after(operation, left.width, right, other.width),
    }
}

// The registers with the width of one replaced by the smaller of two.
pub(crate) fn narrow<L: Label>(known: Registers<L>, register: u8, width: u8) -> Registers<L>
    ensures { result ≡ narrowed L.Label.kind known register width }
{
    let old = known_at(&known, register);
    with(
        known,
        register,
        Known {
            label: old.label,
            width: old.width.min(width),
        },
    )
}
