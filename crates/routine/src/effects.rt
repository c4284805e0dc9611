// What a computing word makes of two values, and when a branch is taken.
ghost use Rattle.std.specs.Prelude.{◌≡◌, ◌%◌, ◌^◌};
ghost use Rattle.routine.specs.Effects.{computed, outcome};

use crate::rows::{Operation, Test};

impl Operation {
    // A shift is by the low five bits of its right value; a comparison gives 1 or 0.
    pub fn apply(self, a: u32, b: u32) -> u32
        ensures { result ≡ computed self a b % 2 ^ 32 }
    {
        match self {
            Operation::Add => a.wrapping_add(b),
            Operation::Sub => a.wrapping_sub(b),
            Operation::Mul => a.wrapping_mul(b),
            Operation::And => a & b,
            Operation::Or => a | b,
            Operation::Xor => a ^ b,
            Operation::ShiftLeft => a << (b % 32),
            Operation::ShiftRight => a >> (b % 32),
            Operation::Less => u32::from(a < b),
            Operation::Equal => u32::from(a == b),
        }
    }
}

impl Test {
    pub fn passes(self, a: u32, b: u32) -> bool
        ensures { result ≡ outcome self a b }
    {
        match self {
            Test::Less => a < b,
            Test::Equal => a == b,
        }
    }
}
