// What is known of registers at a row, and what may leak there.
ghost use Rattle.std.specs.Prelude.{◌≡◌};
ghost use Rattle.facts.specs.Order.{knows};

use labels::Label;
use routine::LAST_REGISTER;

// How a row is reached: settled on the way that the branches really take, guessed on any way that a guess may take.
#[derive(Clone, Copy)]
pub enum Mode {
    Settled,
    Guessed,
}

// Why a row leaks: its address, its branch or its stored value shows more than it may.
#[derive(Clone, Copy)]
pub enum Reason {
    Address,
    Branch,
    Spill,
}

// Which leaks a search is for: all, or those that keep a routine from the verdict G. An enum and no closure: the statements of C and
// of G name it.
#[derive(Clone, Copy)]
pub enum Sought {
    AnyLeak,
    SpillOrGuessed,
}

// What is known of a register: whose figures its value may depend on, and that it is below 2 ^ width.
#[derive(Clone, Copy)]
pub struct Known<L> {
    pub label: L,
    pub width: u8,
}

// What is known at the start: the register is 0, and depends on nothing.
impl<L: Label> Default for Known<L> {
    ghost is_default = { λ known. known ≡ knows L.Label.kind.lowest 0 };

    fn default() -> Known<L> {
        Known {
            label: L::lowest(),
            width: 0,
        }
    }
}

// How many registers there are.
pub const REGISTERS: usize = LAST_REGISTER as usize + 1;

// What is known of all sixteen registers.
pub type Registers<L> = [Known<L>; REGISTERS];

// What is known at a row in a mode; none where the row is unreached, that is, never reached in that mode.
pub type Fact<L> = Option<Registers<L>>;
