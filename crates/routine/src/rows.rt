// The rows of a routine. A register is named by its number; a row counts from 0.
ghost use Rattle.std.specs.Prelude.{◌≡◌};
ghost use Rattle.routine.specs.declared.rows.Row.TheVariants.{Halt};

#[derive(Clone, Copy)]
pub enum Operand {
    Register(u8),
    Constant(u32),
}

// The ten computing words: add, sub, mul, and, ior, xor, shl, shr, ltu, equ.
#[derive(Clone, Copy)]
pub enum Operation {
    Add,
    Sub,
    Mul,
    And,
    Or,
    Xor,
    ShiftLeft,
    ShiftRight,
    Less,
    Equal,
}

// What a branch compares by: blt, beq.
#[derive(Clone, Copy)]
pub enum Test {
    Less,
    Equal,
}

// A row: one of the nineteen words with its fields.
#[derive(Clone, Copy)]
pub enum Row {
    // set: the register becomes the constant
    Set {
        to: u8,
        value: u32,
    },
    // cpy: the register becomes the other
    Copy {
        to: u8,
        from: u8,
    },
    // a computing word
    Compute {
        operation: Operation,
        to: u8,
        left: u8,
        right: Operand,
    },
    // lod: the register becomes the word at the address of base and index
    Load {
        to: u8,
        base: u32,
        index: u8,
    },
    // sto: the word at the address of base and index becomes the register
    Store {
        from: u8,
        base: u32,
        index: u8,
    },
    // blt, beq: to the target where the test passes, else to the next row
    Branch {
        test: Test,
        left: u8,
        right: Operand,
        target: u32,
    },
    // jmp
    Jump {
        target: u32,
    },
    // fen
    Fence,
    // hlt
    Halt,
}

// It stands where a table of fixed size holds no row yet. By hand and not derived, so that a law says which row it is.
impl Default for Row {
    ghost is_default = { λ row. row ≡ Halt };

    fn default() -> Row {
        Row::Halt
    }
}
