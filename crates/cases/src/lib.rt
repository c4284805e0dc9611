// The bench table: seven routines that share a memory, and the verdict that the rules give each; and what the first of them
// shows on the guessing machine.
#![tactic(auto)]

ghost use Rattle.std.specs.Prelude.{◌≡◌};
ghost use Rattle.cases.specs.Bench.{rows_in, bench_labels, BenchTable};

use labels::MakerSet;
use routine::rows::{Operand, Operation, Row, Test};

// All take a word from 48 as an index. Words 16 to 31 of the 64 belong to maker 0; the reader is the empty set.
#[derive(Clone, Copy)]
pub enum Case {
    // reads where the index is below 16, and a guess reads where it is not
    OpenCard,
    // a fence stands before the reads
    Fenced,
    // the index is cut to four bits before the reads
    Masked,
    // it is cut to five bits, and reaches maker 0's words
    MaskedWide,
    // fenced, but the bound admits 16, a word of maker 0
    FencedPast,
    // stores maker 0's word in the last of maker 0's words
    StoredInside,
    // stores it in the word after them
    StoredOutside,
}

// Rows that differ in a number are constants each: a constant's value may call no function, and a macro would hide the rows.

// r0 is 0.
const CLEAR: Row = Row::Set { to: 0, value: 0 };

// r1 is the index, word 48.
const INDEX: Row = Row::Load {
    to: 1,
    base: 48,
    index: 0,
};

// Row 4 is gone to where the index is below 16.
const BELOW_16: Row = Row::Branch {
    test: Test::Less,
    left: 1,
    right: Operand::Constant(16),
    target: 4,
};

const BELOW_17: Row = Row::Branch {
    test: Test::Less,
    left: 1,
    right: Operand::Constant(17),
    target: 4,
};

// The index is cut to its lower bits.
const KEEP_4_BITS: Row = Row::Compute {
    operation: Operation::And,
    to: 1,
    left: 1,
    right: Operand::Constant(15),
};

const KEEP_5_BITS: Row = Row::Compute {
    operation: Operation::And,
    to: 1,
    left: 1,
    right: Operand::Constant(31),
};

// A word is read at the index, and another at what it holds.
const READ: Row = Row::Load {
    to: 2,
    base: 0,
    index: 1,
};

const SHOW: Row = Row::Load {
    to: 3,
    base: 32,
    index: 2,
};

// r1 is maker 0's first word, and is stored.
const SEALED: Row = Row::Load {
    to: 1,
    base: 16,
    index: 0,
};

const STORE_31: Row = Row::Store {
    from: 1,
    base: 31,
    index: 0,
};

const STORE_32: Row = Row::Store {
    from: 1,
    base: 32,
    index: 0,
};

// The rows of a case.
pub fn rows(case: Case) -> &'static [Row]
    ensures { result.now ≡ rows_in case }
{
    match case {
        Case::OpenCard => &[CLEAR, INDEX, BELOW_16, Row::Halt, READ, SHOW, Row::Halt],
        Case::Fenced => &[
            CLEAR,
            INDEX,
            BELOW_16,
            Row::Halt,
            Row::Fence,
            READ,
            SHOW,
            Row::Halt,
        ],
        Case::Masked => &[
            CLEAR,
            INDEX,
            BELOW_16,
            Row::Halt,
            KEEP_4_BITS,
            READ,
            SHOW,
            Row::Halt,
        ],
        Case::MaskedWide => &[
            CLEAR,
            INDEX,
            BELOW_16,
            Row::Halt,
            KEEP_5_BITS,
            READ,
            SHOW,
            Row::Halt,
        ],
        Case::FencedPast => &[
            CLEAR,
            INDEX,
            BELOW_17,
            Row::Halt,
            Row::Fence,
            READ,
            SHOW,
            Row::Halt,
        ],
        Case::StoredInside => &[CLEAR, SEALED, STORE_31, Row::Halt],
        Case::StoredOutside => &[CLEAR, SEALED, STORE_32, Row::Halt],
    }
}

// A label for each of the 64 words.
pub type Labels = [MakerSet; 64];

pub fn bench_labels() -> Labels
    ensures { result ≡ bench_labels }
{
    let mut labels = [MakerSet { members: 0 }; 64];
    labels[16..32].fill(MakerSet { members: 1 });
    labels
}

// Stands for the bench table: the rules give each of the seven routines its verdict, and the open card its eight answers.
pub fn bench_table()
    ensures { BenchTable }
{}
