// The words that rows begin with.
ghost use Rattle.std.specs.Prelude.{◌≡◌};
ghost use Rattle.cards.specs.Fields.{part_of};
ghost use Rattle.cards.specs.Words.{all_words, named, word_of};

use crate::fields::{Field, field_of};
use routine::rows::{Operation, Test};

// A row's first field says what it does.
#[derive(Clone, Copy)]
pub(crate) enum Word {
    Set,
    Copy,
    Compute(Operation),
    Load,
    Store,
    Branch(Test),
    Jump,
    Fence,
    Halt,
}

// The word in a field.
pub(crate) fn word_in(text: &[u8]) -> Option<Word>
    ensures { result ≡ word_of (part_of text.now) }
{
    match field_of(text) {
        Field::Word(name) => word_named(name),
        Field::Register(_) | Field::Constant(_) | Field::Dash => None,
    }
}

// The word that a name stands for.
#[tactic(auto, unfolding(crate::specs::Words::named))]
fn word_named(name: &[u8]) -> Option<Word>
    ensures { result ≡ named name.now all_words }
{
    let word = match name {
        b"set" => Word::Set,
        b"cpy" => Word::Copy,
        b"add" => Word::Compute(Operation::Add),
        b"sub" => Word::Compute(Operation::Sub),
        b"mul" => Word::Compute(Operation::Mul),
        b"and" => Word::Compute(Operation::And),
        b"ior" => Word::Compute(Operation::Or),
        b"xor" => Word::Compute(Operation::Xor),
        b"shl" => Word::Compute(Operation::ShiftLeft),
        b"shr" => Word::Compute(Operation::ShiftRight),
        b"ltu" => Word::Compute(Operation::Less),
        b"equ" => Word::Compute(Operation::Equal),
        b"lod" => Word::Load,
        b"sto" => Word::Store,
        b"blt" => Word::Branch(Test::Less),
        b"beq" => Word::Branch(Test::Equal),
        b"jmp" => Word::Jump,
        b"fen" => Word::Fence,
        b"hlt" => Word::Halt,
        _ => return None,
    };
    Some(word)
}
