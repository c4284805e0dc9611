// A row by its word and its other fields.
ghost use Rattle.std.specs.Prelude.{◌≡◌};
ghost use Rattle.cards.specs.Rows.{three, right_limit, access_in, none_in, row_in};
ghost use Rattle.cards.specs.Text.{four_texts};

use crate::fields::{constant, operand, register, unused};
use crate::lines::Fields;
use crate::words::Word;
use refusals::Cause;
use routine::LAST_SHIFT;
use routine::rows::{Operation, Row};

// A wrong field of a row.
#[derive(Clone, Copy)]
pub(crate) struct Fault {
    pub field: usize,
    pub cause: Cause,
}

// What was read of fields 2, 3 and 4, or the first of them that is wrong.
fn all_three<A: Copy, B: Copy, C: Copy>(
    second: Result<A, Cause>,
    third: Result<B, Cause>,
    fourth: Result<C, Cause>,
) -> Result<(A, B, C), Fault>
    ensures { result ≡ three second third fourth }
{
    match (second, third, fourth) {
        (Err(cause), _, _) => Err(Fault { field: 2, cause }),
        (Ok(_), Err(cause), _) => Err(Fault { field: 3, cause }),
        (Ok(_), Ok(_), Err(cause)) => Err(Fault { field: 4, cause }),
        (Ok(a), Ok(b), Ok(c)) => Ok((a, b, c)),
    }
}

fn right_limit(operation: Operation) -> u32
    ensures { result ≡ right_limit operation }
{
    match operation {
        Operation::ShiftLeft | Operation::ShiftRight => LAST_SHIFT,
        _ => u32::MAX,
    }
}

// The row that a word and its fields write, with that many words of memory.
pub(crate) fn row_in(words: u32, word: Word, fields: &Fields) -> Result<Row, Fault>
    ensures { result ≡ row_in words word (four_texts fields.now) }
{
    match word {
        Word::Set => {
            let (to, value, ()) = all_three(
                register(fields.second),
                constant(fields.third, u32::MAX),
                unused(fields.fourth),
            )?;
            Ok(Row::Set { to, value })
        }
        Word::Copy => {
            let (to, from, ()) = all_three(
                register(fields.second),
                register(fields.third),
                unused(fields.fourth),
            )?;
            Ok(Row::Copy { to, from })
        }
        Word::Compute(operation) => {
            let (to, left, right) = all_three(
                register(fields.second),
                register(fields.third),
                operand(fields.fourth, right_limit(operation)),
            )?;
            Ok(Row::Compute {
                operation,
                to,
                left,
                right,
            })
        }
        Word::Load => {
            let (to, base, index) = access_in(words, fields)?;
            Ok(Row::Load { to, base, index })
        }
        Word::Store => {
            let (from, base, index) = access_in(words, fields)?;
            Ok(Row::Store { from, base, index })
        }
        Word::Branch(test) => {
            let (left, right, target) = all_three(
                register(fields.second),
                operand(fields.third, u32::MAX),
                constant(fields.fourth, u32::MAX),
            )?;
            Ok(Row::Branch {
                test,
                left,
                right,
                target,
            })
        }
        Word::Jump => {
            let (target, (), ()) = all_three(
                constant(fields.second, u32::MAX),
                unused(fields.third),
                unused(fields.fourth),
            )?;
            Ok(Row::Jump { target })
        }
        Word::Fence => {
            all_unused(fields)?;
            Ok(Row::Fence)
        }
        Word::Halt => {
            all_unused(fields)?;
            Ok(Row::Halt)
        }
    }
}

// The fields of a load or a store: a register, a base that is one of the words, and an index.
fn access_in(words: u32, fields: &Fields) -> Result<(u8, u32, u8), Fault>
    ensures { result ≡ access_in words (four_texts fields.now) }
{
    all_three(
        register(fields.second),
        constant(fields.third, words.saturating_sub(1)),
        register(fields.fourth),
    )
}

// The fields of a row that has none.
fn all_unused(fields: &Fields) -> Result<((), (), ()), Fault>
    ensures { result ≡ none_in (four_texts fields.now) }
{
    all_three(
        unused(fields.second),
        unused(fields.third),
        unused(fields.fourth),
    )
}
