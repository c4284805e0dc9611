// Whether a source is within the limits, and if not, which limit it does not meet and where.
ghost use Rattle.std.specs.Prelude.{◌≡◌, true, length, MatchOption, MatchResult};
ghost use Rattle.routine.specs.Limits.{row_count_fits, word_count_fits, is_register, operand_fits, is_shift, right_fits, fields_fit, target_fits, ends, every_field_fits, every_target_fits, within, FirstFailing, DeclinedBy};

use crate::rows::{Operand, Operation, Row};
use crate::source::Source;
use refusals::Refusal;

// As many rows as a routine may have, and as many words as a memory.
pub const MAX_ROWS: usize = 256;

pub const MAX_WORDS: usize = 4096;

// Registers are numbered from 0.
pub const LAST_REGISTER: u8 = 15;

// The largest constant that a register may be shifted by, in bits.
pub const LAST_SHIFT: u32 = 31;

// Says whether the source can be taken with that many words. The limits are tried in the order of the refusals' numbers.
pub fn check<L>(source: &Source<L>, words: usize) -> Result<(), Refusal>
    ensures { MatchResult result (λ _. within source.now.rows.now words (length source.now.labels.now) ≡ true) (DeclinedBy source.now.rows.now words (length source.now.labels.now)) }
{
    let rows = source.rows;
    if !fits_row_count(rows) {
        return Err(Refusal::RowCount);
    }
    if !fits_word_count(words, source.labels.len()) {
        return Err(Refusal::WordCount);
    }
    if let Some(row) = first_misfit(rows, words) {
        return Err(Refusal::RowField { row });
    }
    if let Some(row) = first_astray(rows) {
        return Err(Refusal::Target { row });
    }
    let last = rows.len() - 1;
    if !is_end(rows[last]) {
        return Err(Refusal::Ending { row: last });
    }
    Ok(())
}

fn fits_row_count(rows: &[Row]) -> bool
    ensures { result ≡ row_count_fits rows.now }
{
    !rows.is_empty() && rows.len() <= MAX_ROWS
}

fn fits_word_count(words: usize, labels: usize) -> bool
    ensures { result ≡ word_count_fits words labels }
{
    0 < words && words <= MAX_WORDS && labels == words
}

// The first row with a field that does not fit.
fn first_misfit(rows: &[Row], words: usize) -> Option<usize>
    ensures { MatchOption result (every_field_fits rows.now words ≡ true) (FirstFailing (λ _ row. fields_fit words row) rows.now) }
{
    rows.iter().position(|row| !fits_fields(*row, words))
}

// The first row with a target that does not fit.
fn first_astray(rows: &[Row]) -> Option<usize>
    ensures { MatchOption result (every_target_fits rows.now ≡ true) (FirstFailing (target_fits (length rows.now)) rows.now) }
{
    rows.iter()
        .enumerate()
        .position(|(i, row)| !fits_target(*row, i, rows.len()))
}

fn fits_fields(row: Row, words: usize) -> bool
    ensures { result ≡ fields_fit words row }
{
    match row {
        Row::Set { to, value: _ } => names_register(to),
        Row::Copy { to, from } => names_register(to) && names_register(from),
        Row::Compute {
            operation,
            to,
            left,
            right,
        } => { names_register(to) && names_register(left) && fits_right(operation, right) }
        Row::Load {
            to: register,
            base,
            index,
        }
        | Row::Store {
            from: register,
            base,
            index,
        } => { names_register(register) && (base as usize) < words && names_register(index) }
        Row::Branch {
            test: _,
            left,
            right,
            target: _,
        } => names_register(left) && fits_operand(right),
        Row::Jump { target: _ } | Row::Fence | Row::Halt => true,
    }
}

fn fits_right(operation: Operation, right: Operand) -> bool
    ensures { result ≡ right_fits operation right }
{
    match right {
        Operand::Register(register) => names_register(register),
        Operand::Constant(by) => !shifts(operation) || by <= LAST_SHIFT,
    }
}

fn fits_operand(operand: Operand) -> bool
    ensures { result ≡ operand_fits operand }
{
    match operand {
        Operand::Register(register) => names_register(register),
        Operand::Constant(_) => true,
    }
}

fn names_register(register: u8) -> bool
    ensures { result ≡ is_register register }
{
    register <= LAST_REGISTER
}

fn shifts(operation: Operation) -> bool
    ensures { result ≡ is_shift operation }
{
    matches!(operation, Operation::ShiftLeft | Operation::ShiftRight)
}

// A branch to its own next row is refused too: both of its ways lead there.
fn fits_target(row: Row, i: usize, rows: usize) -> bool
    ensures { result ≡ target_fits rows i row }
{
    match row {
        Row::Branch {
            test: _,
            left: _,
            right: _,
            target,
        } => {
            let target = target as usize;
            target < rows && i.checked_add(1) != Some(target)
        }
        Row::Jump { target } => (target as usize) < rows,
        _ => true,
    }
}

fn is_end(row: Row) -> bool
    ensures { result ≡ ends row }
{
    matches!(row, Row::Jump { target: _ } | Row::Halt)
}
