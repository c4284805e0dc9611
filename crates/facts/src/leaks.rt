// What leaks at a row.
ghost use Rattle.std.specs.Prelude.{◌≡◌};
ghost use Rattle.facts.specs.Leaks.{counts, hidden, hidden_operand, spills_from, sought_leak, first_reason};

use crate::registers::known_at;
use crate::rules::window_of;
use crate::types::{Mode, Reason, Registers, Sought};
use labels::Label;
use routine::addressing::Window;
use routine::rows::{Operand, Row};

impl Sought {
    // Whether the search is for leaks of this mode and reason.
    fn includes(self, mode: Mode, reason: Reason) -> bool
        ensures { result ≡ counts self mode reason }
    {
        !matches!(
            (self, mode, reason),
            (
                Sought::SpillOrGuessed,
                Mode::Settled,
                Reason::Address | Reason::Branch
            )
        )
    }
}

// Whether the reader may not read what the register depends on.
fn is_hidden<L: Label>(known: &Registers<L>, register: u8, reader: L) -> bool
    ensures { result ≡ hidden L.Label.kind reader known.now register }
{
    !known_at(known, register).label.at_or_below(reader)
}

fn is_operand_hidden<L: Label>(known: &Registers<L>, operand: Operand, reader: L) -> bool
    ensures { result ≡ hidden_operand L.Label.kind reader known.now operand }
{
    match operand {
        Operand::Register(register) => is_hidden(known, register, reader),
        Operand::Constant(_) => false,
    }
}

// Whether some word that the store can reach has a label that the stored value's label is not at or below.
fn does_spill<L: Label>(labels: &[L], window: Window, label: L) -> bool
    ensures { result ≡ spills_from L.Label.kind window.words window.base window.width 0 label labels.now }
{
    labels
        .iter()
        .enumerate()
        .any(|(i, word)| window.reaches(i) && !label.at_or_below(*word))
}

// The first reason, of those sought, for which a row leaks under what is known there.
pub fn leak_of<L: Label>(
    row: Row,
    mode: Mode,
    known: &Registers<L>,
    labels: &[L],
    reader: L,
    sought: Sought,
) -> Option<Reason>
    ensures { result ≡ first_reason (sought_leak L.Label.kind labels.now reader row mode known.now sought) }
{
    match row {
        Row::Load {
            to: _,
            base: _,
            index,
        } => {
            let shown = is_hidden(known, index, reader);
            (shown && sought.includes(mode, Reason::Address)).then_some(Reason::Address)
        }
        Row::Store { from, base, index } => {
            if is_hidden(known, index, reader) && sought.includes(mode, Reason::Address) {
                return Some(Reason::Address);
            }
            let window = window_of(labels, base, known_at(known, index));
            let spilt = does_spill(labels, window, known_at(known, from).label);
            (spilt && sought.includes(mode, Reason::Spill)).then_some(Reason::Spill)
        }
        Row::Branch {
            test: _,
            left,
            right,
            target: _,
        } => {
            let shown = is_hidden(known, left, reader) || is_operand_hidden(known, right, reader);
            (shown && sought.includes(mode, Reason::Branch)).then_some(Reason::Branch)
        }
        _ => None,
    }
}
