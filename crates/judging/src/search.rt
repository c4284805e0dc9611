// The search for leaks under a table, and the verdict that it gives.
ghost use Rattle.std.specs.Prelude.{◌≡◌, ◌*◌, length};
ghost use Rattle.routine.specs.Parts.{rows_of, labels_of};
ghost use Rattle.judging.specs.Steps.{leak_of, first_from, verdict_from};

use crate::least::mode_of;
use crate::verdict::{Leak, Verdict};
use facts::leaks::leak_of;
use facts::types::{Fact, Mode, Reason, Sought};
use labels::Label;
use routine::Taken;
use routine::rows::Row;

// The first reason of those sought for which a row with a fact leaks; an unreached row leaks nothing. Labels, reader and what is sought
// come from three hands, and go apart.
fn leak_at<L: Label>(
    row: Row,
    mode: Mode,
    fact: &Fact<L>,
    labels: &[L],
    reader: L,
    sought: Sought,
) -> Option<Reason>
    ensures { result ≡ leak_of L.Label.kind labels.now reader row mode sought fact.now }
{
    leak_of(row, mode, fact.as_ref()?, labels, reader, sought)
}

// The first leak of those sought: by row, then settled before guessed, then by reason.
fn first_leak<L: Label>(
    routine: &Taken<L>,
    reader: L,
    table: &[Fact<L>],
    sought: Sought,
) -> Option<Leak>
    requires { length table.now ≡ 2 * length (rows_of routine.now) }
    ensures { result ≡ first_from L.Label.kind (labels_of routine.now) reader (rows_of routine.now) table.now sought 0 (length table.now) }
{
    let rows = routine.rows();
    let labels = routine.labels();
    for (place, fact) in table.iter().enumerate() {
        let row = place / 2;
        let mode = mode_of(place);
        if let Some(reason) = leak_at(rows[row], mode, fact, labels, reader, sought) {
            return Some(Leak { row, mode, reason });
        }
    }
    None
}

// The verdict under the least closed table. That it has two facts a row stands in each contract: of a value of both it would not be
// known that facts of any label fit in memory.
pub(crate) fn verdict_under<L: Label>(routine: &Taken<L>, reader: L, table: &[Fact<L>]) -> Verdict
    requires { length table.now ≡ 2 * length (rows_of routine.now) }
    ensures { result ≡ verdict_from (first_from L.Label.kind (labels_of routine.now) reader (rows_of routine.now) table.now Sought.AnyLeak 0 (length table.now)) (first_from L.Label.kind (labels_of routine.now) reader (rows_of routine.now) table.now Sought.SpillOrGuessed 0 (length table.now)) }
{
    let Some(leak) = first_leak(routine, reader, table, Sought::AnyLeak) else {
        return Verdict::C;
    };
    first_leak(routine, reader, table, Sought::SpillOrGuessed).map_or(Verdict::G(leak), Verdict::L)
}
