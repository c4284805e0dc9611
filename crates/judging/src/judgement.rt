// Judging a routine that was taken.
ghost use Rattle.std.specs.Prelude.{◌≡◌, ◌*◌, ◌<◌, ◌≤◌, length, MatchResult};
ghost use Rattle.routine.specs.Parts.{rows_of, labels_of};
ghost use Rattle.judging.specs.Verdicts.{Judges};

use crate::judged::Judged;
use crate::least::fill_least;
use crate::search::verdict_under;
use facts::types::Fact;
use labels::Label;
use refusals::Refusal;
use routine::{MAX_ROWS, Taken};

// As many facts as the work table of the longest routine holds.
pub const MAX_FACTS: usize = 2 * MAX_ROWS;

// Says whether the work table holds two facts a row. It moves nothing.
pub fn check<L>(taken: &Taken<L>, table: &[Fact<L>]) -> Result<(), Refusal>
    ensures { MatchResult result (λ _. 2 * length (rows_of taken.now) ≤ length table.now) (λ e. (e ≡ Refusal.WorkTable) × (length table.now < 2 * length (rows_of taken.now))) }
{
    if table.len() / 2 < taken.rows().len() {
        return Err(Refusal::WorkTable);
    }
    Ok(())
}

// Judges a taken routine for a reader. A caller shows by an accepted `check` that the table is long enough.
pub fn judge<'a, L: Label>(taken: Taken<'a, L>, reader: L, table: &mut [Fact<L>]) -> Judged<'a, L>
    requires { 2 * length (rows_of taken) ≤ length table.old }
    ensures moved { result.taken ≡ taken.entry }
    ensures reads { result.reader ≡ reader }
    ensures judged { Judges L.Label.kind (labels_of taken.entry) (rows_of taken.entry) reader table.old table.new result.verdict }
{
    let work = &mut table[..2 * taken.rows().len()];
    fill_least(&taken, work);
    let verdict = verdict_under(&taken, reader, work);
    Judged {
        taken,
        reader,
        verdict,
    }
}
