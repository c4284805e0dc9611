// The least closed table. A slot is the place of a row's fact in a mode. It is stale while its fact has risen since it was last
// handed on; stale facts are handed on until there are none.
ghost use Rattle.std.specs.Prelude.{◌≡◌, ℕ, ◌*◌, ◌/◌, ◌<◌, ◌≤◌, ◌^◌, true, false, [], ◌∷◌, length, None, MatchOption, slice_index_or};
ghost use Rattle.routine.specs.Parts.{rows_of, labels_of};
ghost use Rattle.facts.specs.Rules.{hand, hands};
ghost use Rattle.facts.specs.Tables.{slot};
ghost use Rattle.judging.specs.Steps.{mode_at, beginning, Fitting, Received, Running, weight};
ghost use Rattle.judging.specs.Verdicts.{Least};

use crate::judgement::MAX_FACTS;
use facts::order::{copy_of, raised};
use facts::rules::{known_after, known_at_next, known_at_target};
use facts::types::{Fact, Known, Mode, REGISTERS, Registers};
use labels::Label;
use routine::Taken;
use routine::rows::Row;

// Where a row's fact in a mode stands: callers lend the table as one slice, two facts a row.
fn slot_of(row: usize, mode: Mode) -> usize
    requires { slot row mode < 2 ^ 64 }
    ensures { result ≡ slot row mode }
{
    match mode {
        Mode::Settled => 2 * row,
        Mode::Guessed => 2 * row + 1,
    }
}

pub(crate) fn mode_of(place: usize) -> Mode
    ensures { result ≡ mode_at place }
{
    if place % 2 == 0 {
        Mode::Settled
    } else {
        Mode::Guessed
    }
}

// A table that is being filled, and which of its slots are stale. Whatever changes it ensures, as `same`, that its table is still
// the one that was lent.
#[derive(Drop)]
struct Work<'t, L: Label> {
    table: &'t mut [Fact<L>],
    stale: [bool; MAX_FACTS],
    ghost few: { length table.now ≤ 512 },
    // there is a flag for each slot
    ghost flagged: { length table.now ≤ length stale },
}

impl<'t, L: Label> Work<'t, L> {
    // The table before anything is handed on: row 0's settled fact is stale.
    fn begin(table: &'t mut [Fact<L>]) -> Work<'t, L>
        requires some { 0 < length table.old }
        requires few { length table.old ≤ 512 }
        ensures same { result.table.ghost_name ≡ table.entry.ghost_name }
        ensures table { result.table.now ≡ beginning L.Label.kind (length table.old) }
        ensures first { slice_index_or result.stale 0 false ≡ true }
    {
        table.fill(None);
        table[0] = Some([Known::default(); REGISTERS]);
        let mut stale = [false; MAX_FACTS];
        stale[0] = true;
        Work { table, stale }
    }

    // The fact in a slot.
    fn fact(&self, at: usize) -> &Fact<L>
        requires { at < length self.now.table.now }
        ensures { result.now ≡ slice_index_or self.now.table.now at None }
    {
        // Taken whole first: an element is not lent through a `&` of what holds the `&mut`.
        let facts = &*self.table;
        &facts[at]
    }

    // Raises the fact that something is handed to, where it has to rise, and marks it stale.
    fn receive(&mut self, row: usize, mode: Mode, handed: &Registers<L>)
        requires { slot row mode < length self.old.table.now }
        ensures same { self.new.table.ghost_name ≡ self.old.table.ghost_name }
        ensures received { Received L.Label.kind (hand row mode handed.now ∷ []) self.old.table.now self.new.table.now self.old.stale self.new.stale }
    {
        let at = slot_of(row, mode);
        if let Some(risen) = raised(self.fact(at), handed) {
            self.table[at] = Some(risen);
            self.stale[at] = true;
        }
    }

    // A branch hands its fact as it is to both sides in guessed mode, for a guess may go either way.
    fn hand_guessed(&mut self, target: usize, next: usize, handed: &Registers<L>)
        requires target { slot target Mode.Guessed < length self.old.table.now }
        requires next { slot next Mode.Guessed < length self.old.table.now }
        ensures same { self.new.table.ghost_name ≡ self.old.table.ghost_name }
        ensures received { Received L.Label.kind (hand target Mode.Guessed handed.now ∷ hand next Mode.Guessed handed.now ∷ []) self.old.table.now self.new.table.now self.old.stale self.new.stale }
    {
        self.receive(target, Mode::Guessed, handed);
        self.receive(next, Mode::Guessed, handed);
    }

    // All that a row hands on, from what is known at it.
    fn hand_on(&mut self, row: Row, here: usize, mode: Mode, known: &Registers<L>, labels: &[L])
        requires inside { Fitting (length self.old.table.now) (hands L.Label.kind labels.now row here mode known.now) }
        requires early { here < 256 }
        ensures same { self.new.table.ghost_name ≡ self.old.table.ghost_name }
        ensures received { Received L.Label.kind (hands L.Label.kind labels.now row here mode known.now) self.old.table.now self.new.table.now self.old.stale self.new.stale }
    {
        let next = here + 1;
        match row {
            Row::Branch {
                test,
                left,
                right,
                target,
            } => {
                let target = target as usize;
                let told = known_at_target(test, left, right, known);
                let denied = known_at_next(test, left, right, known);
                self.hand_guessed(target, next, known);
                if let Mode::Settled = mode {
                    self.receive(target, Mode::Settled, &told);
                    self.receive(next, Mode::Settled, &denied);
                }
            }
            Row::Jump { target } => self.receive(target as usize, mode, known),
            Row::Fence => match mode {
                Mode::Settled => self.receive(next, mode, known),
                Mode::Guessed => {}
            },
            Row::Halt => {}
            plain => self.receive(next, mode, &known_after(plain, known, labels)),
        }
    }

    // Hands on what a stale slot's fact gives, after which the slot is no longer stale unless it handed on to itself.
    fn turn(&mut self, routine: &Taken<L>, place: usize, fact: &Fact<L>)
        requires running { Running L.Label.kind (labels_of routine.now) (rows_of routine.now) self.old.table.now self.old.stale }
        requires marked { slice_index_or self.old.stale place false ≡ true }
        requires inside { place < length self.old.table.now }
        requires read { fact.now ≡ slice_index_or self.old.table.now place None }
        ensures same { self.new.table.ghost_name ≡ self.old.table.ghost_name }
        ensures running { Running L.Label.kind (labels_of routine.now) (rows_of routine.now) self.new.table.now self.new.stale }
        ensures lighter { weight L.Label.kind self.new.table.now self.new.stale < weight L.Label.kind self.old.table.now self.old.stale }
    {
        self.stale[place] = false;
        if let Some(known) = fact {
            let here = place / 2;
            let row = routine.rows()[here];
            self.hand_on(row, here, mode_of(place), known, routine.labels());
        }
    }

    // The first stale slot at or after a place and before an end. Here and in the next one a `match` stands where `map` and `or_else`
    // would: after a closure the proof is not found.
    fn stale_between(&self, from: usize, to: usize) -> Option<usize>
        requires ordered { from ≤ to }
        requires inside { to ≤ length self.now.table.now }
        ensures { MatchOption result ((k : ℕ) → from ≤ k → k < to → slice_index_or self.now.stale k false ≡ false) (λ s. (s < to) × (slice_index_or self.now.stale s false ≡ true)) }
    {
        match self.stale[from..to].iter().position(|stale| *stale) {
            Some(at) => Some(from + at),
            None => None,
        }
    }

    // Some stale slot, the next one after a place before those up to it: going round spares many a turn.
    fn next_stale(&self, after: usize) -> Option<usize>
        ensures { MatchOption result ((k : ℕ) → k < length self.now.table.now → slice_index_or self.now.stale k false ≡ false) (λ s. (s < length self.now.table.now) × (slice_index_or self.now.stale s false ≡ true)) }
    {
        let end = self.table.len();
        let split = after.min(end);
        match self.stale_between(split, end) {
            Some(place) => Some(place),
            None => self.stale_between(0, split),
        }
    }
}

// Fills the table with the least closed one: takes turns until nothing is stale.
pub(crate) fn fill_least<L: Label>(routine: &Taken<L>, table: &mut [Fact<L>])
    requires { length table.old ≡ 2 * length (rows_of routine.now) }
    ensures { Least L.Label.kind (labels_of routine.now) (rows_of routine.now) table.new }
{
    let mut work = Work::begin(table);
    let mut place = 0;
    // No iterator: each turn changes what is stale.
    while let Some(next) = work.next_stale(place) {
        let fact = copy_of(work.fact(next));
        work.turn(routine, next, &fact);
        place = next;
    }
}
