// A routine that was taken: its source met the limits, and every call on it can rely on them.
ghost use Rattle.std.specs.Prelude.{◌≡◌, true, length};
ghost use Rattle.routine.specs.Limits.{within};

use crate::rows::Row;
use crate::source::Source;

// Borrows its source and adds the number of words, which is handed in and has to be that of the labels. It is no `Copy`: a routine is
// taken once and handed on.
#[derive(Drop)]
pub struct Taken<'a, L> {
    source: &'a Source<'a, L>,
    words: usize,
    ghost fits: { within source.now.rows.now words (length source.now.labels.now) ≡ true },
}

// Takes the source. A caller shows that it is within the limits by an accepted `check`.
pub fn take<'a, L>(source: &'a Source<'a, L>, words: usize) -> Taken<'a, L>
    requires { within source.now.rows.now words (length source.now.labels.now) ≡ true }
    ensures from { result.source.now ≡ source.now }
    ensures sized { result.words ≡ words }
{
    Taken { source, words }
}

impl<'a, L> Taken<'a, L> {
    pub fn rows(&self) -> &'a [Row]
        ensures { result.now ≡ self.now.source.now.rows.now }
    {
        self.source.rows
    }

    pub fn labels(&self) -> &'a [L]
        ensures { result.now ≡ self.now.source.now.labels.now }
    {
        self.source.labels
    }

    pub fn words(&self) -> usize
        ensures same { result ≡ self.now.words }
        ensures fits { within self.now.source.now.rows.now result (length self.now.source.now.labels.now) ≡ true }
    {
        self.words
    }
}
