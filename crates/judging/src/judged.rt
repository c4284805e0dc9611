// A routine that was judged.
ghost use Rattle.std.specs.Prelude.{◌≡◌};
ghost use Rattle.routine.specs.Parts.{rows_of, labels_of, words_of};

use crate::verdict::Verdict;
use routine::Taken;
use routine::rows::Row;

// The taken routine, moved in, with the reader that it was judged for and the verdict. It is no `Copy`: a routine is judged
// once. That its verdict is the rules' own is what `judge` ensures: kept in the type, it would ask a kind of label of whoever
// names one.
#[derive(Drop)]
pub struct Judged<'a, L> {
    pub(crate) taken: Taken<'a, L>,
    pub(crate) reader: L,
    pub(crate) verdict: Verdict,
}

impl<'a, L: Copy> Judged<'a, L> {
    pub fn rows(&self) -> &'a [Row]
        ensures { result.now ≡ rows_of self.now.taken }
    {
        self.taken.rows()
    }

    pub fn labels(&self) -> &'a [L]
        ensures { result.now ≡ labels_of self.now.taken }
    {
        self.taken.labels()
    }

    pub fn words(&self) -> usize
        ensures { result ≡ words_of self.now.taken }
    {
        self.taken.words()
    }

    pub fn reader(&self) -> L
        ensures { result ≡ self.now.reader }
    {
        self.reader
    }

    pub fn verdict(&self) -> Verdict
        ensures { result ≡ self.now.verdict }
    {
        self.verdict
    }
}
