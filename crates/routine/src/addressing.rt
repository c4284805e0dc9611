// Which word a base and an index name, and which words they can name.
ghost use Rattle.std.specs.Prelude.{◌≡◌};
ghost use Rattle.routine.specs.Address.{address, in_window};
ghost use Rattle.routine.specs.AddressLaws.{AddressLaws};

// The address of base and index in a memory of that many words. One that is no less than `words` is no word.
pub fn address_of(words: usize, base: u32, index: u32) -> u32
    ensures { result ≡ address words base index }
{
    base.wrapping_add(index)
}

// The words that a base and an index below 2 to the width can name, in a memory of that many words.
#[derive(Clone, Copy)]
pub struct Window {
    pub words: usize,
    pub base: u32,
    pub width: u8,
}

impl Window {
    // Whether the word is one of them.
    pub fn reaches(self, word: usize) -> bool
        ensures { result ≡ in_window self.words self.base self.width word }
    {
        let base = self.base as usize;
        self.width >= 32 || base <= word && word < base + (1 << self.width)
    }
}

// Stands for the laws that everything above knows of the two.
pub fn address_laws()
    ensures { AddressLaws }
{}
