// What a machine shows of a step.

// What kind of step it was.
#[derive(Clone, Copy)]
pub enum Letter {
    // S: the settler had the top level dropped
    Settle,
    // F: all levels above 0 were dropped
    Flush,
    // R: a word was read
    Read,
    // T: a word was stored
    Store,
    // B: a branch followed its outcome
    Branch,
    // W: a branch followed a wrong guess
    Wrong,
    // J: a jump
    Jump,
    // H: the machine halted
    Halt,
    // O: anything else
    Other,
}

// The step's letter, the row at which it was decided, the level after it, and a number: the address of R and T, the row
// followed of B, W and J, else 0. Each event has a row, a level and a number, so the letter holds none of them.
#[derive(Clone, Copy)]
pub struct Event {
    pub letter: Letter,
    pub row: u32,
    pub level: u8,
    pub number: u32,
}
