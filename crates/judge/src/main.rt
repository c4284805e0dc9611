// Reads a routine card on standard input and writes the line that answers it: its verdict, or why it is declined.
#![tactic(auto)]

use answers::answer;
use cards::MAX_CARD;
use std::io::{Read, Write};

// One byte more than a card may have: what is longer is declined for its length, and need not be read to its end.
const ENOUGH: u64 = MAX_CARD as u64 + 1;

fn main(rt: HostRuntime) -> anyhow::Result<()> {
    let mut card = Vec::new(rt.alloc());
    rt.stdin().take(ENOUGH).read_to_end(&mut card)?;
    rt.stdout().write_all(answer(&card).bytes())?;
    Ok(())
}
