// Tries every card of the lists beside it and says which are not answered as expected; then reads one card into tables of several
// lengths.
#![tactic(auto)]

use answers::answer;
use anyhow::Context;
use cards::read;
use routine::rows::Row;
use routine::{MAX_ROWS, MAX_WORDS};
use std::fs;

// Whether the card is answered by the line.
fn has_line(card: &[u8], line: &str) -> anyhow::Result<bool> {
    Ok(answer(card).bytes().strip_suffix(b"\n") == Some(line.as_bytes()))
}

// Whether the card is declined for the cause of that number, or for none where it is 0.
fn has_cause(card: &[u8], number: &str) -> anyhow::Result<bool> {
    let number: u8 = number.parse()?;
    let expected = (number != 0).then_some(number);
    let mut rows = [Row::Halt; MAX_ROWS];
    let mut labels = [0; MAX_WORDS];
    let Err(refusal) = read(card, &mut rows, &mut labels) else {
        return Ok(false);
    };
    Ok(refusal.told().cause.map(u8::from) == expected)
}

// Tries each line of a list: a path, a space and what is expected of that card.
fn try_list<F: Fn(&[u8], &str) -> anyhow::Result<bool>>(
    rt: &HostRuntime,
    list: &str,
    is_expected: F,
    what: &str,
) -> anyhow::Result<()>
    requires { F.IsAlwaysCallable is_expected }
{
    let entries = fs::read_to_string(rt, list)?;
    let mut met = 0usize;
    for entry in entries.lines() {
        let (path, expected) = entry.split_once(' ').context("an entry without a space")?;
        if is_expected(&fs::read(rt, path)?, expected)? {
            met = met.saturating_add(1);
        } else {
            println!(rt; "{path}: not answered by {expected}")?;
        }
    }
    println!(rt; "{} cards, {met} {what}", entries.lines().count())?;
    Ok(())
}

// Reads the card into tables of that length, filled with fences and sevens, and says what they hold at their ends then.
fn try_tables(
    rt: &HostRuntime,
    card: &[u8],
    row_room: usize,
    label_room: usize,
) -> anyhow::Result<()> {
    let heap = rt.alloc();
    let mut rows = vec![in heap; Row::Fence; row_room]?;
    let mut labels = vec![in heap; 7; label_room]?;
    print!(rt; "room for {row_room} rows and {label_room} labels: ")?;
    match read(card, &mut rows, &mut labels) {
        Ok(accepted) => print!(rt; "{} rows and {} labels read", accepted.rows, accepted.words)?,
        Err(refusal) => print!(rt; "declined by {}", refusal.told().number)?,
    }
    let first = matches!(rows.first(), Some(Row::Fence));
    let last = matches!(rows.last(), Some(Row::Fence));
    let first_label = labels.first().copied().unwrap_or(0);
    let last_label = labels.last().copied().unwrap_or(0);
    println!(rt;
        "; untouched: first row {first}, last row {last}; labels from {first_label} to {last_label}"
    )?;
    Ok(())
}

fn main(rt: HostRuntime) -> anyhow::Result<()> {
    try_list(&rt, "expected.txt", has_line, "answered as expected")?;
    try_list(
        &rt,
        "causes.txt",
        has_cause,
        "declined for the expected cause",
    )?;
    let card = fs::read(&rt, "samples/open.card")?;
    for (row_room, label_room) in [(6, 64), (7, 63), (7, 64), (8, 65)] {
        try_tables(&rt, &card, row_room, label_room)?;
    }
    Ok(())
}
