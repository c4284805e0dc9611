// Takes and judges the bench table's routines and some more, and prints what was taken and the verdict line.
#![tactic(auto)]

use cases::{Case, bench_labels};
use facts::types::Fact;
use judging::{MAX_FACTS, Verdict};
use labels::{Grade, Label, MakerSet};
use refusals::Refusal;
use report::verdict_line;
use routine::rows::{Operand, Operation, Row, Test};
use routine::{MAX_ROWS, MAX_WORDS, Source};
use std::alloc::{AllocError, Global};
use std::io::Write;

const NO_MAKER: MakerSet = MakerSet { members: 0 };

const MAKER_0: MakerSet = MakerSet { members: 1 };

const ALL_MAKERS: MakerSet = MakerSet { members: u16::MAX };

fn print_refusal(rt: &HostRuntime, refusal: Refusal) -> anyhow::Result<()> {
    println!(rt;
        "declined by {}, place {}",
        refusal.number(),
        refusal.place()
    )?;
    Ok(())
}

// Takes and judges one routine.
fn verdict_for<'a, L: Label>(
    source: &'a Source<'a, L>,
    reader: L,
    table: &mut [Fact<L>],
) -> Result<Verdict, Refusal> {
    let words = source.labels.len();
    routine::check(source, words)?;
    let taken = routine::take(source, words);
    judging::check(&taken, table)?;
    Ok(judging::judge(taken, reader, table).verdict())
}

// A work table with room for the facts of as many rows as there may be.
fn work_table<L: Label>(heap: Global) -> Result<Vec<Fact<L>>, AllocError> {
    let mut table = Vec::new(heap);
    table.resize_with(MAX_FACTS, || None)?;
    Ok(table)
}

// The memory that routines run on, by the labels of its words, and the runtime that prints what comes of them. The work table stands
// beside it: in a field, facts of any label are not known to fit in memory.
#[derive(Clone, Copy)]
struct Bench<'a, L> {
    rt: &'a HostRuntime,
    labels: &'a [L],
}

impl<'a, L: Label> Bench<'a, L> {
    // Takes and judges one routine, and prints what came of it.
    fn run(self, name: &str, rows: &[Row], reader: L, table: &mut [Fact<L>]) -> anyhow::Result<()> {
        let rt = self.rt;
        let labels = self.labels;
        print!(rt; "{name}: {} rows, {} words: ", rows.len(), labels.len())?;
        match verdict_for(&Source { rows, labels }, reader, table) {
            Ok(verdict) => rt.stdout().write_all(verdict_line(verdict).bytes())?,
            Err(refusal) => print_refusal(rt, refusal)?,
        }
        Ok(())
    }
}

fn bench_table(bench: Bench<'_, MakerSet>, table: &mut [Fact<MakerSet>]) -> anyhow::Result<()> {
    for (case, name) in [
        (Case::OpenCard, "P1, the open card"),
        (Case::Fenced, "P2, fenced"),
        (Case::Masked, "P3, masked by 15"),
        (Case::MaskedWide, "P4, masked by 31"),
        (Case::FencedPast, "P5, fenced, bound 17"),
        (Case::StoredInside, "P6, stored at 31"),
        (Case::StoredOutside, "P7, stored at 32"),
    ] {
        bench.run(name, cases::rows(case), NO_MAKER, table)?;
    }
    Ok(())
}

// A register that is cleared by itself still depends on what it held.
fn cleared(bench: Bench<'_, MakerSet>, table: &mut [Fact<MakerSet>]) -> anyhow::Result<()> {
    let rows = [
        Row::Load {
            to: 1,
            base: 16,
            index: 0,
        },
        Row::Compute {
            operation: Operation::Xor,
            to: 1,
            left: 1,
            right: Operand::Register(1),
        },
        Row::Load {
            to: 2,
            base: 0,
            index: 1,
        },
        Row::Halt,
    ];
    bench.run("cleared by xor", &rows, NO_MAKER, table)?;
    bench.run("cleared by xor, for maker 0", &rows, MAKER_0, table)
}

// The open card again, its sealed words graded 3: a reader below that grade learns of them, one of that grade may.
fn graded(rt: &HostRuntime) -> anyhow::Result<()> {
    let labels = bench_labels().map(|set| {
        if set.members == 0 {
            Grade::G0
        } else {
            Grade::G3
        }
    });
    let bench = Bench {
        rt,
        labels: &labels,
    };
    let mut table = work_table(rt.alloc())?;
    for (name, reader) in [
        ("grade 3 before a reader of grade 2", Grade::G2),
        ("grade 3 before a reader of grade 3", Grade::G3),
    ] {
        bench.run(name, cases::rows(Case::OpenCard), reader, &mut table)?;
    }
    if let Err(refusal) = Grade::try_from(16) {
        print!(rt; "a grade of 16: ")?;
        print_refusal(rt, refusal)?;
    }
    Ok(())
}

// One routine for each refusal, at its first place.
fn refused(bench: Bench<'_, MakerSet>, table: &mut [Fact<MakerSet>]) -> anyhow::Result<()> {
    bench.run("no rows", &[], NO_MAKER, table)?;
    let wordless = Bench {
        labels: &[],
        ..bench
    };
    wordless.run("no words", &[Row::Halt], NO_MAKER, table)?;
    bench.run(
        "a register above 15",
        &[Row::Fence, Row::Set { to: 16, value: 0 }, Row::Halt],
        NO_MAKER,
        table,
    )?;
    bench.run(
        "a base past the words",
        &[
            Row::Load {
                to: 0,
                base: 64,
                index: 0,
            },
            Row::Halt,
        ],
        NO_MAKER,
        table,
    )?;
    bench.run(
        "a jump past the rows",
        &[Row::Jump { target: 1 }],
        NO_MAKER,
        table,
    )?;
    bench.run("an open end", &[Row::Halt, Row::Fence], NO_MAKER, table)?;
    bench.run("a work table of no facts", &[Row::Halt], NO_MAKER, &mut [])
}

// As many rows as there may be, slow to settle: a register's width grows by one in each round of the loop, and the next
// register's begins to grow when it is full. All other rows load by these registers, from windows that grow to the whole
// memory. The loop ends in a branch, so that every row is reached in both modes.
fn slow_rows(heap: Global) -> Result<Vec<Row>, AllocError> {
    let mut rows = vec![in heap;
        Row::Compute {
            operation: Operation::Add,
            to: 1,
            left: 1,
            right: Operand::Constant(1),
        },
    ]?;
    // No `flat_map`: in a closure the range of `full` is not known, and the sums are not proved.
    for full in 0..6u8 {
        let from = 2 * full + 1;
        let bit = from + 1;
        let to = from + 2;
        rows.extend([
            Row::Compute {
                operation: Operation::ShiftRight,
                to: bit,
                left: from,
                right: Operand::Constant(u32::BITS - 1),
            },
            Row::Compute {
                operation: Operation::Mul,
                to,
                left: to,
                right: Operand::Register(bit),
            },
        ])?;
    }
    // Loads fill what room is left before the end.
    rows.extend((0..MAX_ROWS).map(|i| Row::Load {
        to: 14,
        base: 0,
        index: 2 * ((i % 7) as u8) + 1,
    }))?;
    let end = [
        Row::Branch {
            test: Test::Equal,
            left: 14,
            right: Operand::Register(15),
            target: 0,
        },
        Row::Halt,
    ];
    rows.truncate(MAX_ROWS - end.len());
    rows.extend(end)?;
    Ok(rows)
}

// A memory of as many words as there may be, each of one maker.
fn slow_labels(heap: Global) -> Result<Vec<MakerSet>, AllocError> {
    (0..MAX_WORDS)
        .map(|i| MakerSet {
            members: 1 << (i % 16),
        })
        .collect(heap)
}

fn slow(rt: &HostRuntime, table: &mut [Fact<MakerSet>]) -> anyhow::Result<()> {
    let rows = slow_rows(rt.alloc())?;
    let labels = slow_labels(rt.alloc())?;
    let bench = Bench {
        rt,
        labels: &labels,
    };
    bench.run("slow to settle", &rows, NO_MAKER, table)?;
    bench.run("slow to settle, for all makers", &rows, ALL_MAKERS, table)
}

fn main(rt: HostRuntime) -> anyhow::Result<()> {
    let labels = bench_labels();
    let bench = Bench {
        rt: &rt,
        labels: &labels,
    };
    let mut table = work_table(rt.alloc())?;
    bench_table(bench, &mut table)?;
    cleared(bench, &mut table)?;
    graded(&rt)?;
    refused(bench, &mut table)?;
    slow(&rt, &mut table)
}
