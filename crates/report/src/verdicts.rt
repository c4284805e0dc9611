// The line of a verdict.
ghost use Rattle.std.specs.Prelude.{◌≡◌, ◌≤◌, length};
ghost use Rattle.report.specs.Parts.{line_bytes};
ghost use Rattle.report.specs.Lines.{mode_word, reason_word, leak_line, verdict_line};

use crate::line::Line;
use facts::types::{Mode, Reason};
use itoa::Buffer;
use judging::{Leak, Verdict};

// Words for the parts of a line. `Display` would serve `write!`, whose success nothing promises, or a `String`, which asks the heap; a
// trait for both would be longer.
fn mode_word(mode: Mode) -> &'static str
    ensures { result.now ≡ mode_word mode }
{
    match mode {
        Mode::Settled => "settled",
        Mode::Guessed => "guessed",
    }
}

fn reason_word(reason: Reason) -> &'static str
    ensures { result.now ≡ reason_word reason }
{
    match reason {
        Reason::Address => "address",
        Reason::Branch => "branch",
        Reason::Spill => "spill",
    }
}

// The whole line of a leak, from how it starts.
fn leak_line(start: &'static str, leak: Leak) -> Line
    requires { length start.now ≤ 10 }
    ensures { line_bytes result ≡ leak_line start.now leak }
{
    Line::of(&[
        start,
        Buffer::new().format(leak.row),
        ",",
        mode_word(leak.mode),
        ",",
        reason_word(leak.reason),
        "\n",
    ])
}

pub fn verdict_line(verdict: Verdict) -> Line
    ensures { line_bytes result ≡ verdict_line verdict }
{
    match verdict {
        Verdict::C => Line::of(&["verdict,C,-,-,-\n"]),
        Verdict::G(leak) => leak_line("verdict,G,", leak),
        Verdict::L(leak) => leak_line("verdict,L,", leak),
    }
}
