// The line of a refusal.
ghost use Rattle.std.specs.Prelude.{◌≡◌};
ghost use Rattle.report.specs.Parts.{line_bytes};
ghost use Rattle.report.specs.Lines.{declined_line};

use crate::line::Line;
use itoa::Buffer;
use refusals::CardRefusal;

pub fn declined_line(refusal: CardRefusal) -> Line
    ensures { line_bytes result ≡ declined_line refusal }
{
    let told = refusal.told();
    Line::of(&[
        "declined,",
        Buffer::new().format(told.number),
        ",",
        Buffer::new().format(told.line),
        ",",
        Buffer::new().format(told.field),
        "\n",
    ])
}
