// The reader of a card's lines.
ghost use Rattle.std.specs.Prelude.{◌≤◌, length};

// A place in a card: what is left begins at `at`, and `line` lines were read before it. A place and not the rest of the text: by it the
// line number, at most the place, is known to stay in range.
#[derive(Drop)]
pub(crate) struct Reader<'a> {
    pub card: &'a [u8],
    pub at: usize,
    pub line: usize,
    ghost inside: { at ≤ length card.now },
    // a line takes one byte at least
    ghost counted: { line ≤ at },
}
