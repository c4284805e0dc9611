// A line of text, kept in place: whoever makes one allocates nothing.
ghost use Rattle.std.specs.Prelude.{◌≡◌, ◌≤◌, length};
ghost use Rattle.std.specs.List.{flat_map};

use arrayvec::ArrayString;

// The first `length` of the bytes are the text. Bytes and no `ArrayString`: what holds one is not copied when it is passed by value,
// and how long a line is at most would be out of its callers' sight.
#[derive(Clone, Copy)]
pub struct Line {
    bytes: [u8; 64],
    length: usize,
    ghost fits: { length ≤ 64 },
}

impl Line {
    ghost use Rattle.report.specs.Parts.{line_bytes};

    // The line of these parts, one after the other. A caller shows that they fit.
    // Parts, since no proof closes with `write!`: its contract speaks of `Ok` alone, and never promises it.
    pub(crate) fn of(parts: &[&str]) -> Line
        requires { length (flat_map (λ part. part.now) parts.now) ≤ 64 }
        ensures { line_bytes result ≡ flat_map (λ part. part.now) parts.now }
    {
        let mut text = ArrayString::<64>::new();
        for part in parts {
            text.push_str(part);
        }
        let length = text.len();
        let mut bytes = [0; 64];
        bytes[..length].copy_from_slice(text.as_bytes());
        Line { bytes, length }
    }

    // The text of the line, at most 64 bytes.
    pub fn bytes(&self) -> &[u8]
        ensures text { result.now ≡ line_bytes self.now }
        ensures short { length result.now ≤ 64 }
    {
        &self.bytes[..self.length]
    }
}
