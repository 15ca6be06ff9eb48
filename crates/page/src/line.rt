// The lines that only a page has. Each reader looks at the start of a text and answers whether its line
// stands there.
ghost use Rattle.std.specs.Prelude.{◌≡◌};
ghost use Rattle.page.specs.Reader.{format_at, word_line_at};

use text::{Read, byte_at, hex, starts};

// The first line, which has no value.
pub(crate) fn format_line(s: &[u8]) -> Read<u64>
    ensures { result ≡ format_at s.now }
{
    if starts(s, b"format=tetra-page\n") {
        return Some((0, 18));
    }
    None
}

// A word line.
pub(crate) fn word_line(s: &[u8]) -> Read<u64>
    ensures { result ≡ word_line_at s.now }
{
    if !starts(s, b"word=") {
        return None;
    }
    let w = hex(&s[5..], 12)?;
    if byte_at(s, 17) != b'\n' {
        return None;
    }
    Some((w, 18))
}
