// Standard input, read whole into a lent buffer. What a read of it answers is the host's to say, so no contract can say what is read there.
// The reader may be any other, and of one whose bytes are known the contract says which of them were read.
#![tactic(auto)]

ghost use Rattle.std.specs.Prelude.{◌≡◌, ◌<◌, ◌≤◌, length, take, IsOk};
ghost use Rattle.std.specs.Io.KnownBytes.{Consumes, IsAtEnd};
ghost use Rattle.input.specs.Input.{count_of};

use std::io;
use std::io::Read;

// A read that failed, and how many bytes were read before it.
#[derive(Clone, Copy)]
pub struct Cut {
    pub count: usize,
    pub error: io::Error,
}

impl From<Cut> for io::Error {
    ghost from_gives = { λ cut error. error ≡ cut.error };

    fn from(cut: Cut) -> io::Error {
        cut.error
    }
}

// Reads until text is full or the input ends, or until a read fails, and answers how many bytes were read. `read_exact` would take an input
// that ends before text is full for one that fails, and it does not say how many bytes it read.
pub fn read_all<R: Read>(from: &mut R, text: &mut [u8]) -> Result<usize, Cut>
    ensures within { count_of result ≤ length text.new }
    ensures prefix { count_of result ≡ length (take (count_of result) text.new) }
    ensures bytes { Consumes (R.remaining from.old) (R.remaining from.new) (take (count_of result) text.new) }
    ensures end { IsOk result → count_of result < length text.new → IsAtEnd (R.remaining from.new) }
{
    let mut count = 0;
    while count < text.len() {
        match from.read(&mut text[count..]) {
            Ok(0) => break,
            Ok(more) => count += more,
            Err(error) => return Err(Cut { count, error }),
        }
    }
    Ok(count)
}
