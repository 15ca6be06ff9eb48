// A text as a value: what a program is to print, in an array of its own. Each `put_` writes one more piece at the text's end, whole or
// not at all.
ghost use Rattle.std.specs.Prelude.{◌≡◌, ◌≤◌, [], leb, cond, length};
ghost use Rattle.text.specs.Text.{line, decimal, hex, signed as Text·signed, listed};
ghost use Rattle.text.specs.Doubles.{bits_shown};
ghost use Rattle.text.specs.Printed.{appended};

use crate::{double, piece};
use std::convert::AsSlice;
use std::marker::Model;

// A text of at most N bytes: how many there are, and the bytes, with zeros behind them. Contracts see the text alone.
#[derive(Clone, Copy)]
pub struct Printed<const N: usize> {
    length: usize,
    bytes: [u8; N],
}

impl<const N: usize> Model for Printed<N> {
    ghost use Rattle.std.specs.Prelude.{ℕ, List};

    ghost Value = { List ℕ };

    ghost use Rattle.text.specs.Held.{held, in_array, IsHeld};

    ghost view = { λ p. held p };

    ghost invariant = { λ p. IsHeld p };

    ghost inverse = { in_array N };
}

// How long the text is once a piece was put behind it: up to the place behind the piece, or as long as it was where the array has no
// room for the piece.
fn length_with(length: usize, behind: usize, size: usize) -> usize
    ensures { result ≡ cond (leb behind size) behind length }
{
    if behind <= size { behind } else { length }
}

impl<const N: usize> Printed<N> {
    // No text yet.
    pub fn new() -> Self
        ensures { result ≡ [] }
    {
        Printed {
            length: 0,
            bytes: [0; N],
        }
    }

    // No text again. What is cleared is the text and not the whole array: the bytes behind it are zeros.
    pub fn clear(&mut self)
        ensures { self.new ≡ [] }
    {
        self.bytes[..self.length].fill(0);
        self.length = 0;
    }

    pub fn as_slice(&self) -> &[u8]
        ensures value { result.now ≡ self.now }
        ensures fits { length result.now ≤ N }
    {
        &self.bytes[..self.length]
    }

    #[tactic(auto, using(crate::proofs::Held::more_held, crate::proofs::Held::more_text))]
    pub fn put(&mut self, text: &[u8])
        ensures { self.new ≡ appended N self.old text.now }
    {
        let behind = piece::put(&mut self.bytes, self.length, text);
        self.length = length_with(self.length, behind, N);
    }

    // A number in decimal.
    #[tactic(auto, using(crate::proofs::Held::more_held, crate::proofs::Held::more_text))]
    pub fn put_decimal(&mut self, n: u64)
        ensures { self.new ≡ appended N self.old (decimal n) }
    {
        let behind = piece::put_decimal(&mut self.bytes, self.length, n);
        self.length = length_with(self.length, behind, N);
    }

    // A number in decimal, with a minus sign below zero: at most 11 bytes.
    #[tactic(auto, using(crate::proofs::Held::more_held, crate::proofs::Held::more_text))]
    pub fn put_signed(&mut self, z: i32)
        ensures after { self.new ≡ appended N self.old (Text·signed z) }
        ensures most { length (Text·signed z) ≤ 11 }
    {
        let behind = piece::put_signed(&mut self.bytes, self.length, z);
        self.length = length_with(self.length, behind, N);
    }

    // The last k hexadecimal digits of a number, with zeros in front where it has fewer.
    #[tactic(auto, using(crate::proofs::Held::more_held, crate::proofs::Held::more_text))]
    pub fn put_hex(&mut self, n: u64, k: usize)
        ensures { self.new ≡ appended N self.old (hex k n) }
    {
        let behind = piece::put_hex(&mut self.bytes, self.length, n, k);
        self.length = length_with(self.length, behind, N);
    }

    // The 16 digits of a double's bits. A zero has its sign cleared, and a NaN is written as a zero.
    #[tactic(auto, using(crate::proofs::Held::more_held, crate::proofs::Held::more_text))]
    pub fn put_double(&mut self, x: f64)
        ensures { self.new ≡ appended N self.old (hex 16 (bits_shown x)) }
    {
        let behind = double::put_double(&mut self.bytes, self.length, x);
        self.length = length_with(self.length, behind, N);
    }

    // A line: a key, a number in decimal, LF.
    #[tactic(auto, using(crate::proofs::Held::more_held, crate::proofs::Held::more_text))]
    pub fn put_line(&mut self, key: &[u8], n: u64)
        ensures { self.new ≡ appended N self.old (line key.now (decimal n)) }
    {
        let behind = piece::put_line(&mut self.bytes, self.length, key, n);
        self.length = length_with(self.length, behind, N);
    }

    // The 24 numbers of a block, signed, with commas between them: at most 288 bytes.
    #[tactic(auto, using(crate::proofs::Held::more_held, crate::proofs::Held::more_text))]
    pub fn put_list(&mut self, zs: [i32; 24])
        ensures after { self.new ≡ appended N self.old (listed zs) }
        ensures most { length (listed zs) ≤ 288 }
    {
        let behind = piece::put_list(&mut self.bytes, self.length, zs);
        self.length = length_with(self.length, behind, N);
    }
}

impl<const N: usize> AsSlice<u8> for Printed<N> {
    ghost items = { λ text. text };

    fn as_slice(&self) -> &[u8] {
        self.as_slice()
    }
}
