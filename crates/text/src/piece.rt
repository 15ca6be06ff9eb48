// Pieces of text put into a lent buffer from `at` on. A piece is written whole, and the answer is the place
// behind it; or, where it does not fit, nothing is written and the answer is one past the buffer's length, a
// place at which no piece fits. So a caller puts piece behind piece and looks at the last place alone.
ghost use Rattle.std.specs.Prelude.{◌≡◌, ◌+◌, ◌≤◌, leb, length};
ghost use Rattle.text.specs.Text.{line, decimal, hex, signed as Text·signed, listed};
ghost use Rattle.text.specs.Placed.{placed, place_behind};

use crate::write::{copy, digits, hex_digits, list, signed};

// Whether n bytes from `at` on stand within `size`.
fn has_room(size: usize, at: usize, n: usize) -> bool
    ensures { result ≡ leb (at + n) size }
{
    at <= size && n <= size - at
}

// A text.
pub fn put(out: &mut [u8], at: usize, text: &[u8]) -> usize
    ensures value { result ≡ place_behind out.old at text.now }
    ensures out_after { out.new ≡ placed out.old at text.now }
{
    let size = out.len();
    if !has_room(size, at, text.len()) {
        return size + 1;
    }
    copy(out, at, text)
}

// A number in decimal.
pub fn put_decimal(out: &mut [u8], at: usize, n: u64) -> usize
    ensures value { result ≡ place_behind out.old at (decimal n) }
    ensures out_after { out.new ≡ placed out.old at (decimal n) }
{
    let mut piece = [0u8; 20];
    let k = digits(&mut piece, 0, n);
    put(out, at, &piece[..k])
}

// A number in decimal, with a minus sign below zero: at most 11 bytes.
pub fn put_signed(out: &mut [u8], at: usize, z: i32) -> usize
    ensures value { result ≡ place_behind out.old at (Text·signed z) }
    ensures out_after { (out.new ≡ placed out.old at (Text·signed z)) ×
        (length (Text·signed z) ≤ 11) }
{
    let mut piece = [0u8; 11];
    let k = signed(&mut piece, 0, z);
    put(out, at, &piece[..k])
}

// The last k hexadecimal digits of a number, lower case, with zeros in front where it has fewer.
pub fn put_hex(out: &mut [u8], at: usize, n: u64, k: usize) -> usize
    ensures value { result ≡ place_behind out.old at (hex k n) }
    ensures out_after { out.new ≡ placed out.old at (hex k n) }
{
    let size = out.len();
    if !has_room(size, at, k) {
        return size + 1;
    }
    hex_digits(out, at, n, k)
}

// A line: a key, a number in decimal, LF.
pub fn put_line(out: &mut [u8], at: usize, key: &[u8], n: u64) -> usize
    ensures value { result ≡ place_behind out.old at (line key.now (decimal n)) }
    ensures out_after { out.new ≡ placed out.old at (line key.now (decimal n)) }
{
    let mut value = [0u8; 21];
    let d = digits(&mut value, 0, n);
    let k = copy(&mut value, d, b"\n");
    let size = out.len();
    if !has_room(size, at, key.len() + k) {
        return size + 1;
    }
    let behind = copy(out, at, key);
    copy(out, behind, &value[..k])
}

// The 24 numbers of a block, signed, with commas between them: at most 288 bytes.
pub fn put_list(out: &mut [u8], at: usize, zs: [i32; 24]) -> usize
    ensures value { result ≡ place_behind out.old at (listed zs) }
    ensures out_after { (out.new ≡ placed out.old at (listed zs)) ×
        (length (listed zs) ≤ 288) }
{
    let mut piece = [0u8; 288];
    let k = list(&mut piece, 0, zs);
    put(out, at, &piece[..k])
}
