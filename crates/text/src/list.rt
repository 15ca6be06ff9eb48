// Reading at the start of a text: a number with its sign, and a line of a key and 24 such numbers with commas
// between them, as `put_list` writes them.
ghost use Rattle.std.specs.Prelude.{◌≡◌, [], ◌-◌, ◌^◌, ◌≤◌, pos, neg_ℤ, length, drop};
ghost use Rattle.text.specs.Rows.{below_at, signed_at, end_before, numbers_from, list_line_at};

use crate::line::{Read, decimal, keyed, starts};

// The number below zero of a magnitude. It goes by an i64 since the magnitude of i32::MIN is no i32.
fn minus(v: u64) -> i32
    requires { v ≤ 2 ^ 31 }
    ensures { result ≡ neg_ℤ (pos v) }
{
    -(v as i64) as i32
}

// A number below zero: so -0 is none.
fn below_zero(s: &[u8], end: u8) -> Read<i32>
    ensures { result ≡ below_at end s.now }
{
    let (v, n) = keyed(s, b"-", end, 1, 2147483648)?;
    Some((minus(v), n))
}

// A number with its sign, and the byte `end` behind it.
fn signed_upto(s: &[u8], end: u8) -> Read<i32>
    ensures { result ≡ signed_at end s.now }
{
    let Some((v, n)) = decimal(s, end, 2147483647) else {
        return below_zero(s, end);
    };
    Some((v as i32, n))
}

// The byte behind the number at j: a comma, or LF behind the last.
fn end_of(j: usize) -> u8
    ensures { result ≡ end_before (23 - j) }
{
    if j < 23 {
        return b',';
    }
    b'\n'
}

// 24 numbers from `start` on, to the end of their line.
fn numbers(s: &[u8], start: usize) -> Read<[i32; 24]>
    requires { start ≤ length s.now }
    ensures { result ≡ numbers_from 24 [] start (drop start s.now) }
{
    let mut values = [0i32; 24];
    let mut at = start;
    for j in 0..24usize {
        let (z, n) = signed_upto(&s[at..], end_of(j))?;
        values[j] = z;
        at += n;
    }
    Some((values, at))
}

// A line of the key and 24 numbers.
pub fn list_line(s: &[u8], key: &[u8]) -> Read<[i32; 24]>
    ensures { result ≡ list_line_at key.now s.now }
{
    if !starts(s, key) {
        return None;
    }
    numbers(s, key.len())
}
