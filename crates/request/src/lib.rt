// The words of a request line, and its rows of 24 words. A place is an index into the line. An argument is one
// space and a word: its reader starts at the space, and answers the value with the place after the word. A row is
// 24 arguments. No call has a `requires`.
#![tactic(auto)]

ghost use Rattle.std.specs.Prelude.{◌≡◌, List, ℕ, Option, length, drop};
ghost use Rattle.request.specs.Words.{digit_in, more_of, counted_of, number_from, number_after, signed_of};
ghost use Rattle.request.specs.Words.{after_name, last_of, hex_after, decimal_after, double_after, signed_after};
ghost use Rattle.request.specs.Rows.{row_after, samples_after, point_after};

use text::{byte_at, digit_of, double_of, starts};

// A value and the place after it; or none, where no such value stands there.
pub type Read<T> = Option<(T, usize)>;

// The place after the line's first word where that is `name`.
#[tactic(auto, using(std::proofs::Common::ne_eqb), unfolding(crate::specs::Words::after_name))]
pub fn after_name(s: &[u8], name: &[u8]) -> Option<usize>
    ensures { result ≡ after_name s.now name.now }
{
    if !starts(s, name) {
        return None;
    }
    let n = name.len();
    if n < s.len() && s[n] != b' ' {
        return None;
    }
    Some(n)
}

// What was read last, behind which the line ends; or none.
#[tactic(auto, using(std::proofs::Common::ne_eqb))]
pub fn last<T: Drop>(s: &[u8], read: Read<T>) -> Option<T>
    ensures { result ≡ last_of s.now read }
{
    let (value, next) = read?;
    (next == s.len()).then_some(value)
}

// ---- digits of either base

// A digit below the base, of either case.
#[tactic(auto, using(crate::proofs::Steps::lower_digit), unfolding(crate::specs::Words::digit_in))]
fn digit(b: u8, base: u64) -> Option<u64>
    ensures { result ≡ digit_in base b }
{
    let d = digit_of(b.to_ascii_lowercase())?;
    (d < base).then_some(d)
}

// v with one digit more, where that fits.
#[tactic(auto, using(crate::proofs::Steps::tested, crate::proofs::Steps::too_large), unfolding(crate::specs::Words::more_of))]
fn more(v: u64, b: u8, base: u64) -> Option<u64>
    ensures { result ≡ more_of base v b }
{
    let d = digit(b, base)?;
    v.checked_mul(base)?.checked_add(d)
}

// The number v of j digits, of which there are 1 to `most`; `end` is the place after them.
#[tactic(auto, using(std::proofs::Common::ne_eqb), unfolding(crate::specs::Words::counted_of))]
fn counted(v: u64, j: usize, end: usize, most: usize) -> Read<u64>
    ensures { result ≡ counted_of most end v j }
{
    if j == 0 || most < j {
        return None;
    }
    Some((v, end))
}

// The number of the 1 to `most` digits from `first` to the next space or the line's end.
fn number_from(s: &[u8], first: usize, base: u64, most: usize) -> Read<u64>
    ensures { result ≡ number_from base most first 0 0 (drop first s.now) }
{
    let mut v: u64 = 0;
    for i in first..s.len() {
        if s[i] == b' ' {
            return counted(v, i - first, i, most);
        }
        v = more(v, s[i], base)?;
    }
    counted(v, s.len().saturating_sub(first), s.len(), most)
}

// ---- arguments

// 1 to `most` digits.
fn number_after(s: &[u8], at: usize, base: u64, most: usize) -> Read<u64>
    ensures { result ≡ number_after base most s.now at }
{
    if byte_at(s, at) != b' ' {
        return None;
    }
    number_from(s, at + 1, base, most)
}

// 1 to 16 hex digits, of either case.
#[tactic(auto, unfolding(crate::specs::Words::hex_after))]
pub fn read_hex(s: &[u8], at: usize) -> Read<u64>
    ensures { result ≡ hex_after s.now at }
{
    number_after(s, at, 16, 16)
}

// One or more decimal digits, of a number below 2^64.
#[tactic(auto, unfolding(crate::specs::Words::decimal_after))]
pub fn read_decimal(s: &[u8], at: usize) -> Read<u64>
    ensures { result ≡ decimal_after s.now at }
{
    number_after(s, at, 10, s.len())
}

// The 1 to 16 hex digits of a double's bits.
#[tactic(auto, unfolding(crate::specs::Words::double_after))]
pub fn read_double(s: &[u8], at: usize) -> Read<f64>
    ensures { result ≡ double_after s.now at }
{
    let (bits, next) = read_hex(s, at)?;
    Some((double_of(bits), next))
}

// The number of this magnitude, below zero or not, where it fits 32 bits.
#[tactic(auto, unfolding(crate::specs::Words::signed_of))]
fn with_sign(magnitude: u64, below: bool) -> Option<i32>
    ensures { result ≡ signed_of below magnitude }
{
    let z = i64::try_from(magnitude).ok()?;
    let z = if below { -z } else { z };
    i32::try_from(z).ok()
}

// One or more decimal digits, - before them or not.
pub fn read_signed(s: &[u8], at: usize) -> Read<i32>
    ensures { result ≡ signed_after s.now at }
{
    if byte_at(s, at) != b' ' {
        return None;
    }
    let below = byte_at(s, at + 1) == b'-';
    let first = if below { at + 2 } else { at + 1 };
    let (magnitude, next) = number_from(s, first, 10, s.len())?;
    Some((with_sign(magnitude, below)?, next))
}

// ---- rows

// What a word of a row stands for.
trait Word: Copy {
    ghost after: { List ℕ → ℕ → Option (Self × ℕ) };

    // What an array holds before it is read.
    const NONE: Self;

    fn read(s: &[u8], at: usize) -> Read<Self>
        ensures { result ≡ after s.now at };
}

impl Word for f64 {
    ghost after = { double_after };

    const NONE: f64 = 0.0;

    fn read(s: &[u8], at: usize) -> Read<f64> {
        read_double(s, at)
    }
}

impl Word for i32 {
    ghost after = { signed_after };

    const NONE: i32 = 0;

    fn read(s: &[u8], at: usize) -> Read<i32> {
        read_signed(s, at)
    }
}

// 24 words.
fn read_row<T: Word>(s: &[u8], at: usize) -> Read<[T; 24]>
    ensures { result ≡ row_after T.after s.now at }
{
    let mut row = [T::NONE; 24];
    let mut next = at;
    for k in 0..24usize {
        let (v, after) = T::read(s, next)?;
        row[k] = v;
        next = after;
    }
    Some((row, next))
}

// 24 doubles.
pub fn read_samples(s: &[u8], at: usize) -> Read<[f64; 24]>
    ensures { result ≡ samples_after s.now at }
{
    read_row::<f64>(s, at)
}

// 24 numbers with their signs.
pub fn read_point(s: &[u8], at: usize) -> Read<[i32; 24]>
    ensures { result ≡ point_after s.now at }
{
    read_row::<i32>(s, at)
}
