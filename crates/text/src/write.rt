// Each of these writes a text from `at` on where the buffer is known to have room for it, and answers the
// place behind it. The calls for other crates, in piece.rt, are built of them.
ghost use Rattle.std.specs.Prelude.{◌≡◌, ◌+◌, ◌<◌, ◌≤◌, length};
ghost use Rattle.std.proofs.lemmas.List.Edits.{sets};
ghost use Rattle.text.specs.Text.{decimal, hex_digit, hex, signed as Text·signed, listed};

use crate::number::magnitude;

#[tactic(auto, using(crate::proofs::Copied::in_place))]
pub(crate) fn copy(out: &mut [u8], at: usize, text: &[u8]) -> usize
    requires { at + length text.now ≤ length out.old }
    ensures { (result ≡ at + length text.now) ×
        (out.new ≡ sets out.old at text.now) }
{
    let end = at + text.len();
    out[at..end].copy_from_slice(text);
    end
}

pub(crate) fn digits(out: &mut [u8], at: usize, n: u64) -> usize
    requires { at + length (decimal n) ≤ length out.old }
    ensures { (result ≡ at + length (decimal n)) ×
        (out.new ≡ sets out.old at (decimal n)) }
{
    if n < 10 {
        out[at] = b'0' + (n as u8);
        return at + 1;
    }
    let next = digits(out, at, n / 10);
    out[next] = b'0' + ((n % 10) as u8);
    next + 1
}

pub(crate) fn signed(out: &mut [u8], at: usize, z: i32) -> usize
    requires { at + 11 ≤ length out.old }
    ensures { (result ≡ at + length (Text·signed z)) × (result ≤ at + 11) ×
        (out.new ≡ sets out.old at (Text·signed z)) }
{
    let m = magnitude(z);
    if z < 0 {
        out[at] = b'-';
        return digits(out, at + 1, m);
    }
    digits(out, at, m)
}

// The byte of a digit.
fn hex_digit(d: u64) -> u8
    requires { d < 16 }
    ensures { result ≡ hex_digit d }
{
    if d < 10 {
        return b'0' + (d as u8);
    }
    87 + (d as u8)
}

// The last k digits of n, from the last one to the first.
pub(crate) fn hex_digits(out: &mut [u8], at: usize, n: u64, k: usize) -> usize
    requires { at + k ≤ length out.old }
    ensures { (result ≡ at + k) × (out.new ≡ sets out.old at (hex k n)) }
{
    let mut v = n;
    for j in 0..k {
        out[at + (k - 1 - j)] = hex_digit(v % 16);
        v = v / 16;
    }
    at + k
}

// 24 numbers with commas between them.
pub(crate) fn list(out: &mut [u8], at: usize, counts: [i32; 24]) -> usize
    requires { at + 288 ≤ length out.old }
    ensures { (result ≡ at + length (listed counts)) × (result ≤ at + 288) ×
        (out.new ≡ sets out.old at (listed counts)) }
{
    let mut next = signed(out, at, counts[0]);
    for j in 1..24usize {
        let comma = copy(out, next, b",");
        next = signed(out, comma, counts[j]);
    }
    next
}
