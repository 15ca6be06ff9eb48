// Reading at the start of a text: keys, digits, numbers and lines. Each reader answers whether what it looks
// for stands there.
ghost use Rattle.std.specs.Prelude.{◌≡◌, ◌≤◌, get_or};
ghost use Rattle.text.specs.Lines.{begins, digit_at, hex_at, row_at, decimal_at, keyed_at, decimal_line_at};

// What a reader answers: the value that the text begins with, and how many bytes it takes; or none.
pub type Read<T> = Option<(T, usize)>;

// The byte at `at`; past the end 0, which is no byte of a line.
pub fn byte_at(s: &[u8], at: usize) -> u8
    ensures { result ≡ get_or s.now at 0 }
{
    s.get(at).copied().unwrap_or(0)
}

// Whether the text begins with the key.
#[tactic(auto, using(crate::proofs::Reading::begins_is))]
pub fn starts(s: &[u8], key: &[u8]) -> bool
    ensures { result ≡ begins s.now key.now }
{
    s.starts_with(key)
}

// What a lower-case hexadecimal digit stands for: a, which is 97, stands for 10.
#[tactic(auto, using(crate::specs::Laws::Lines::below_figures, crate::specs::Laws::Lines::figure, crate::specs::Laws::Lines::below_letters, crate::specs::Laws::Lines::letter, crate::specs::Laws::Lines::above_letters))]
pub fn digit_of(b: u8) -> Option<u64>
    ensures { result ≡ digit_at b }
{
    match b {
        b'0'..=b'9' => Some((b - b'0') as u64),
        b'a'..=b'f' => Some((b - 87) as u64),
        _ => None,
    }
}

// A row of k hexadecimal digits, which are few enough for 64 bits.
fn row(s: &[u8], k: usize) -> Option<u64>
    requires { k ≤ 16 }
    ensures { result ≡ hex_at k s.now }
{
    let mut v: u64 = 0;
    for j in 0..k {
        v = v * 16 + digit_of(byte_at(s, j))?;
    }
    Some(v)
}

// What a row of k hexadecimal digits stands for. A row of more than 16 is taken for none, since its number may
// not fit 64 bits.
pub fn hex(s: &[u8], k: usize) -> Option<u64>
    ensures { result ≡ row_at k s.now }
{
    if 16 < k {
        return None;
    }
    row(s, k)
}

// A decimal number of at most `most` and the byte `end` behind it. The bound is a u32, so that no number read
// on the way wraps.
pub(crate) fn decimal(s: &[u8], end: u8, most: u32) -> Read<u64>
    ensures { result ≡ decimal_at end most 0 0 s.now }
{
    let mut v: u64 = 0;
    for j in 0..s.len() {
        let b = s[j];
        if b == end {
            if j == 0 {
                return None;
            }
            return Some((v, j + 1));
        }
        if b < b'0' {
            return None;
        }
        if b'9' < b {
            return None;
        }
        let next = v * 10 + ((b - b'0') as u64);
        if (most as u64) < next {
            return None;
        }
        if (0 < j) & (v == 0) {
            return None;
        }
        v = next;
    }
    None
}

// The key and a decimal number from `least` to `most`, with the byte `end` behind it.
pub(crate) fn keyed(s: &[u8], key: &[u8], end: u8, least: u32, most: u32) -> Read<u64>
    ensures { result ≡ keyed_at end key.now least most s.now }
{
    if !starts(s, key) {
        return None;
    }
    let k = key.len();
    let (v, n) = decimal(&s[k..], end, most)?;
    if v < (least as u64) {
        return None;
    }
    Some((v, k + n))
}

// A line of the key and a decimal number from `least` to `most`.
pub fn decimal_line(s: &[u8], key: &[u8], least: u32, most: u32) -> Read<u64>
    ensures { result ≡ decimal_line_at key.now least most s.now }
{
    keyed(s, key, b'\n', least, most)
}
