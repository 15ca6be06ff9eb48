// Words in counts: coordinate times num divided by 256, halves to even.
ghost use Rattle.std.specs.Prelude.{◌≡◌, ◌+◌, ◌*◌, ◌^◌, ◌<◌, ◌≤◌, length, take, nat_abs};
ghost use Rattle.std.proofs.lemmas.List.Edits.{sets};
ghost use Rattle.page.specs.Counts.{nearest as Counts·nearest, count_by, block_counts, page_counts};

use crate::Page;
use text::magnitude;

// A fraction as the nearest whole number, a half to the even one. Twice the rest is compared with the
// divisor, since half of an odd divisor is no whole number.
fn nearest(n: u64, d: u64) -> u64
    requires { (n < 2 ^ 32) × (0 < d) × (d < 2 ^ 32) }
    ensures { (result ≡ Counts·nearest n d) × (result ≤ n + 1) }
{
    let q = n / d;
    let twice = n % d * 2;
    if twice < d {
        return q;
    }
    if d < twice {
        return q + 1;
    }
    q + q % 2
}

// A coordinate in counts, coordinate times a divided by d: its magnitude is rounded, and its sign put back.
fn count_by(y: i32, a: u32, d: u32) -> i32
    requires { (nat_abs y ≤ 10) × (a < 2 ^ 24) × (0 < d) }
    ensures { result ≡ count_by a d y }
{
    let n = nearest(magnitude(y) * (a as u64), d as u64) as i32;
    if y < 0 {
        return -n;
    }
    n
}

// The 24 counts of a word, written from `at` on.
fn put_block(out: &mut [i32], at: usize, word: u64, num: u32)
    requires { (at + 24 ≤ length out.old) × (num ≤ 65535) }
    ensures { out.new ≡ sets out.old at (block_counts num word) }
{
    for (j, y) in tetra::decode(word).iter().enumerate() {
        out[at + j] = count_by(*y, num, 256);
    }
}

// The counts of a page's words, written from the buffer's start on.
pub(crate) fn put_blocks(out: &mut [i32], page: &Page)
    requires { 24 * page.now.count ≤ length out.old }
    ensures { out.new ≡ sets out.old 0 (page_counts page.now.num (take page.now.count page.now.words)) }
{
    for (i, word) in page.words().iter().enumerate() {
        put_block(out, 24 * i, *word, page.num);
    }
}
