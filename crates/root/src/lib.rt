// The correctly rounded root of a double, from its bits and integer squares.
#![tactic(auto)]

ghost use Rattle.std.specs.Prelude.{◌≡◌, ◌*◌, ◌^◌, ◌≤◌, ◌<◌};
ghost use Rattle.root.specs.Root.{NearestRoot, rooted_by, rooted};
ghost use Rattle.root.specs.Inner.{Above, Apart, Even, Raised, IsRoot, Step, Picked};

use refusal::Refusal;

// x is m * 2^k units.
#[derive(Clone, Copy)]
struct Parts {
    m: u64,
    k: u64,
}

// A whole root, and what is left.
#[derive(Clone, Copy)]
struct Digits {
    root: u64,
    rem: u64,
}

// The leading digit that a double's bits leave out.
const LEAD: u64 = 0x10_0000_0000_0000;

// x, above zero, by its bits: the exponent's field and the digits below the leading one.
fn taken_apart(x: f64) -> Parts
    requires { Above x }
    ensures { Apart x result.m result.k }
{
    let b = f64::to_bits(x);
    let e = b / LEAD;
    let t = b % LEAD;
    if e == 0 {
        Parts { m: t, k: 0 }
    } else {
        let m = t + LEAD;
        let k = e - 1;
        Parts { m, k }
    }
}

// The same with an even k, so that 2^k has a root.
#[tactic(auto, using(crate::proofs::Loops::even_odd))]
fn evened(p: Parts) -> Parts
    requires { p.m < 2 ^ 53 }
    ensures { Even p.m p.k result.m result.k }
{
    if p.k % 2 == 1 {
        let m = p.m * 2;
        let k = p.k - 1;
        Parts { m, k }
    } else {
        p
    }
}

// m * 4^h with enough digits for a root of 53, and that h. A while loop: it ends by the size of n, and h is what it answers, no index.
fn raised(m: u64) -> Parts
    requires { (0 < m) × (m < 2 ^ 54) }
    ensures { Raised m result.m result.k }
{
    let mut n = m;
    let mut h = 0u64;
    while n < LEAD {
        n = n * 4;
        h += 1;
    }
    Parts { m: n, k: h }
}

// One digit more of the root: d is the next two digits of the radicand.
fn next_digit(s: Digits, d: u64) -> Digits
    requires { (s.root < 2 ^ 53) × (s.rem ≤ 2 * s.root) × (d < 4) }
    ensures { Step s.root s.rem d result.root result.rem }
{
    let r = s.rem * 4 + d;
    let t = s.root * 4 + 1;
    if t <= r {
        Digits {
            root: s.root * 2 + 1,
            rem: r - t,
        }
    } else {
        Digits {
            root: s.root * 2,
            rem: r,
        }
    }
}

// The whole root of m * 2^52, which has up to 106 digits: 53 pairs, of which `left` holds the next one on top.
fn root_digits(m: u64) -> Digits
    requires { m < 2 ^ 54 }
    ensures { IsRoot (m * 2 ^ 52) result.root result.rem }
{
    let mut s = Digits { root: 0, rem: 0 };
    let mut left = m;
    for i in 0..53u64 {
        let d = left / LEAD;
        left = left % LEAD * 4;
        s = next_digit(s, d);
    }
    s
}

// The whole number nearest to the root: one more where more is left than the root itself. There is no tie.
fn picked(s: Digits) -> u64
    requires { s.root < 2 ^ 53 }
    ensures { Picked s.root s.rem result }
{
    if s.root < s.rem { s.root + 1 } else { s.root }
}

// A root that is rounded up to 2^53 carries into the exponent's field by itself.
fn root_above_zero(x: f64) -> f64
    requires { Above x }
    ensures { NearestRoot x result }
{
    let p = evened(taken_apart(x));
    let q = raised(p.m);
    let r = picked(root_digits(q.m));
    f64::from_bits((p.k / 2 + 511 - q.k) * LEAD + r)
}

// The double nearest to the root of x. Either zero is its own root; a NaN, an infinity or a negative is refused.
pub fn root(x: f64) -> Result<f64, Refusal>
    ensures { rooted_by result ≡ rooted x }
{
    if x == 0.0 {
        return Ok(x);
    }
    if 0.0 < x {
        if x < 1.0 / 0.0 {
            return Ok(root_above_zero(x));
        }
    }
    Err(Refusal::OutOfRange)
}
