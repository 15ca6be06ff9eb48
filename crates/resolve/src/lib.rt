// The entries of the join: as they start and resolved in full (`end_resolve` and `mid_resolve` of the Rust's encoder.rs, and the calls that
// resolve one entry or all that a bound leaves), over the flat rows of a section.
// The idea: an end and the middle differ in how an entry is made, and in how many there are. That is what a `Section` says; what is done with
// the entries is written once, for both.
#![tactic(auto)]

ghost use Rattle.std.specs.Prelude.{◌≡◌, ◌<◌, ◌%◌, ℕ, List};
ghost use Rattle.laws.specs.Words.{tab};
ghost use Rattle.rank.specs.Answers.{packed_of};
ghost use Rattle.search.specs.declared.Entry.{Entry};
ghost use Rattle.search.specs.Bound.{lex_of};
ghost use Rattle.search.specs.Tables.{tables, class_of};
ghost use Rattle.search.specs.Entries as search;
ghost use Rattle.search.specs.Parity.{fixed, closed};
ghost use Rattle.solve.specs.declared.Pair.{Pair};
ghost use Rattle.solve.specs.Inner.Flat.{solve_in};
ghost use Rattle.resolve.specs.Inner.Flat.{better_by, mid_by, end_over, mid_over, closed_with};
ghost use Rattle.resolve.specs.Inner.Flat.{of_parity, lowered_by, start_over, base_entry, in_a_row};
ghost use Rattle.resolve.specs.Inner.Flat.{end_bases, end_first, end_full, mid_bases, mid_first, mid_full};

use coord::Rows;
use rank::Bound;
use search::{Best, Closed, Entry, Found};
use solve::Pair;
use std::array;

// An end of a block: the rows of its section, the bytes of its states, two to a state, the fallbacks of its entries, and how many shrinks the
// rule runs.
#[derive(Drop)]
pub struct End {
    pub rows: Rows,
    pub bytes: [[u8; 2]; 64],
    pub fall: [Entry; 128],
    pub shrinks: usize,
}

// The middle of a block: the rows of its section, its bytes, and how many shrinks the rule runs.
#[derive(Drop)]
pub struct Middle {
    pub rows: Rows,
    pub sets: [u8; 128],
    pub shrinks: usize,
}

// A section of N entries.
pub trait Section<const N: usize> {
    ghost bases: { Self → List Pair };

    ghost start: { Self → List Pair → ℕ → Entry };

    ghost full: { Self → ℕ → Entry };

    // The bases of its bytes.
    fn bases(&self) -> [Pair; 128]
        ensures { result ≡ bases self.now };

    // Entry i as it starts, where the bases are `pairs`: what they say of it. Past the end the entries come round again.
    fn start(&self, pairs: &[Pair; 128], i: usize) -> Entry
        ensures { result ≡ start self.now pairs.now (i % N) };

    // Entry i resolved in full: what the rule finds. Past the end the entries come round again.
    fn full(&self, i: usize) -> Entry
        ensures { result ≡ full self.now (i % N) };
}

// ---- the bounds
// A bound of crate rank as the search compares with it: its cut as one number, coordinate 0 most significant.
fn closed_of(b: Bound) -> Closed
    ensures { result ≡ record { cost = b.cost; cut = lex_of (packed_of b.cut) } }
{
    let cut = b.cut;
    let packed = rank::pack(cut);
    let turned = solve::lex(packed);
    Closed {
        cost: b.cost,
        cut: turned,
    }
}

// The bound of class r.
pub fn class_bound(r: usize) -> Closed
    ensures { result ≡ class_of tables r }
{
    if r == 0 {
        return closed_of(rank::class_bound(0));
    }
    closed_of(rank::class_bound(1))
}

// The bound of a middle section.
pub fn mixed_bound() -> Closed
    ensures { result ≡ tables.mixed }
{
    closed_of(rank::mixed_bound())
}

// ---- as they start
// The base for an even or an odd sum of k.
fn of_parity(q: Pair, r: usize) -> Best
    ensures { result ≡ of_parity q r }
{
    if r == 0 { q.even } else { q.odd }
}

// A member that is strictly nearer replaces the entry.
fn nearer(e: Entry, b: Best, c: u8) -> Entry
    ensures { result ≡ search.better e b c }
{
    if b.met & (b.d < e.value) {
        return Entry::exact(b.d, c, b.key);
    }
    e
}

// A base that is no member lowers the bound.
fn lowered(lb: f64, b: Best) -> f64
    ensures { result ≡ lowered_by lb b }
{
    if b.met {
        return lb;
    }
    if b.d < lb {
        return b.d;
    }
    lb
}

// Where a base that is no member is nearer than the member, its distance is a bound and the entry is not exact.
fn settled(e: Entry, lb: f64, loose: bool) -> Entry
    ensures { result ≡ search.settle (record { ent = e; lb = lb; loose = loose }) }
{
    if loose & (lb < e.value) {
        return Entry {
            value: lb,
            exact: false,
            ..e
        };
    }
    e
}

// One end entry: the fallback f, then the bases of both bytes.
fn end_start(f: Entry, b0: Best, c0: u8, b1: Best, c1: u8) -> Entry
    ensures { result ≡ start_over f b0 c0 b1 c1 }
{
    let e = nearer(nearer(f, b0, c0), b1, c1);
    let lb = lowered(lowered(search::infinite(), b0), b1);
    settled(e, lb, !(b0.met & b1.met))
}

// One middle entry: a base that is no member is a bound.
fn mid_start(q: Pair, d: usize, c: u8) -> Entry
    ensures { result ≡ base_entry (of_parity q d) c }
{
    let b = of_parity(q, d);
    Entry {
        value: b.d,
        exact: b.met,
        byte: c,
        key: b.key,
    }
}

// ---- resolved in full
// A member that a search met replaces the entry where it is strictly nearer. Not one function with `nearer`: a search that met none has no
// distance, a base always has one.
fn better(e: Entry, f: Found, c: u8) -> Entry
    ensures { result ≡ better_by e f c }
{
    match f {
        Found::At(d, key) if d < e.value => Entry::exact(d, c, key),
        _ => e,
    }
}

// The fallback f, then the rule on both bytes of a state.
fn end_resolve(rows: &Rows, f: Entry, r: usize, c0: u8, c1: u8, n: usize) -> Entry
    requires { r < 2 }
    ensures { result ≡ end_over tables (solve_in rows.now) f r c0 c1 n }
{
    let b = class_bound(r);
    let e = better(f, solve::solve(rows, c0, r as u32, b, n), c0);
    better(e, solve::solve(rows, c1, r as u32, b, n), c1)
}

// What a search answered, as an entry. Not `better` of an infeasible one: that passes over a distance that is not finite.
fn mid_of(f: Found, c: u8) -> Entry
    ensures { result ≡ mid_by f c }
{
    match f {
        Found::At(d, key) => Entry::exact(d, c, key),
        Found::Nothing => Entry::infeasible(),
    }
}

// The rule on one byte, and once more with all eight shrinks where fewer met no member.
fn mid_resolve(rows: &Rows, c: u8, d: usize, n: usize) -> Entry
    requires { d < 2 }
    ensures { result ≡ mid_over tables (solve_in rows.now) c d n }
{
    let b = mixed_bound();
    let f = solve::solve(rows, c, d as u32, b, n);
    match f {
        Found::At(d, key) => Entry::exact(d, c, key),
        Found::Nothing => {
            if n < search::SHRINKS {
                return mid_of(solve::solve(rows, c, d as u32, b, search::SHRINKS), c);
            }
            Entry::infeasible()
        }
    }
}

// ---- the two kinds of section
// The bytes of all states in a row, two to a state.
fn in_a_row(bytes: &[[u8; 2]; 64]) -> [u8; 128]
    ensures { result ≡ in_a_row bytes.now }
{
    array::from_fn(|i| bytes[i / 2][i % 2])
}

// Entry 64 r + s of an end is that of class r and state s.
impl Section<128> for End {
    ghost bases = { end_bases };

    ghost start = { end_first };

    ghost full = { end_full };

    fn bases(&self) -> [Pair; 128] {
        let row = in_a_row(&self.bytes);
        solve::pairs(&self.rows, &row, class_bound(0), class_bound(1))
    }

    fn start(&self, pairs: &[Pair; 128], i: usize) -> Entry {
        let i = i % 128;
        let f = self.fall[i];
        let q0 = pairs[2 * (i % 64)];
        let q1 = pairs[2 * (i % 64) + 1];
        let b0 = of_parity(q0, i / 64);
        let b1 = of_parity(q1, i / 64);
        end_start(f, b0, self.bytes[i % 64][0], b1, self.bytes[i % 64][1])
    }

    #[tactic(auto, unfolding(crate::specs::Inner::Flat::end_with))]
    fn full(&self, i: usize) -> Entry {
        let i = i % 128;
        let f = self.fall[i];
        let c0 = self.bytes[i % 64][0];
        let c1 = self.bytes[i % 64][1];
        end_resolve(&self.rows, f, i / 64, c0, c1, self.shrinks)
    }
}

// A middle entry is twice the place of its byte plus its class.
impl Section<256> for Middle {
    ghost bases = { mid_bases };

    ghost start = { mid_first };

    ghost full = { mid_full };

    fn bases(&self) -> [Pair; 128] {
        let b = mixed_bound();
        solve::pairs(&self.rows, &self.sets, b, b)
    }

    fn start(&self, pairs: &[Pair; 128], i: usize) -> Entry {
        let i = i % 256;
        let q = pairs[i / 2];
        mid_start(q, i % 2, self.sets[i / 2])
    }

    fn full(&self, i: usize) -> Entry {
        let i = i % 256;
        mid_resolve(&self.rows, self.sets[i / 2], i % 2, self.shrinks)
    }
}

// ---- the entries of a section
// The entries as they start.
pub fn starts<const N: usize, S: Section<N>>(section: &S) -> [Entry; N]
    ensures { result ≡ tab (S.start section.now (S.bases section.now)) N }
{
    let pairs = section.bases();
    let mut out = [Entry::infeasible(); N];
    for i in 0..N {
        out[i] = section.start(&pairs, i);
    }
    out
}

// Entry i resolved where it is not exact; no entry where i is past the end.
#[tactic(auto, using(crate::proofs::InPlace::own_remainder))]
pub fn seed<const N: usize, S: Section<N>>(section: &S, entries: &mut [Entry; N], i: usize)
    ensures { entries.new ≡ fixed entries.old i (S.full section.now i) }
{
    if i < N {
        let e = entries[i];
        if !e.exact {
            entries[i] = section.full(i);
        }
    }
}

// An exact entry stays; one whose best path is under the best cost known is resolved; the rest are dropped.
#[tactic(auto, using(crate::proofs::InPlace::own_remainder))]
fn closed<const N: usize, S: Section<N>>(section: &S, i: usize, e: Entry, under: bool) -> Entry
    requires { i < N }
    ensures { result ≡ closed e under (S.full section.now i) }
{
    if e.exact {
        return e;
    }
    if under {
        return section.full(i);
    }
    Entry::infeasible()
}

// The same of all entries: `bounds` holds the best path through each, u is the best cost known.
pub fn close<const N: usize, S: Section<N>>(
    section: &S,
    entries: &mut [Entry; N],
    bounds: &[f64; N],
    u: f64,
)
    ensures { entries.new ≡ tab (closed_with entries.old bounds.now u (S.full section.now)) N }
{
    for i in 0..N {
        entries[i] = closed(section, i, entries[i], bounds[i] < u);
    }
}
