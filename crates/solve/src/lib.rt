// The candidate rule of one pattern and one parity of the sum of k, and the bases of both parities: `solve` and `base_pair` of the Rust's
// encoder.rs, over the flat rows of a section (crate coord).
// The idea: the base is the nearest vector of its pattern and class. Where it is outside the bound, vectors
// beside it are tried, then the same about targets drawn toward zero. A step changes two terms of a distance
// that is known, so a try is a few additions and one comparison; only one that is nearer is held against the
// bound.
#![tactic(auto)]

ghost use Rattle.std.specs.Prelude.{◌≡◌, cond, ℕ, ◌<◌, ◌≤◌, ◌+◌, ◌*◌, ◌-◌, ◌%◌, ◌^◌, min, get_or, eqb};
ghost use Rattle.laws.specs.Words.{tab};
ghost use Rattle.search.specs.Bound.{lex_of};
ghost use Rattle.search.specs.Bound as search;
ghost use Rattle.search.specs.Base.{slot_of, key_set, base_best};
ghost use Rattle.search.specs.Solve.{key_moved, other_of, kept_base, unmet, found_of};
ghost use Rattle.solve.specs.Inner.Flat.{swap_bytes, places_of, spot, top_in, par_in, fix_in, base_in, step_in, turn_in, moves_in};
ghost use Rattle.solve.specs.Inner.Flat.{start_in, layer_in, solve_in, stepped_in, pair_in};
ghost use Rattle.solve.specs.Inner.{Placed, Apart, Flanked, Covered, Ready};

use coord::Rows;
use search::{Best, Candidate, Closed, Found, Top};
use std::array;

// Where the eight records of a pattern stand in the rows, at one shrink.
#[derive(Clone, Copy)]
struct Places {
    at: [usize; 8],
    ghost placed: { Placed at },
}

// A step of one coordinate: coordinate j from one place of the rows to another.
#[derive(Clone, Copy)]
struct Move {
    j: usize,
    from: usize,
    to: usize,
    ghost in_rows: { (j < 8) × ((from < 640) × (to < 640)) },
}

// One shrink before its steps: the two least decided coordinates, the slot of the first, the base.
#[derive(Clone, Copy)]
struct Start {
    top: Top,
    fix: usize,
    n: Candidate,
}

// The bases of a pattern for an even and an odd sum of k.
#[derive(Clone, Copy)]
pub struct Pair {
    pub even: Best,
    pub odd: Best,
}

// ---- leaves: each has one test or one cast, and says the range of its answer

fn which<T: Copy>(c: bool, a: T, b: T) -> T
    ensures { result ≡ cond c a b }
{
    if c { a } else { b }
}

// The slot a step toward the target. That a slot has neighbours is a clause and no type: a slot is a term of a sum in the line after.
fn toward(up: bool) -> usize
    ensures { (result ≡ cond up 3 1) × Flanked result }
{
    if up { 3 } else { 1 }
}

// The weight at a place of the rows.
fn weight_at(rows: &Rows, i: usize) -> u32
    requires { i < 640 }
    ensures { (result ≡ get_or rows.now.weight i 0) × (result < 65536) }
{
    u32::from(rows.weight[i])
}

// The rank at a place of the rows.
fn rank_at(rows: &Rows, i: usize) -> u32
    requires { i < 640 }
    ensures { (result ≡ get_or rows.now.rank i 0) × (result < 256) }
{
    u32::from(rows.rank[i])
}

// The slot at which coordinate j stands: 2, but `fix` at j0.
fn slot(j0: usize, fix: usize, j: usize) -> usize
    requires { Flanked fix }
    ensures { (result ≡ slot_of j0 fix j) × Flanked result }
{
    if j == j0 { fix } else { 2 }
}

// The second coordinate of a pair: the least decided one, or the next where that is the first.
fn other(j: usize, j0: usize, j1: usize) -> usize
    requires { (j0 < 8) × (j1 < 8) }
    ensures { (result ≡ other_of j j0 j1) × (result < 8) }
{
    if j == j0 { j1 } else { j0 }
}

// The slot to which the second coordinate steps: toward its target, but back to its rounding where it was repaired.
fn second(g: usize, t: usize) -> usize
    requires { Flanked t }
    ensures { (result ≡ cond (eqb g 2) t 2) × Flanked result }
{
    if g == 2 { t } else { 2 }
}

// How many shrinks follow the first.
fn more(n: usize) -> usize
    ensures { (result ≡ min n 8 - 1) × (result < 8) }
{
    if search::SHRINKS <= n {
        return search::SHRINKS - 1;
    }
    if n == 0 {
        return 0;
    }
    n - 1
}

// ---- the bound

// The four bytes in the other order.
fn swap_bytes(x: u32) -> u32
    ensures { result ≡ swap_bytes x }
{
    (x << 24) | ((x & 0xff00) << 8) | ((x >> 8) & 0xff00) | (x >> 24)
}

// The ranks of a packed row as one number, coordinate 0 most significant: the two nibbles of each byte swapped, then the four bytes.
pub fn lex(key: u32) -> u32
    ensures { result ≡ lex_of key }
{
    let swapped = ((key & 0x0f0f0f0f) << 4) | ((key >> 4) & 0x0f0f0f0f);
    swap_bytes(swapped)
}

// Below the bound's cost, or at it and at or below its cut.
fn holds(bound: Closed, cost: u32, key: u32) -> bool
    ensures { result ≡ search.holds bound cost key }
{
    if cost < bound.cost {
        return true;
    }
    if cost == bound.cost {
        return lex(key) <= bound.cut;
    }
    false
}

// ---- packed rows

// Rank x where coordinate j stands.
fn nibble(x: u32, j: usize) -> u32
    requires { j < 8 }
    ensures { result ≡ x * 2 ^ (4 * j) % 2 ^ 32 }
{
    x << (4 * j)
}

// Rank x in place of the rank at j.
fn key_set(key: u32, j: usize, x: u32) -> u32
    requires { j < 8 }
    ensures { result ≡ key_set key j x }
{
    (key & !nibble(15, j)) | nibble(x, j)
}

// Ranks x and y in place of the ranks at j and j2.
fn key_moved(key: u32, j: usize, x: u32, j2: usize, y: u32) -> u32
    requires { (j < 8) × (j2 < 8) }
    ensures { result ≡ key_moved key j x j2 y }
{
    let mask = !(nibble(15, j) | nibble(15, j2));
    (key & mask) | nibble(x, j) | nibble(y, j2)
}

// ---- one shrink

impl Places {
    // Those of a pattern.
    fn new(pattern: u8, shrink: usize) -> Places
        requires { shrink < 8 }
        ensures { result.at ≡ places_of pattern shrink }
    {
        Places {
            at: array::from_fn(|j| 16 * shrink + 2 * j + search::bit(pattern, j)),
        }
    }

    // The place of coordinate j.
    fn place(&self, j: usize) -> usize
        requires { j < 8 }
        ensures { (result ≡ get_or self.now.at j 0) × (result < 128) }
    {
        self.at[j]
    }
}

// The two largest regrets, the lower index on a tie. No branch: each of the four numbers is picked.
fn top_two(rows: &Rows, at: &Places) -> Top
    ensures { (result ≡ top_in rows.now at.now.at 6) × Apart result 8 }
{
    let a0 = at.place(0);
    let x0 = rows.regret[a0];
    let a1 = at.place(1);
    let x1 = rows.regret[a1];
    let s = x1 > x0;
    let mut j0 = which(s, 1, 0);
    let mut j1 = which(s, 0, 1);
    let mut m0 = which(s, x1, x0);
    let mut m1 = which(s, x0, x1);
    for i in 0..6usize {
        let k = at.place(i + 2);
        let x = rows.regret[k];
        let a = x > m0;
        let b = x > m1;
        j1 = which(a, j0, which(b, i + 2, j1));
        m1 = which(a, m0, which(b, x, m1));
        j0 = which(a, i + 2, j0);
        m0 = which(a, x, m0);
    }
    Top { j0, j1 }
}

// The parity of the sum of k0.
fn parity_of(rows: &Rows, at: &Places) -> u32
    ensures { (result ≡ par_in rows.now at.now.at 8) × (result < 2) }
{
    let mut par = 0u32;
    for j in 0..8usize {
        let k = at.place(j);
        par += u32::from(rows.odd[k]);
    }
    par % 2
}

// Cost, packed row and distance with every coordinate at its rounding, but j0 at slot `fix`.
fn base_at(rows: &Rows, at: &Places, j0: usize, fix: usize) -> Candidate
    requires flanked { Flanked fix }
    ensures { (result ≡ base_in rows.now at.now.at j0 fix 8) × (result.cost < 600000) }
{
    let mut cost = 0u32;
    let mut key = 0u32;
    let mut d = 0.0f64;
    for j in 0..8usize {
        let i = 5 * at.place(j) + slot(j0, fix, j);
        cost += weight_at(rows, i);
        key = key | nibble(rank_at(rows, i), j);
        d = d + rows.dist[i];
    }
    Candidate { cost, key, dist: d }
}

// One paired step, to a candidate at distance d.
fn step(d: f64, rows: &Rows, bound: Closed, n: Candidate, best: Best, a: Move, b: Move) -> Best
    requires covered { get_or rows.now.weight a.from 0 + get_or rows.now.weight b.from 0 ≤ n.cost }
    requires cost_bound { n.cost < 600000 }
    ensures { result ≡ step_in d rows.now bound n best a.j a.from a.to b.j b.from b.to }
{
    if d >= best.d {
        return best;
    }
    let cost = n.cost - weight_at(rows, a.from) - weight_at(rows, b.from)
        + weight_at(rows, a.to)
        + weight_at(rows, b.to);
    let key = key_moved(n.key, a.j, rank_at(rows, a.to), b.j, rank_at(rows, b.to));
    if holds(bound, cost, key) {
        return Best { d, key, met: true };
    }
    best
}

// Both steps of coordinate j from place `from`, down and up: they take the same two distances out of the base's.
fn turn(
    rows: &Rows,
    bound: Closed,
    n: Candidate,
    best: Best,
    j: usize,
    from: usize,
    b: Move,
) -> Best
    requires place { (j < 8) × ((1 ≤ from) × (from < 639)) }
    requires covered { get_or rows.now.weight from 0 + get_or rows.now.weight b.from 0 ≤ n.cost }
    requires cost_bound { n.cost < 600000 }
    ensures { result ≡ turn_in rows.now bound n best j from b.j b.from b.to }
{
    let x = n.dist - rows.dist[from] - rows.dist[b.from];
    let y = rows.dist[b.to];
    let d = x + rows.dist[from - 1] + y;
    let to = from - 1;
    let down = step(d, rows, bound, n, best, Move { j, from, to }, b);
    let e = x + rows.dist[from + 1] + y;
    let to = from + 1;
    step(e, rows, bound, n, down, Move { j, from, to }, b)
}

// The sixteen paired steps, two a turn.
fn moves(
    rows: &Rows,
    at: &Places,
    top: Top,
    fix: usize,
    bound: Closed,
    n: Candidate,
    start: Best,
) -> Best
    requires j0_bound { (top.j0 < 8) × (top.j1 < 8) }
    requires flanked { Flanked fix }
    requires covered { Covered rows.now at.now.at top fix n.cost }
    requires cost_bound { n.cost < 600000 }
    ensures { result ≡ moves_in rows.now at.now.at top fix bound n start 8 }
{
    let mut best = start;
    let j0 = top.j0;
    let j1 = top.j1;
    for j in 0..8usize {
        let j2 = other(j, j0, j1);
        let g = slot(j0, fix, j2);
        let a = 5 * at.place(j) + slot(j0, fix, j);
        let i2 = at.place(j2);
        let b = Move {
            j: j2,
            from: 5 * i2 + g,
            to: 5 * i2 + second(g, toward(rows.up[i2])),
        };
        best = turn(rows, bound, n, best, j, a, b);
    }
    best
}

// The slot of the least decided coordinate: its rounding, but a step toward its target where the parity is wrong.
fn fix_of(rows: &Rows, at: &Places, want: u32, j0: usize) -> usize
    requires j0_bound { j0 < 8 }
    ensures { (result ≡ fix_in rows.now at.now.at want j0) × Flanked result }
{
    if parity_of(rows, at) == want {
        return 2;
    }
    let i = at.place(j0);
    toward(rows.up[i])
}

// The two least decided coordinates, the slot of the first, and the base that follows from it.
fn begin(rows: &Rows, at: &Places, want: u32) -> Start
    ensures { (result ≡ start_in rows.now at.now.at want) × Ready result rows.now at.now.at }
{
    let top = top_two(rows, at);
    let fix = fix_of(rows, at, want, top.j0);
    let n = base_at(rows, at, top.j0, fix);
    Start { top, fix, n }
}

// The base in place of the best, where it is a member and strictly nearer.
fn kept(bound: Closed, n: Candidate, best: Best) -> Best
    ensures { result ≡ kept_base bound n best }
{
    if holds(bound, n.cost, n.key) {
        if n.dist < best.d {
            return Best {
                d: n.dist,
                key: n.key,
                met: true,
            };
        }
    }
    best
}

// One shrink: the base, then the steps.
fn layer(rows: &Rows, at: &Places, want: u32, bound: Closed, best: Best) -> Best
    ensures { result ≡ layer_in rows.now at.now.at want bound best }
{
    let s = begin(rows, at, want);
    let top = s.top;
    let n = s.n;
    let b = kept(bound, n, best);
    moves(rows, at, top, s.fix, bound, n, b)
}

// ---- the search of one pattern

// No member met yet.
fn none() -> Best
    ensures { result ≡ unmet }
{
    Best {
        d: search::infinite(),
        key: 0,
        met: false,
    }
}

// A distance with its row, or that no member was met.
fn answer(b: Best) -> Found
    ensures { result ≡ found_of b }
{
    if b.met {
        return Found::At(b.d, b.key);
    }
    Found::Nothing
}

// The nearest member that the candidate rule meets over the first n shrinks, at least one and at most eight.
pub fn solve(rows: &Rows, pattern: u8, want: u32, bound: Closed, n: usize) -> Found
    ensures { result ≡ found_of (solve_in rows.now pattern want bound n) }
{
    let at = Places::new(pattern, 0);
    let s = begin(rows, &at, want);
    let top = s.top;
    let base = s.n;
    let start = none();
    let first = kept(bound, base, start);
    if first.met {
        return answer(first);
    }
    let mut best = moves(rows, &at, top, s.fix, bound, base, first);
    for i in 0..more(n) {
        let to = Places::new(pattern, i + 1);
        best = layer(rows, &to, want, bound, best);
    }
    answer(best)
}

// ---- the bases of both parities

// The base with coordinate j a step toward its target: the distance loses a term and gains a term.
fn stepped(rows: &Rows, at: &Places, s: Candidate, j: usize) -> Candidate
    requires j_bound { j < 8 }
    requires j_bound_2 { (get_or rows.now.weight (spot at.now.at j 2) 0 ≤ s.cost) × (s.cost < 600000) }
    ensures { result ≡ stepped_in rows.now at.now.at s j }
{
    let i = at.place(j);
    let a = 5 * i + 2;
    let b = 5 * i + toward(rows.up[i]);
    let cost = s.cost - weight_at(rows, a) + weight_at(rows, b);
    let key = key_set(s.key, j, rank_at(rows, b));
    Candidate {
        cost,
        key,
        dist: s.dist - rows.dist[a] + rows.dist[b],
    }
}

// A base, and whether it is a member.
fn base_best(bound: Closed, n: Candidate) -> Best
    ensures { result ≡ base_best bound n }
{
    Best {
        d: n.dist,
        key: n.key,
        met: holds(bound, n.cost, n.key),
    }
}

// The base unrepaired serves the parity of its own sum, the one stepped at the least decided coordinate the other.
fn base_pair(rows: &Rows, pattern: u8, b0: Closed, b1: Closed) -> Pair
    ensures { result ≡ pair_in rows.now pattern b0 b1 }
{
    let at = Places::new(pattern, 0);
    let top = top_two(rows, &at);
    let n = base_at(rows, &at, 0, 2);
    let m = stepped(rows, &at, n, top.j0);
    if parity_of(rows, &at) == 0 {
        return Pair {
            even: base_best(b0, n),
            odd: base_best(b1, m),
        };
    }
    Pair {
        even: base_best(b0, m),
        odd: base_best(b1, n),
    }
}

// The bases of 128 patterns.
pub fn pairs(rows: &Rows, bytes: &[u8; 128], b0: Closed, b1: Closed) -> [Pair; 128]
    ensures { result ≡ tab (λ (i : ℕ). pair_in rows.now (get_or bytes.now i 0) b0 b1) 128 }
{
    array::from_fn(|i| base_pair(rows, bytes[i], b0, b1))
}
