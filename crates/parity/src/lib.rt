// One block parity, and the best of both at one scale: `solve_parity` and the loop of `encode_at_scale` of the Rust's encoder.rs.
// The idea: every entry starts from its bases, which are cheap. At most two seed joins look for a real path;
// one pass over all paths says which entries may lie on a cheaper one, and only those are resolved; then the
// last join. Parity 1 has to beat the cost that parity 0 has found. docs/ALGORITHM.md says why nothing is
// lost.
#![tactic(auto)]

ghost use Rattle.std.specs.Prelude.{◌≡◌, cond, ◌%◌, ltb};
ghost use Rattle.coord.specs.Inner.Rows.{table_of, rows_of};
ghost use Rattle.trellis.specs.Trellis.{middle_sets};
ghost use Rattle.search.specs.Tables.{tables};
ghost use Rattle.search.specs.Join.{join};
ghost use Rattle.search.specs.Parity as def;
ghost use Rattle.search.specs.Parity.{winner_by};
ghost use Rattle.search.specs.Block.{rule_of};
ghost use Rattle.resolve.specs.Inner.Flat.{end_full, mid_full};
ghost use Rattle.resolve.specs.Laws.{fallbacks_of};
ghost use Rattle.parity.specs.Inner.{head_of, once_sides, closed_by, pass_of};

use resolve::{End, Middle};
use search::{Bounds, Entry, Sides, Targets, Winner};

// The best path of a join, and whether all three of its entries are exact. It is looked at in both cases, so it is no Option.
#[derive(Clone, Copy)]
struct Head {
    cost: f64,
    i1: usize,
    i2: usize,
    i3: usize,
    done: bool,
}

// The three sections of a block at one parity. They are lent, since each is ten kilobytes.
#[derive(Clone, Copy)]
struct Block<'a> {
    first: &'a End,
    middle: &'a Middle,
    last: &'a End,
}

// ---- the sections
// How many shrinks a setting runs where there are `most`.
fn shrinks(setting: u32, most: usize) -> usize
    ensures { result ≡ cond (ltb setting most) setting most }
{
    let n = setting as usize;
    if n < most { n } else { most }
}

// An end: the first where kind is 0, the last where it is 1.
fn end_of(kind: u32, p: u32, t: [f64; 8], bytes: [[u8; 2]; 64], shrinks: usize) -> End
    ensures { result ≡ record { rows = rows_of (table_of t (p % 2)); bytes = bytes; fall = fallbacks_of t (kind % 2) (p % 2); shrinks = shrinks } }
{
    End {
        rows: coord::rows_of(t, p),
        bytes,
        fall: fallback_entries::fallbacks(kind, p, t),
        shrinks,
    }
}

// The middle.
fn middle_of(p: u32, t: [f64; 8], shrinks: usize) -> Middle
    ensures { result ≡ record { rows = rows_of (table_of t (p % 2)); sets = middle_sets; shrinks = shrinks } }
{
    Middle {
        rows: coord::rows_of(t, p),
        sets: trellis::middle_sets(),
        shrinks,
    }
}

// ---- the seed joins
// The best path, and whether it is all exact.
fn lead(p: u32, sides: &Sides) -> Head
    ensures { result ≡ head_of (p % 2) sides.now }
{
    let w = join::join(p, sides);
    Head {
        cost: w.cost,
        i1: w.i1,
        i2: w.i2,
        i3: w.i3,
        done: sides.e1[w.i1].exact & (sides.e2[w.i2].exact & sides.e3[w.i3].exact),
    }
}

// A path that is all exact is the last one.
fn next(h: Head, p: u32, sides: &Sides) -> Head
    ensures { result ≡ cond h.done h (head_of (p % 2) sides.now) }
{
    if h.done { h } else { lead(p, sides) }
}

// The best cost known: lowered to that of a path that is all exact.
fn known(h: Head, u: f64) -> f64
    ensures { result ≡ cond h.done (def.lower u h.cost) u }
{
    if h.done {
        if h.cost < u {
            return h.cost;
        }
        return u;
    }
    u
}

// The entries of a path, resolved where they are not exact.
fn resolve_path(block: &Block, sides: &mut Sides, h: Head)
    ensures { sides.new ≡ once_sides (end_full block.now.first.now) (mid_full block.now.middle.now) (end_full block.now.last.now) sides.old h }
{
    resolve::seed(block.first, &mut sides.e1, h.i1);
    resolve::seed(block.middle, &mut sides.e2, h.i2);
    resolve::seed(block.last, &mut sides.e3, h.i3);
}

// ---- the bounds
// The entries that the bounds leave, resolved; the rest are dropped.
#[tactic(auto, unfolding(crate::specs::Inner::closed_by))]
fn close(block: &Block, sides: &mut Sides, b: &Bounds)
    ensures { sides.new ≡ closed_by (end_full block.now.first.now) (mid_full block.now.middle.now) (end_full block.now.last.now) sides.old b.now }
{
    resolve::close(block.first, &mut sides.e1, &b.b1, b.u);
    resolve::close(block.middle, &mut sides.e2, &b.b2, b.u);
    resolve::close(block.last, &mut sides.e3, &b.b3, b.u);
}

// ---- one parity
// The best path through the entries.
fn winner(p: u32, sides: &Sides) -> Winner
    ensures { winner_by result ≡ def.winner_of (p % 2) sides.now (join tables (p % 2) sides.now) }
{
    let w = join::join(p, sides);
    Winner {
        cost: w.cost,
        p: p % 2,
        i1: w.i1,
        i2: w.i2,
        i3: w.i3,
        s1: sides.e1[w.i1],
        s2: sides.e2[w.i2],
        s3: sides.e3[w.i3],
    }
}

// Two seed joins, the second only where the first path is not all exact; the bounds; what they leave, resolved; the best path of that.
fn pass(p: u32, block: &Block, sides: &mut Sides, u0: f64) -> Winner
    ensures { winner_by result ≡ pass_of (end_full block.now.first.now) (mid_full block.now.middle.now) (end_full block.now.last.now) (p % 2)
        (record { sides = sides.old; u = u0 }) }
{
    let h = lead(p, sides);
    resolve_path(block, sides, h);
    let x = known(h, u0);
    let l = next(h, p, sides);
    resolve_path(block, sides, l);
    let b = join::bounds(p, sides, known(l, x));
    close(block, sides, &b);
    winner(p, sides)
}

// The winner of the parity p modulo 2 at the targets of the three sections; u0 is the best cost of the parities before.
pub fn parity(p: u32, targets: &Targets, u0: f64, setting: u32) -> Winner
    ensures { winner_by result ≡ def.parity tables (rule_of setting) targets.now (p % 2) u0 }
{
    let ends = shrinks(setting, search::END_SHRINKS);
    let mids = shrinks(setting, search::SHRINKS);
    let first = end_of(0, p, targets.t1, trellis::prefixes(), ends);
    let middle = middle_of(p, targets.t2, mids);
    let last = end_of(1, p, targets.t3, trellis::suffixes(), ends);
    let mut sides = Sides {
        e1: resolve::starts(&first),
        e2: resolve::starts(&middle),
        e3: resolve::starts(&last),
    };
    let block = Block {
        first: &first,
        middle: &middle,
        last: &last,
    };
    pass(p, &block, &mut sides, u0)
}

// ---- the parities in turn
// No winner yet.
fn nobody() -> Winner
    ensures { winner_by result ≡ def.nobody }
{
    let none = Entry::infeasible();
    Winner {
        cost: search::infinite(),
        p: 0,
        i1: 0,
        i2: 0,
        i3: 0,
        s1: none,
        s2: none,
        s3: none,
    }
}

fn cost_of(w: Winner) -> f64
    ensures { result ≡ def.cost_of (winner_by w) }
{
    if w.is_found() {
        w.cost
    } else {
        search::infinite()
    }
}

// A later parity must be strictly cheaper.
fn choose(a: Winner, b: Winner) -> Winner
    ensures { winner_by result ≡ def.choose (winner_by a) (winner_by b) }
{
    if b.is_found() & (!a.is_found() | (b.cost < a.cost)) {
        return b;
    }
    a
}

// The winner at the targets of the three sections: over parity 0, and then, where `odd` says so, over parity 1.
pub fn search(targets: &Targets, setting: u32, odd: bool) -> Winner
    ensures { winner_by result ≡ def.search tables (rule_of setting) targets.now (def.parities_of odd) }
{
    let none = nobody();
    let even = choose(none, parity(0, targets, cost_of(none), setting));
    if !odd {
        return even;
    }
    choose(even, parity(1, targets, cost_of(even), setting))
}
