// The best path by the entries' values, and the best path through each entry: `join` and the pass over the paths of `solve_parity` of
// encoder.rs.
#![tactic(auto)]

ghost use Rattle.std.specs.Prelude.{◌≡◌, cond, ◌&&◌, ◌<◌, ◌+◌, ◌*◌, ◌%◌, get_or};
ghost use Rattle.std.specs.Float.Ieee.{lt, le};
ghost use Rattle.trellis.specs.Tables.{nexts};
ghost use Rattle.trellis.specs.Trellis.{first_nexts};
ghost use Rattle.search.specs.Tables.{tables};
ghost use Rattle.search.specs.Join.{mid_at, last_at, ent_at, way_at, row_to, join_to, join, all_exact};
ghost use Rattle.search.specs.Parity.{lower, bounds_to};
ghost use Rattle.join.specs.Inner.{InRange};

use search::{Bounds, Sides, Way};

// The middle entry of path t out of end entry i1: eight states in a row have the same sixteen branches, and there are two entries to a branch.
#[tactic(auto, using(crate::specs::Laws::mid_is))]
fn mid_at(i1: usize, t: usize) -> usize
    requires { t < 32 }
    ensures { (result ≡ mid_at tables i1 t) × (result < 256) }
{
    i1 % 64 / 8 * 32 + t
}

// The lower of two costs; the first where neither is: f64::min answers the other one where the first is a NaN, and `lower` does not.
fn lowest(a: f64, b: f64) -> f64
    ensures { result ≡ lower a b }
{
    if b < a { b } else { a }
}

// The paths of one parity p through the entries of the three sections. The states that the branches out of the first eight states lead to tell
// those of all.
#[derive(Drop)]
struct Paths<'a> {
    p: usize,
    nexts: [u8; 128],
    sides: &'a Sides,
    ghost p_bound: { p < 2 },
    ghost nexts_value: { nexts ≡ first_nexts },
}

impl<'a> Paths<'a> {
    // Those of parity p % 2.
    fn new(p: u32, sides: &'a Sides) -> Self
        ensures { (result.p ≡ p % 2) × (result.sides.now ≡ sides.now) }
    {
        Paths {
            p: (p % 2) as usize,
            nexts: trellis::nexts(),
            sides,
        }
    }

    // The state that branch b out of state s leads to.
    fn next_at(&self, s: usize, b: usize) -> usize
        requires { (s < 64) × (b < 16) }
        ensures { (result ≡ get_or nexts (s * 16 + b) 0) × (result < 64) }
    {
        usize::from(((s / 8) as u8) ^ self.nexts[s % 8 * 16 + b])
    }

    // The last entry of a path, of class p xor r xor the middle class; r is i1 / 64.
    fn last_at(&self, i1: usize, t: usize) -> usize
        requires { t < 32 }
        ensures { (result ≡ last_at tables self.now.p i1 t) × (result < 128) }
    {
        (self.p + i1 / 64 + t % 2) % 2 * 64 + self.next_at(i1 % 64, t / 2)
    }

    // Path t out of end entry i1: it costs the sum of its three entries.
    fn way_at(&self, i1: usize, t: usize) -> Way
        requires { (i1 < 128) × (t < 32) }
        ensures { (result ≡ way_at tables self.now.p self.now.sides.now i1 t) × InRange result }
    {
        let i2 = mid_at(i1, t);
        let i3 = self.last_at(i1, t);
        let cost = self.sides.e1[i1].value + self.sides.e2[i2].value + self.sides.e3[i3].value;
        Way { cost, i1, i2, i3 }
    }

    // The best of a way and the 32 paths out of end entry i1, replaced on strictly less.
    #[tactic(auto, using(crate::proofs::Steps::row_more), unfolding(search::specs::Join::row_to))]
    fn row(&self, i1: usize, way: Way) -> Way
        requires { i1 < 128 }
        ensures { result ≡ row_to tables self.now.p self.now.sides.now i1 way 32 }
    {
        let mut best = way;
        for t in 0..32usize {
            let new = self.way_at(i1, t);
            if new.cost < best.cost {
                best = new;
            }
        }
        best
    }

    // The same, but an end entry whose own value is no less than the best cost is passed over.
    fn entered(&self, i1: usize, best: Way) -> Way
        requires { i1 < 128 }
        ensures { result ≡ cond (le best.cost (ent_at self.now.sides.now.e1 i1).value) best (row_to tables self.now.p self.now.sides.now i1 best 32) }
    {
        if self.sides.e1[i1].value >= best.cost {
            best
        } else {
            self.row(i1, best)
        }
    }

    // The best path out of the 128 end entries.
    fn best_way(&self) -> Way
        ensures { result ≡ join_to tables self.now.p self.now.sides.now 128 }
    {
        let mut best = Way {
            cost: search::infinite(),
            i1: 0,
            i2: 0,
            i3: 0,
        };
        for i1 in 0..128usize {
            best = self.entered(i1, best);
        }
        best
    }

    // The cost of a path whose three entries are exact, where it is below u; else u.
    fn exact_cost(&self, way: Way, u: f64) -> f64
        requires { InRange way }
        ensures { result ≡ cond (all_exact self.now.sides.now way && lt way.cost u) way.cost u }
    {
        let s = self.sides;
        if s.e1[way.i1].exact & (s.e2[way.i2].exact & s.e3[way.i3].exact) & (way.cost < u) {
            way.cost
        } else {
            u
        }
    }

    // The pass over the 4,096 paths: each lowers the bound of its three entries.
    fn bounds(&self, u0: f64) -> Bounds
        ensures { result ≡ bounds_to tables self.now.p self.now.sides.now u0 4096 }
    {
        let top = search::infinite();
        let mut u = u0;
        let mut b1 = [top; 128];
        let mut b2 = [top; 256];
        let mut b3 = [top; 128];
        for n in 0..4096usize {
            let way = self.way_at(n / 32, n % 32);
            u = self.exact_cost(way, u);
            b1[way.i1] = lowest(b1[way.i1], way.cost);
            b2[way.i2] = lowest(b2[way.i2], way.cost);
            b3[way.i3] = lowest(b3[way.i3], way.cost);
        }
        Bounds { u, b1, b2, b3 }
    }
}

// The best path by the entries' values, of parity p % 2.
pub fn join(p: u32, sides: &Sides) -> Way
    ensures { (result ≡ join tables (p % 2) sides.now) × ((result.i1 < 128) × ((result.i2 < 256) × (result.i3 < 128))) }
{
    Paths::new(p, sides).best_way()
}

// The best path through each entry, and u lowered to the best path whose three entries are exact, of parity p % 2.
pub fn bounds(p: u32, sides: &Sides, u: f64) -> Bounds
    ensures { result ≡ bounds_to tables (p % 2) sides.now u 4096 }
{
    Paths::new(p, sides).bounds(u)
}
