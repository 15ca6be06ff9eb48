// What the search at one scale computes with. The search itself is defined in specs/, function by function of the Rust's encoder.rs; the
// crates above hold code that is proved to compute it.
#![tactic(auto)]

ghost use Rattle.std.specs.Prelude.{◌≡◌, ◌<◌, true};
ghost use Rattle.std.specs.Float.Ieee.Scale.{finite};
ghost use Rattle.search.specs.Record.{bit_at};
ghost use Rattle.search.specs.Solve.{infinity};
ghost use Rattle.search.specs.Entries.{infeasible};

// How many shrinks there are, and how many of them an end runs at most.
pub const SHRINKS: usize = 8;

pub const END_SHRINKS: usize = 7;

// One coordinate under one offset at one shrink: its rounding k0, the side on which its target lies (dir, 1 or -1), how far off the rounding
// is (regret), and the five values o + 4k for k from k0 - 2 to k0 + 2, each with its rank (15 for none), its weight (2 rank + 1)^2 and its
// squared distance to the target before the shrink.
#[derive(Clone, Copy)]
pub struct Coord {
    pub k0: i32,
    pub dir: i32,
    pub regret: f64,
    pub rank: [u8; 5],
    pub w: [u16; 5],
    pub d: [f64; 5],
}

// A closed bound on packed rows: the cut has coordinate 0 most significant.
#[derive(Clone, Copy)]
pub struct Closed {
    pub cost: u32,
    pub cut: u32,
}

// A candidate for a section: its cost, its packed row, its squared distance.
#[derive(Clone, Copy)]
pub struct Candidate {
    pub cost: u32,
    pub key: u32,
    pub dist: f64,
}

// The nearest member so far, and whether one was met. Where none was, the distance is a bound, which is looked at too, so it is no Option.
#[derive(Clone, Copy)]
pub struct Best {
    pub d: f64,
    pub key: u32,
    pub met: bool,
}

// A section search answers a distance with its row, or that no member was met. An enum of its own: document 01 asks for this form by name.
#[derive(Clone, Copy)]
pub enum Found {
    At(f64, u32),
    Nothing,
}

// The two least decided coordinates.
#[derive(Clone, Copy)]
pub struct Top {
    pub j0: usize,
    pub j1: usize,
}

// A section as the join sees it: a distance that is exact or a lower bound, and the byte and row of the point when exact. The distance is looked
// at in both cases, so it is no Option.
#[derive(Clone, Copy)]
pub struct Entry {
    pub value: f64,
    pub exact: bool,
    pub byte: u8,
    pub key: u32,
}

impl Entry {
    // A point that is known, at this distance.
    pub fn exact(value: f64, byte: u8, key: u32) -> Entry
        ensures { result ≡ record { value = value; exact = true; byte = byte; key = key } }
    {
        Entry {
            value,
            exact: true,
            byte,
            key,
        }
    }

    // What the join does not see.
    pub fn infeasible() -> Entry
        ensures { result ≡ infeasible }
    {
        Entry::exact(infinite(), 0, 0)
    }
}

// The targets of the three sections, in the order of the trio.
#[derive(Clone, Copy)]
pub struct Targets {
    pub t1: [f64; 8],
    pub t2: [f64; 8],
    pub t3: [f64; 8],
}

// The entries of the three sections, in the order of the trio: entry 64 r + state of an end, and of the middle entry twice its place plus the
// middle class.
#[derive(Clone, Copy)]
pub struct Sides {
    pub e1: [Entry; 128],
    pub e2: [Entry; 256],
    pub e3: [Entry; 128],
}

// The best path of a join: its cost, and the entries it runs through. The middle one is twice its place plus the middle class.
#[derive(Clone, Copy)]
pub struct Way {
    pub cost: f64,
    pub i1: usize,
    pub i2: usize,
    pub i3: usize,
}

// The best path through each entry, and the best path whose three entries are exact.
#[derive(Clone, Copy)]
pub struct Bounds {
    pub u: f64,
    pub b1: [f64; 128],
    pub b2: [f64; 256],
    pub b3: [f64; 128],
}

// The best path of a block at one scale, with its three sections. Its other fields are promised where its cost is not finite too, so it is no
// Option.
#[derive(Clone, Copy)]
pub struct Winner {
    pub cost: f64,
    pub p: u32,
    pub i1: usize,
    pub i2: usize,
    pub i3: usize,
    pub s1: Entry,
    pub s2: Entry,
    pub s3: Entry,
}

impl Winner {
    // Whether there is a path: its cost is finite.
    pub fn is_found(&self) -> bool
        ensures { result ≡ finite self.now.cost }
    {
        float::is_finite(self.cost)
    }
}

// What every cost is below.
pub fn infinite() -> f64
    ensures { result ≡ infinity }
{
    1.0 / 0.0
}

// Bit j of a pattern of eight bits; 0 past the last.
pub fn bit(pattern: u8, j: usize) -> usize
    ensures { (result ≡ bit_at pattern j) × (result < 2) }
{
    if j < 8 {
        usize::from((pattern >> j) & 1)
    } else {
        0
    }
}
