// Coordinates and rank vectors: the members of o + 4Z by rank, and back; class, cost and packing of a section's eight ranks; closed bounds.
#![tactic(auto)]

ghost use Rattle.std.specs.Prelude.{◌≡◌, true, ◌*◌, ◌/◌, ◌%◌, ◌^◌, ◌<◌};
ghost use Rattle.laws.specs.Words.{mod_z};
ghost use Rattle.rank.specs.Coord.{parity_of, bit_of, val_of};
ghost use Rattle.rank.specs.Vector.{ranks_below, k_zero, bound_cost, bound_cut, middle_cost, middle_cut};
ghost use Rattle.rank.specs.Vector as vector;
ghost use Rattle.refusal.specs.Refusal.{number_in};
ghost use Rattle.rank.specs.Answers.{valued_by, valued_of, ranked_by, ranked_of, rank_in, lookup_number, lookup_rank, mark_of};
ghost use Rattle.rank.specs.Answers.{classed_by, classed_of, costed_by, costed_of, held_by, held_of, packed_of};

use refusal::Refusal;
use std::array;

// The ranks that rank_of looks at are those below this.
pub const REACH: u32 = 8;

// The rank mark that says none: a number and no Option, since document 01 gives it, with the weight 961.
pub const NO_RANK: u32 = 15;

// A packed rank has four bits: cost and contains take the ranks below this.
const FOUR_BITS: u32 = 16;

// The members of o + 4Z by rank, eight for each o. In bytes: a constant array is made anew wherever it is read.
const VALUES: [i8; 32] = [
    0, 4, -4, 8, -8, 12, -12, 16, 1, -3, 5, -7, 9, -11, 13, -15, 2, -2, 6, -6, 10, -10, 14, -14,
    -1, 3, -5, 7, -9, 11, -13, 15,
];

// The member of o + 4Z at the rank `rho`, for whoever knows that both are in range.
fn value_at(o: u32, rho: u32) -> i32
    requires { (o < 4) × (rho < 8) }
    ensures { result ≡ val_of o rho }
{
    i32::from(VALUES[(o * 8 + rho) as usize])
}

// The member of o + 4Z at the rank `rho`, outward from zero, positive first; refused where there is none.
pub fn val(o: u32, rho: u32) -> Result<i32, Refusal>
    ensures { valued_by result ≡ valued_of o rho }
{
    if (o < 4) & (rho < 8) {
        Ok(value_at(o, rho))
    } else {
        Err(Refusal::OutOfRange)
    }
}

// The rank of `y` in o + 4Z; none where it is not in it or stands past the reach.
pub fn rank_of(o: u32, y: i32) -> Result<Option<u32>, Refusal>
    ensures { (ranked_by result ≡ ranked_of o y) × (number_in result ≡ lookup_number o) × (rank_in (ranked_by result) ≡ lookup_rank o y) }
{
    if 4 <= o {
        return Err(Refusal::OutOfRange);
    }
    Ok((0..REACH).find(|rho| value_at(o, *rho) == y))
}

// The remainder by 4, from the floor: o = p + 2c of a coordinate.
pub fn residue(y: i32) -> u32
    ensures { (result ≡ mod_z y 4) × (result < 4) }
{
    (y & 3) as u32
}

// The parity p of a coordinate.
pub fn parity(y: i32) -> u32
    ensures { (result ≡ parity_of y) × (result < 2) }
{
    residue(y) % 2
}

// The bit c of a coordinate.
pub fn bit(y: i32) -> u32
    ensures { (result ≡ bit_of y) × (result < 2) }
{
    residue(y) / 2
}

// The rank of `y` in its own o + 4Z, or the mark that says none.
pub fn mark(y: i32) -> u32
    ensures { (result ≡ mark_of y) × (result < 16) }
{
    rank_of(residue(y), y).ok().flatten().unwrap_or(NO_RANK)
}

// Whether all ranks are below `b`.
pub fn all_below(rho: [u32; 8], b: u32) -> bool
    ensures { result ≡ ranks_below b rho }
{
    rho.iter().all(|r| *r < b)
}

// The sum of |k| read under o = 0: the member of 4Z at the rank r has |k| = (r + 1) / 2.
fn sum_of_k(rho: [u32; 8]) -> u32
    requires { ranks_below 8 rho ≡ true }
    ensures { result ≡ k_zero rho }
{
    rho.iter().map(|r| (*r + 1) / 2).sum()
}

// The parity of the sum of k over a section, from its ranks alone.
pub fn rank_class(rho: [u32; 8]) -> Result<u32, Refusal>
    ensures { classed_by result ≡ classed_of rho }
{
    if all_below(rho, 8) {
        Ok(sum_of_k(rho) % 2)
    } else {
        Err(Refusal::OutOfRange)
    }
}

// The sum of (2 rank + 1)^2.
fn weigh(rho: [u32; 8]) -> u32
    requires { ranks_below 16 rho ≡ true }
    ensures { result ≡ vector.cost rho }
{
    rho.iter().map(|r| (2 * *r + 1) * (2 * *r + 1)).sum()
}

// What the rows are ordered by.
pub fn cost(rho: [u32; 8]) -> Result<u32, Refusal>
    ensures { costed_by result ≡ costed_of rho }
{
    if all_below(rho, FOUR_BITS) {
        Ok(weigh(rho))
    } else {
        Err(Refusal::OutOfRange)
    }
}

// Eight ranks of four bits, rank j at bits 4j to 4j + 3.
pub fn pack(rho: [u32; 8]) -> u32
    ensures { result ≡ packed_of rho }
{
    rho.iter().rev().fold(0, |row, r| (row << 4) | (r & 15))
}

// Rank `j` of a packed row.
fn rank_at(row: u32, j: usize) -> u32
    requires { j < 8 }
    ensures { result ≡ row / 2 ^ (4 * j) % 16 }
{
    (row >> (4 * j)) & 15
}

// Undoes `pack`.
pub fn unpack(row: u32) -> [u32; 8]
    ensures { result ≡ vector.unpack 8 row }
{
    array::from_fn(|j| rank_at(row, j))
}

// All rank vectors that cost less than `cost`, and those that cost as much up to `cut`, the cut included. search::Closed is this with its cut
// packed, a type of its own for speed: the encoder's inner loops compare one number.
#[derive(Clone, Copy)]
pub struct Bound {
    pub cost: u32,
    pub cut: [u32; 8],
}

impl Bound {
    fn holds(self, rho: [u32; 8]) -> bool
        requires { ranks_below 16 rho ≡ true }
        ensures { result ≡ vector.within self.cost self.cut rho }
    {
        // Cost decides first, and then the ranks, rank 0 the most significant.
        let Bound { cost, cut } = self;
        (weigh(rho), rho) <= (cost, cut)
    }

    // Says nothing of the class: a first or third section also needs its own.
    pub fn contains(self, rho: [u32; 8]) -> Result<bool, Refusal>
        ensures { held_by result ≡ held_of self.cost self.cut rho }
    {
        if all_below(rho, FOUR_BITS) {
            Ok(self.holds(rho))
        } else {
            Err(Refusal::OutOfRange)
        }
    }
}

// The last row of each class.
pub const CLASS_BOUNDS: [Bound; 2] = [
    Bound {
        cost: 88,
        cut: [1, 1, 0, 3, 0, 0, 1, 1],
    },
    Bound {
        cost: 96,
        cut: [0, 0, 2, 2, 2, 0, 1, 1],
    },
];

// The last row of the middle section.
pub const MIXED_BOUND: Bound = Bound {
    cost: 72,
    cut: [3, 0, 0, 0, 1, 0, 1, 0],
};

// The bound of class 0, and for any other `c` that of class 1.
pub fn class_bound(c: u32) -> Bound
    ensures { (result.cost ≡ bound_cost c) × (result.cut ≡ bound_cut c) }
{
    if c == 0 {
        CLASS_BOUNDS[0]
    } else {
        CLASS_BOUNDS[1]
    }
}

// The bound of the middle section.
pub fn mixed_bound() -> Bound
    ensures { (result.cost ≡ middle_cost) × (result.cut ≡ middle_cut) }
{
    MIXED_BOUND
}
