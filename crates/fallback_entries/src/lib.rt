// The fallbacks of the end regions as entries of the join: the points of least norm, each with its squared distance to the target.
#![tactic(auto)]

ghost use Rattle.std.specs.Prelude.{◌≡◌, ℕ, ◌<◌, ◌+◌, ◌*◌, ◌/◌, ◌%◌};
ghost use Rattle.std.specs.Float.{binary64};
ghost use Rattle.std.specs.Float.Ieee.{mul, sub};
ghost use Rattle.laws.specs.Words.{tab};
ghost use Rattle.rank.specs.Coord.{val_of};
ghost use Rattle.search.specs.Tables.{tables};
ghost use Rattle.search.specs.Entries as search;
ghost use Rattle.fallback_entries.specs.Inner.Flat.{member_at, members_of, squares_of, sum_to, fallback_in};

use search::{Entry, bit};
use std::array;

mod tables;

// The member of o + 4Z at the rank rho. It stands in crate tetra too: rank's own that has no refusal has a `requires`, which no public function may
// have.
fn member(o: u32, rho: u32) -> i32
    requires { (o < 4) × (rho < 8) }
    ensures { result ≡ val_of o rho }
{
    rank::val(o, rho).unwrap_or(0)
}

// A squared difference.
fn sq(x: f64, t: f64) -> f64
    ensures { result ≡ mul binary64 (sub binary64 x t) (sub binary64 x t) }
{
    (x - t) * (x - t)
}

// The members that a fallback's coordinate can have at the parity p: at 4 c + rank, for the pattern bit c. A fallback's ranks are below 4.
fn member_at(p: u32, i: usize) -> f64
    requires { (p < 2) × (i < 8) }
    ensures { result ≡ member_at p i }
{
    f64::from(member(p + 2 * ((i / 4) as u32), (i % 4) as u32))
}

fn members(p: u32) -> [f64; 8]
    requires { p < 2 }
    ensures { result ≡ members_of p }
{
    array::from_fn(|i| member_at(p, i))
}

// Their squared distances to each coordinate's target: 64 squares, in place of eight for each of the 128 fallbacks.
fn squares(m: &[f64; 8], t: [f64; 8]) -> [f64; 64]
    ensures { result ≡ squares_of m.now t }
{
    array::from_fn(|i| sq(m[i % 8], t[i / 8]))
}

// Rank j of a packed row, cut to two bits.
fn low_rank(key: u32, j: usize) -> usize
    requires { j < 8 }
    ensures { (result ≡ search.rank_at key j % 4) × (result < 4) }
{
    ((key >> (4 * j)) & 3) as usize
}

// The squared distance to the target of the section of byte c and packed row key.
#[tactic(auto, unfolding(crate::specs::Inner::Flat::sum_to))]
fn dist_to(squares: &[f64; 64], c: u8, key: u32) -> f64
    ensures { result ≡ sum_to squares.now c key 8 }
{
    let mut s = 0.0f64;
    for j in 0..8usize {
        let b = bit(c, j);
        let r = low_rank(key, j);
        s = s + squares[8 * j + 4 * b + r];
    }
    s
}

// The fallback at place i, as an entry.
fn fallback(bytes: &[u8; 512], keys: &[u32; 512], squares: &[f64; 64], i: usize) -> Entry
    requires { i < 512 }
    ensures { result ≡ fallback_in bytes.now keys.now squares.now i }
{
    let (byte, key) = (bytes[i], keys[i]);
    Entry {
        value: dist_to(squares, byte, key),
        exact: true,
        byte,
        key,
    }
}

// The points of least norm of the end regions, of the first end where kind is even and of the last where it is odd, and of parity p % 2.
pub fn fallbacks(kind: u32, p: u32, t: [f64; 8]) -> [Entry; 128]
    ensures { result ≡ tab (λ (i : ℕ). search.fallback tables t (kind % 2) (p % 2) (i / 64) (i % 64)) 128 }
{
    let bytes = tables::fallback_bytes();
    let keys = tables::fallback_keys();
    let squares = squares(&members(p % 2), t);
    let from = ((kind % 2 * 2 + p % 2) * 128) as usize;
    array::from_fn(|i| fallback(bytes, keys, &squares, from + i))
}
