// The rounding records of a section, and the same as flat rows: `Tables::build` of the Rust's encoder.rs.
// The idea: all that the search asks of a coordinate is worked out once per section and parity, for 8
// shrinks, 8 coordinates and 2 pattern bits. The records are then laid out field by field as flat rows, which
// the crates above read in place.
#![tactic(auto)]

ghost use Rattle.std.specs.Prelude.{◌≡◌, cond, ◌<◌, ◌≤◌, ◌+◌, ◌%◌, pos, negsuc, nat_abs, get_or, ltb};
ghost use Rattle.std.specs.Int.Signed.{lt_z};
ghost use Rattle.std.specs.Float.{nan};
ghost use Rattle.rank.specs.Vector as vector;
ghost use Rattle.rank.specs.Answers.{reach, no_rank, mark_of};
ghost use Rattle.float.specs.Calls.{rounded};
ghost use Rattle.search.specs.Record.{member, coord_from, coord_of, shrinks};
ghost use Rattle.coord.specs.Inner.Rows.{coord_in, table_of, rows_of};
ghost use Rattle.coord.specs.Inner.{unbiased, slot_of};

use search::Coord;

// How far the targets are drawn in, one after the other.
const SHRINKS: [f64; search::SHRINKS] = [1.0, 0.85, 0.7, 0.55, 0.4, 0.25, 0.1, 0.0];

// The member o + 4k of one k: its rank mark, its weight, its squared distance to the target.
#[derive(Clone, Copy)]
struct Slot {
    rank: u8,
    w: u16,
    d: f64,
}

// The records of a section as flat rows. Record i is at shrink i / 16, coordinate i / 2 % 8, pattern bit i % 2; slot f of record i stands at
// 5 * i + f in `dist`, `weight` and `rank`; `odd` holds the parity of its rounding, `up` whether its target lies above that. The search reads
// the rows in place: they are lent, and no row is copied.
#[derive(Clone, Copy)]
pub struct Rows {
    pub regret: [f64; 128],
    pub dist: [f64; 640],
    pub weight: [u16; 640],
    pub rank: [u8; 640],
    pub odd: [u8; 128],
    pub up: [bool; 128],
}

// ---- one slot. k is counted from -1048576 on: kk = k + 1048576.

// The mark of a rank: 15 where it is past the lookup's reach.
fn mark(r: u32) -> u8
    ensures { (result ≡ cond (ltb r reach) r no_rank) × (result < 16) }
{
    if r < rank::REACH {
        r as u8
    } else {
        rank::NO_RANK as u8
    }
}

// The rank mark of o + 4k: half the magnitude, the member above zero before the one as far below it.
fn rank_at(o: u32, kk: u32) -> u8
    requires { (o < 4) × (kk < 2097152) }
    ensures { (result ≡ mark_of (member o (unbiased kk))) × (result < 16) }
{
    let a = o + 4 * kk;
    if a <= 4194304 {
        return mark((4194304 - a) / 2);
    }
    mark((a - 4194305) / 2)
}

fn weight(r: u8) -> u16
    requires { r < 16 }
    ensures { result ≡ vector.sq r }
{
    let a = 2 * (r as u16) + 1;
    a * a
}

// o + 4k as a whole number.
fn value(o: u32, kk: u32) -> i32
    requires { (o < 4) × (kk < 2097152) }
    ensures { result ≡ member o (unbiased kk) }
{
    ((o + 4 * kk) as i32) - 4194304
}

fn slot_of(t: f64, o: u32, kk: u32) -> Slot
    requires { (o < 4) × (kk < 2097152) }
    ensures { result ≡ slot_of t o (unbiased kk) }
{
    let rank = rank_at(o, kk);
    let w = weight(rank);
    let e = (value(o, kk) as f64) - t;
    Slot { rank, w, d: e * e }
}

// ---- one record

// The rounding, whose size is at most a million.
fn rounding(z: f64) -> i32
    ensures { (result ≡ rounded z) × (nat_abs result ≤ 1000000) }
{
    float::round(z)
}

// The k of the first slot, counted from -1048576 on.
fn first(k: i32) -> u32
    requires { nat_abs k ≤ 1000000 }
    ensures { (k ≡ unbiased (result + 2)) × (result < 2050000) }
{
    (k + 1048574) as u32
}

// The direction from the rounding to the target: up where the target lies above it.
fn side(above: bool) -> i32
    ensures { result ≡ cond above (pos 1) (negsuc 0) }
{
    if above {
        return 1;
    }
    -1
}

fn record_of(t: f64, o: u32, z: f64, k: i32) -> Coord
    requires { (o < 4) × (nat_abs k ≤ 1000000) }
    ensures { result ≡ coord_from t o z k }
{
    let x = k as f64;
    let dir = side(z > x);
    let off = float::abs(z - x);
    let kk = first(k);
    let a = slot_of(t, o, kk);
    let b = slot_of(t, o, kk + 1);
    let c = slot_of(t, o, kk + 2);
    let d = slot_of(t, o, kk + 3);
    let e = slot_of(t, o, kk + 4);
    Coord {
        k0: k,
        dir,
        regret: off,
        rank: [a.rank, b.rank, c.rank, d.rank, e.rank],
        w: [a.w, b.w, c.w, d.w, e.w],
        d: [a.d, b.d, c.d, d.d, e.d],
    }
}

// The record of the target t at a shrink, under the offset o modulo 4. The distances are to t itself.
pub fn coord_of(t: f64, shrink: f64, o: u32) -> Coord
    ensures { result ≡ coord_of t shrink (o % 4) }
{
    let low = o % 4;
    let z = (t * shrink - (low as f64)) / 4.0;
    let k = rounding(z);
    record_of(t, low, float::clamp(z), k)
}

// ---- the records of a section

fn shrink_at(i: usize) -> f64
    requires { i < 8 }
    ensures { result ≡ get_or shrinks i nan }
{
    SHRINKS[i]
}

// Record i: shrink i / 16, coordinate i / 2 % 8, pattern bit i % 2.
fn record_at(t: [f64; 8], p: u32, i: usize) -> Coord
    requires { (p < 2) × (i < 128) }
    ensures { result ≡ coord_in t p i }
{
    coord_of(t[(i / 2) % 8], shrink_at(i / 16), p + 2 * ((i % 2) as u32))
}

// ---- the flat rows

fn above(dir: i32) -> bool
    ensures { result ≡ lt_z (pos 0) dir }
{
    0 < dir
}

// The rows of a section's eight targets at the parity p modulo 2, record by record.
pub fn rows_of(t: [f64; 8], p: u32) -> Rows
    ensures { result ≡ rows_of (table_of t (p % 2)) }
{
    let low = p % 2;
    let mut regret = [0.0f64; 128];
    let mut dist = [0.0f64; 640];
    let mut weight = [0u16; 640];
    let mut rank = [0u8; 640];
    let mut odd = [0u8; 128];
    let mut up = [false; 128];
    for i in 0..128usize {
        let c = record_at(t, low, i);
        regret[i] = c.regret;
        odd[i] = rank::parity(c.k0) as u8;
        up[i] = above(c.dir);
        for f in 0..5usize {
            let k = 5 * i + f;
            dist[k] = c.d[f];
            weight[k] = c.w[f];
            rank[k] = c.rank[f];
        }
    }
    Rows {
        regret,
        dist,
        weight,
        rank,
        odd,
        up,
    }
}
