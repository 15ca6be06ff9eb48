// The listing of the cheap rank vectors: `under_cap` of rank.rs, and the public call, which lists into a buffer that the caller lends.
#![tactic(auto)]

ghost use Rattle.std.specs.Prelude.{◌≡◌, ◌+◌, ◌*◌, ◌-◌, ◌^◌, ◌<◌, ◌≤◌, length};
ghost use Rattle.std.proofs.lemmas.List.Edits.{sets};
ghost use Rattle.rank.specs.Vector.{sq};
ghost use Rattle.listing.specs.Listing.{under};
ghost use Rattle.listing.specs.Lent.{listed_by, answered, written};

use refusal::Refusal;

// The cost at which a branch ends.
const COST_CAP: u32 = 128;

// How many vectors cost less: the cells that the listing takes.
const CELLS: usize = 14674;

// The cost of a rank.
fn square(r: u32) -> u32
    requires { r < 16 }
    ensures { (result ≡ sq r) × (result ≤ 961) }
{
    (2 * r + 1) * (2 * r + 1)
}

// `row`, which holds the ranks of the coordinates below `j`, with the rank `r` of the coordinate `j`.
fn with_rank(row: u32, j: u32, r: u32) -> u32
    requires { (row < 2 ^ (4 * j)) × (j < 8) × (r < 16) }
    ensures { (result ≡ row + r * 2 ^ (4 * j)) × (result < 2 ^ (4 * (j + 1))) }
{
    row | (r << (4 * j))
}

// Writes the vectors that begin with the ranks in `row`, whose cost is `spent`, the last `left` coordinates still open, at the start of `out`,
// and answers how many they are. A rank that takes the cost to the cap ends the loop: costs rise with the rank, and a coordinate that is
// still open costs at least 1.
fn under_cap(out: &mut [u32], row: u32, left: u32, spent: u32) -> usize
    requires { (left ≤ 8) × (spent < 128) × (row < 2 ^ (4 * (8 - left))) × (length (under left row spent) ≤ length out.old) }
    ensures { (result ≡ length (under left row spent)) × (out.new ≡ sets out.old 0 (under left row spent)) }
{
    if left == 0 {
        out[0] = row;
        return 1;
    }
    let rest = left - 1;
    let mut at = 0;
    for r in 0..16u32 {
        let cost = spent + square(r);
        if COST_CAP <= cost + rest {
            break;
        }
        let next = with_rank(row, 7 - rest, r);
        at += under_cap(&mut out[at..], next, rest, cost);
    }
    at
}

// Lists the rank vectors of cost below 128 into `out`, and answers how many cells it filled. A buffer that is too short is refused and stays
// as it was; the cells past the listing stay too.
pub fn list(out: &mut [u32]) -> Result<usize, Refusal>
    ensures { (listed_by result ≡ answered (length out.old)) × (out.new ≡ written out.old) }
{
    if out.len() < CELLS {
        return Err(Refusal::NoRoom);
    }
    let count = under_cap(out, 0, 8, 0);
    Ok(count)
}
