// The table of 4,096 rank vectors, and the lookups in it.
#![tactic(auto)]

mod tables;

ghost use Rattle.std.specs.Prelude.{◌≡◌, cond, ℕ, ◌<◌, get_or};
ghost use Rattle.rank.specs.Vector.{unpack, within};
ghost use Rattle.rows.specs.Rows.{rows};
ghost use Rattle.rows.specs.Table.{row_of, number_of, find_of, seat_of, class_index_of, middle_rows, middle_seat, mixed_index_of};

use rank::Bound;

// Largest rank any row holds.
pub const MAX_RANK: u32 = 4;

// Rows of the table: two classes.
pub const ROWS: u32 = 4096;

// Rows per class.
pub const CLASS_ROWS: u32 = 2048;

// Rows of class 0 among the middle section's 2,048.
pub const N0_MIXED: u32 = 1240;

// Where a rank vector stands: its class, and its index there.
#[derive(Clone, Copy)]
pub struct Seat {
    pub class: u32,
    pub index: u16,
}

// The table. The only function that reads the constant, which is made anew at each call: who looks at many rows asks once and lends it on.
pub fn rows() -> [u32; 4096]
    ensures { result ≡ rows }
{
    tables::TABLE
}

// Whether the packed row `x` comes no later than the last vector of the bound: by cost, then by ranks, coordinate 0 most significant.
fn no_later(x: u32, last: Bound) -> bool
    ensures { result ≡ within last.cost last.cut (unpack 8 x) }
{
    last.contains(rank::unpack(x)).unwrap_or(false)
}

// The only number that the packed row can have in the table, by a search among the rows of its class.
fn place_of(t: &[u32; 4096], w: u32) -> usize
    requires { t.now ≡ rows }
    ensures { (result < 4096) × ((i : ℕ) → i < 4096 → get_or rows i 0 ≡ w → i ≡ result) }
{
    let rho = rank::unpack(w);
    let cost = rank::cost(rho).unwrap_or(0);
    let last = Bound { cost, cut: rho };
    // A vector with a rank above 7 is refused a class and gets 0; no row is one.
    let class = rank::rank_class(rho).unwrap_or(0);
    let from = (CLASS_ROWS * class) as usize;
    let of_class = &t[from..from + CLASS_ROWS as usize];
    // Of the rows that come no later than the vector, the last one is the vector, or no row is.
    let upto = of_class.partition_point(|x| no_later(*x, last));
    from + upto.saturating_sub(1)
}

// Row `x`; or, looked up `back`, the number of the row packed in `x`: where there is one. Both ways of looking are one function, so that the table
// is made in one place of a program: making it takes 15 KB of code beside its 16 KiB of numbers (tools/rom.sh counts them).
fn look(back: bool, x: u32) -> Option<u32>
    ensures { result ≡ cond back (number_of (find_of x)) (row_of x) }
{
    let t = rows();
    if back {
        let i = place_of(&t, x);
        if t[i] == x {
            return Some(i as u32);
        }
        return None;
    }
    if x < ROWS {
        return Some(t[x as usize]);
    }
    None
}

// Row `i`, packed. 0 past the table and no Option: the clause says so of every `i`. The table is not made for a place past it.
pub fn row(i: usize) -> u32
    ensures { result ≡ get_or rows i 0 }
{
    if i < ROWS as usize {
        return look(false, i as u32).unwrap_or(0);
    }
    0
}

// The number of the row packed in `w`, if there is one.
pub fn find(w: u32) -> Option<u32>
    ensures { result ≡ number_of (find_of w) }
{
    look(true, w)
}

// The class and the index of row `p`.
fn seat_of(p: u32) -> Seat
    ensures { result ≡ seat_of p }
{
    Seat {
        class: p / CLASS_ROWS,
        index: (p % CLASS_ROWS) as u16,
    }
}

// The class of a rank vector and its index there, if it is a row. Packing keeps four bits of a rank, so the ranks are tested first.
pub fn class_index(rho: [u32; 8]) -> Option<Seat>
    ensures { result ≡ class_index_of rho }
{
    if rank::all_below(rho, MAX_RANK + 1) {
        return find(rank::pack(rho)).map(seat_of);
    }
    None
}

// How many rows of a class the middle section uses.
fn middle_rows(class: u32) -> u32
    ensures { result ≡ middle_rows class }
{
    if class == 0 {
        return N0_MIXED;
    }
    CLASS_ROWS - N0_MIXED
}

// From a class and the index in it to the middle section's index.
fn middle_seat(seat: Seat) -> Option<Seat>
    requires { (seat.class < 2) × (seat.index < 2048) }
    ensures { result ≡ middle_seat (Some seat) }
{
    let index = seat.index as u32;
    if index < middle_rows(seat.class) {
        return Some(Seat {
            class: seat.class,
            index: (index + N0_MIXED * seat.class) as u16,
        });
    }
    None
}

// The class of a rank vector and its index among the middle section's rows, if it is one of them: class 0 first, then class 1.
pub fn mixed_index(rho: [u32; 8]) -> Option<Seat>
    ensures { result ≡ mixed_index_of rho }
{
    let seat = class_index(rho)?;
    middle_seat(seat)
}
