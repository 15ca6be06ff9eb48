// Prints what the functions of rank and rows answer on document 01's examples and at the edges of what they take.
#![tactic(auto)]

use rank::Bound;
use refusal::Refusal;
use rows::Seat;
use std::io;

fn text(rt: &impl Print, t: &str) -> io::Result<()> {
    rt.print(t)
}

// A number after a label.
fn part(rt: &impl Print, label: &str, n: u32) -> io::Result<()> {
    print!(rt; "{label}{n}")
}

// A number with its sign after a label.
fn signed_part(rt: &impl Print, label: &str, n: i32) -> io::Result<()> {
    text(rt, label)?;
    if n < 0 {
        text(rt, "-")?;
    }
    let m = text::magnitude(n);
    print!(rt; "{m}")
}

// Eight hexadecimal digits.
fn hex(rt: &impl Print, n: u32) -> io::Result<()> {
    print!(rt; "{n:08x}")
}

fn ranks(rt: &impl Print, rho: [u32; 8]) -> io::Result<()> {
    part(rt, " ", rho[0])?;
    part(rt, " ", rho[1])?;
    part(rt, " ", rho[2])?;
    part(rt, " ", rho[3])?;
    part(rt, " ", rho[4])?;
    part(rt, " ", rho[5])?;
    part(rt, " ", rho[6])?;
    part(rt, " ", rho[7])
}

// The number of an answer: 0, or that of the refusal.
fn number<T>(answer: &Result<T, Refusal>) -> u32 {
    match answer {
        Ok(_) => 0,
        Err(reason) => reason.number(),
    }
}

fn show_val(rt: &impl Print, o: u32, rho: u32) -> io::Result<()> {
    part(rt, "val ", o)?;
    part(rt, " ", rho)?;
    let v = rank::val(o, rho);
    part(rt, ": number ", number(&v))?;
    signed_part(rt, " value ", v.unwrap_or(0))?;
    text(rt, "\n")
}

fn show_rank(rt: &impl Print, o: u32, y: i32) -> io::Result<()> {
    part(rt, "rank_of ", o)?;
    signed_part(rt, " ", y)?;
    match rank::rank_of(o, y) {
        Ok(Some(rho)) => part(rt, ": rank ", rho)?,
        Ok(None) => text(rt, ": none")?,
        Err(reason) => part(rt, ": refused ", reason.number())?,
    }
    text(rt, "\n")
}

fn show_class(rt: &impl Print, rho: [u32; 8]) -> io::Result<()> {
    text(rt, "rank_class")?;
    ranks(rt, rho)?;
    let a = rank::rank_class(rho);
    part(rt, ": number ", number(&a))?;
    part(rt, " class ", a.unwrap_or(0))?;
    text(rt, "\n")
}

fn show_cost(rt: &impl Print, rho: [u32; 8]) -> io::Result<()> {
    text(rt, "cost")?;
    ranks(rt, rho)?;
    let a = rank::cost(rho);
    part(rt, ": number ", number(&a))?;
    part(rt, " cost ", a.unwrap_or(0))?;
    text(rt, "\n")
}

fn show_held(rt: &impl Print, name: &str, b: Bound, rho: [u32; 8]) -> io::Result<()> {
    text(rt, name)?;
    ranks(rt, rho)?;
    let a = b.contains(rho);
    part(rt, ": number ", number(&a))?;
    text(
        rt,
        if a.unwrap_or(false) {
            " yes\n"
        } else {
            " no\n"
        },
    )
}

fn show_coordinate(rt: &impl Print, y: i32) -> io::Result<()> {
    signed_part(rt, "coordinate ", y)?;
    part(rt, ": residue ", rank::residue(y))?;
    part(rt, " parity ", rank::parity(y))?;
    part(rt, " bit ", rank::bit(y))?;
    part(rt, " mark ", rank::mark(y))?;
    text(rt, "\n")
}

fn show_pack(rt: &impl Print, rho: [u32; 8]) -> io::Result<()> {
    text(rt, "pack")?;
    ranks(rt, rho)?;
    let row = rank::pack(rho);
    text(rt, ": ")?;
    hex(rt, row)?;
    text(rt, " unpacks to")?;
    ranks(rt, rank::unpack(row))?;
    text(rt, "\n")
}

fn seat(rt: &impl Print, s: Option<Seat>) -> io::Result<()> {
    match s {
        Some(Seat { class, index }) => {
            part(rt, ": class ", class)?;
            part(rt, " index ", index as u32)?;
        }
        None => text(rt, ": none")?,
    }
    text(rt, "\n")
}

fn show_class_index(rt: &impl Print, rho: [u32; 8]) -> io::Result<()> {
    text(rt, "class_index")?;
    ranks(rt, rho)?;
    seat(rt, rows::class_index(rho))
}

fn show_mixed_index(rt: &impl Print, rho: [u32; 8]) -> io::Result<()> {
    text(rt, "mixed_index")?;
    ranks(rt, rho)?;
    seat(rt, rows::mixed_index(rho))
}

fn show_row(rt: &impl Print, i: u32) -> io::Result<()> {
    part(rt, "row ", i)?;
    text(rt, ": ")?;
    hex(rt, rows::row(i as usize))?;
    text(rt, "\n")
}

fn show_find(rt: &impl Print, w: u32) -> io::Result<()> {
    text(rt, "find ")?;
    hex(rt, w)?;
    part(rt, ": ", rows::find(w).unwrap_or(rows::ROWS))?;
    text(rt, "\n")
}

fn values(rt: &impl Print) -> io::Result<()> {
    show_val(rt, 0, 0)?;
    show_val(rt, 0, 1)?;
    show_val(rt, 0, 2)?;
    show_val(rt, 3, 0)?;
    show_val(rt, 3, 7)?;
    show_val(rt, 4, 0)?;
    show_val(rt, 0, 8)
}

fn lookups(rt: &impl Print) -> io::Result<()> {
    show_rank(rt, 0, -4)?;
    show_rank(rt, 1, -3)?;
    show_rank(rt, 1, -4)?;
    show_rank(rt, 0, 16)?;
    show_rank(rt, 0, -16)?;
    show_rank(rt, 4, 0)
}

fn coordinates(rt: &impl Print) -> io::Result<()> {
    show_coordinate(rt, -3)?;
    show_coordinate(rt, 12)?;
    show_coordinate(rt, -16)?;
    show_coordinate(rt, -2147483648)
}

fn bounds(rt: &impl Print) -> io::Result<()> {
    let rho = [3, 0, 0, 0, 1, 1, 0, 0];
    show_cost(rt, rho)?;
    show_class(rt, rho)?;
    show_held(rt, "middle", rank::MIXED_BOUND, rho)?;
    show_held(rt, "class 0", rank::CLASS_BOUNDS[0], rho)?;
    show_held(rt, "middle", rank::mixed_bound(), [1, 1, 1, 1, 1, 1, 1, 1])
}

fn cuts(rt: &impl Print) -> io::Result<()> {
    show_held(rt, "middle", rank::mixed_bound(), [3, 0, 0, 0, 1, 0, 1, 0])?;
    show_held(
        rt,
        "class 1",
        rank::class_bound(1),
        [0, 0, 2, 2, 2, 0, 1, 1],
    )?;
    show_held(
        rt,
        "class 1",
        rank::class_bound(1),
        [0, 0, 2, 2, 2, 0, 1, 2],
    )
}

fn edges(rt: &impl Print) -> io::Result<()> {
    show_class(rt, [0, 0, 0, 0, 0, 0, 0, 7])?;
    show_class(rt, [0, 0, 0, 0, 0, 0, 0, 8])?;
    show_cost(rt, [15, 15, 15, 15, 15, 15, 15, 15])?;
    show_cost(rt, [16, 0, 0, 0, 0, 0, 0, 0])?;
    show_held(rt, "middle", rank::mixed_bound(), [0, 0, 0, 0, 0, 0, 0, 16])?;
    show_pack(rt, [1, 2, 3, 4, 0, 0, 0, 15])?;
    show_pack(rt, [16, 0, 0, 0, 0, 0, 0, 17])
}

// The last row of each class and the vector after it, those of the middle section, and vectors that no packed row is.
fn seats(rt: &impl Print) -> io::Result<()> {
    show_class_index(rt, [1, 1, 0, 3, 0, 0, 1, 1])?;
    show_class_index(rt, [1, 1, 0, 3, 0, 1, 0, 1])?;
    show_class_index(rt, [0, 0, 2, 2, 2, 0, 1, 1])?;
    show_class_index(rt, [0, 0, 2, 2, 2, 1, 0, 1])?;
    show_mixed_index(rt, [3, 0, 0, 0, 1, 0, 1, 0])?;
    show_mixed_index(rt, [3, 0, 0, 0, 1, 1, 0, 0])?;
    show_mixed_index(rt, [0, 0, 0, 0, 0, 0, 0, 1])?;
    show_class_index(rt, [16, 0, 0, 0, 0, 0, 0, 0])?;
    show_class_index(rt, [5, 0, 0, 0, 0, 0, 0, 0])
}

fn packed_rows(rt: &impl Print) -> io::Result<()> {
    show_row(rt, 0)?;
    show_row(rt, 2047)?;
    show_row(rt, 2048)?;
    show_row(rt, 4095)?;
    show_row(rt, 4096)?;
    show_find(rt, 0)?;
    show_find(rt, 0x11003011)?;
    show_find(rt, 0x10000000)?;
    show_find(rt, 0x11022200)?;
    show_find(rt, 0xffffffff)
}

fn main(rt: HostRuntime) -> io::Result<()> {
    values(&rt)?;
    lookups(&rt)?;
    coordinates(&rt)?;
    bounds(&rt)?;
    cuts(&rt)?;
    edges(&rt)?;
    seats(&rt)?;
    packed_rows(&rt)
}
