// The tetra code: 48-bit words to points of the Leech lattice, and back.
#![tactic(auto)]

ghost use Rattle.std.specs.Prelude.{◌≡◌, ◌++◌, ◌+◌, ◌*◌, ◌<◌, T, pos, get_or, take, drop};
ghost use Rattle.word.specs.Word.{Narrow, word_of};
ghost use Rattle.rank.specs.Coord.{val_of};
ghost use Rattle.rank.specs.Vector.{ranks_below};
ghost use Rattle.rank.specs.Section.{point_at, uniform, bits_of};
ghost use Rattle.rank.specs.Answers.{marks_of};
ghost use Rattle.rows.specs.Table.{row_ranks, middle_row};
ghost use Rattle.tetra.specs.Lattice.{trio};
ghost use Rattle.tetra.specs.Tetra.{trio_point, trio_point_of, natural, point_of, patterns_of};
ghost use Rattle.tetra.specs.Encode.{fields_by, encoded_by, encode_of};
ghost use Rattle.tetra.specs.Block.{block_at};

// The tables, read by a place, and the lookups of rank vectors: the accessors of the Rust's `Tetra`.
use refusal::Refusal;
pub use rows::{class_index, mixed_index, row};
pub use trellis::{branch, order, prefix, suffix};

// The bytes of a codeword: one for each section.
#[derive(Clone, Copy)]
pub struct Bytes {
    pub c1: u8,
    pub c2: u8,
    pub c3: u8,
}

// ---- from a word to its point
// The member of o + 4Z at the rank `rho`. It stands in crate fallback_entries too: rank's own that has no refusal has a `requires`, which no public
// function may have.
fn value(o: u32, rho: u32) -> i32
    requires { (o < 4) × (rho < 8) }
    ensures { result ≡ val_of o rho }
{
    rank::val(o, rho).unwrap_or(0)
}

// The eight coordinates of parity `p`, of the bits of `c`, bit 0 first, and of the ranks `rho`.
fn section_of(p: u32, c: u32, rho: [u32; 8]) -> [i32; 8]
    requires { (p < 2) × T (ranks_below 8 rho) }
    ensures { result ≡ point_at p c rho }
{
    let mut out = [0i32; 8];
    for j in 0..8u32 {
        out[j as usize] = value(p + 2 * ((c >> j) & 1), rho[j as usize]);
    }
    out
}

// The same with the ranks of row `i`.
fn section_at(p: u32, c: u8, i: u32) -> [i32; 8]
    requires { (p < 2) × (i < 4096) }
    ensures { result ≡ point_at p c (row_ranks i) }
{
    section_of(p, c as u32, rank::unpack(rows::row(i as usize)))
}

// Coordinate `j` of three sections in a row.
fn in_three(a: [i32; 8], b: [i32; 8], c: [i32; 8], j: usize) -> i32
    requires { j < 24 }
    ensures { result ≡ get_or (a ++ (b ++ c)) j (pos 0) }
{
    if j < 8 {
        return a[j];
    }
    if j < 16 {
        return b[j - 8];
    }
    c[j - 16]
}

// Three sections in a row.
fn three(a: [i32; 8], b: [i32; 8], c: [i32; 8]) -> [i32; 24]
    ensures { result ≡ a ++ (b ++ c) }
{
    let mut out = [0i32; 24];
    for j in 0..24usize {
        out[j] = in_three(a, b, c, j);
    }
    out
}

// The number in the table of the middle's row `i`: 1,240 rows of class 0, then those of class 1.
fn middle_row(i: u32) -> u32
    requires { i < 2048 }
    ensures { (result ≡ middle_row i) × (result < 4096) }
{
    if i < rows::N0_MIXED {
        return i;
    }
    rows::CLASS_ROWS + (i - rows::N0_MIXED)
}

// The point of fields that fit their widths, in trio order, by the tables of the trellis.
fn trio_point(f: word::Fields) -> [i32; 24]
    requires { Narrow f }
    ensures { result ≡ trio_point f }
{
    let p = f.p as u32;
    let r = f.r as u32;
    let s8 = f.s8 as usize;
    let m = middle_row(f.i2 as u32);
    let r3 = (p + r + m / rows::CLASS_ROWS) % 2;
    let e = trellis::branch(s8, f.b2 as usize);
    let c1 = trellis::prefix(s8, f.b1 as usize);
    let c3 = trellis::suffix(e.s16 as usize, f.b3 as usize);
    let y1 = section_at(p, c1, rows::CLASS_ROWS * r + (f.i1 as u32));
    let y2 = section_at(p, e.byte, m);
    let y3 = section_at(p, c3, rows::CLASS_ROWS * r3 + (f.i3 as u32));
    three(y1, y2, y3)
}

// From trio order to natural order.
fn to_natural(t: [i32; 24]) -> [i32; 24]
    ensures { result ≡ natural t }
{
    let mut out = [0i32; 24];
    for i in 0..24usize {
        let j = trellis::place(i);
        out[i] = t[j];
    }
    out
}

// The point of a word, in trio order. Bits 47 and up are ignored.
pub fn decode_trio_order(word: u64) -> [i32; 24]
    ensures { result ≡ trio_point_of word }
{
    trio_point(word::Fields::split(word))
}

// The point of a word, in natural order. Bits 47 and up are ignored.
pub fn decode(word: u64) -> [i32; 24]
    ensures { result ≡ point_of word }
{
    to_natural(decode_trio_order(word))
}

// The bytes of a word's codeword, by the columns.
pub fn patterns(word: u64) -> Bytes
    ensures { result ≡ patterns_of word }
{
    let f = word::Fields::split(word);
    let x = trellis::linear_input(f.s8 as u32, f.b1 as u32, f.b2 as u32, f.b3 as u32);
    let c = trellis::codeword(x);
    Bytes {
        c1: (c & 255) as u8,
        c2: ((c >> 8) & 255) as u8,
        c3: ((c >> 16) & 255) as u8,
    }
}

// ---- from a point to its word
// Whether all coordinates have parity `p`.
pub fn one_parity(y: [i32; 24], p: u32) -> bool
    ensures { result ≡ uniform p y }
{
    for j in 0..24usize {
        if rank::parity(y[j]) != p {
            return false;
        }
    }
    true
}

// From natural order to trio order.
fn to_trio(y: [i32; 24]) -> [i32; 24]
    ensures { result ≡ trio y }
{
    let mut out = [0i32; 24];
    for j in 0..24usize {
        let i = trellis::order(j);
        out[j] = y[i];
    }
    out
}

// The bits of the coordinates, coordinate 0 lowest, from the last to the first.
fn bits(t: [i32; 24]) -> u32
    ensures { result ≡ bits_of t }
{
    let mut c: u32 = 0;
    let mut j: usize = 24;
    while 0 < j {
        j -= 1;
        c = (c << 1) | rank::bit(t[j]);
    }
    c
}

// The rank marks of section `s`.
fn marks(t: [i32; 24], s: usize) -> [u32; 8]
    requires { s < 3 }
    ensures { result ≡ marks_of (take 8 (drop (8 * s) t)) }
{
    let mut rho = [0u32; 8];
    for j in 0..8usize {
        rho[j] = rank::mark(t[8 * s + j]);
    }
    rho
}

// The word of fields that fit: parity `p`, the codeword of the label `x`, class `r` and the rows of the sections.
fn word_by(p: u32, x: u32, r: u32, i1: u16, i2: u16, i3: u16) -> u64
    requires { Narrow (fields_by p x r i1 i2 i3) }
    ensures { result ≡ word_of (fields_by p x r i1 i2 i3) }
{
    let f = word::Fields {
        p: p as u8,
        r: r as u8,
        s8: (x & 63) as u8,
        b1: ((x >> 6) & 1) as u8,
        i1,
        b2: ((x >> 7) & 15) as u8,
        i2,
        b3: ((x >> 11) & 1) as u8,
        i3,
        gain: 0,
    };
    f.join().unwrap_or(0)
}

// The word that decodes to a point given in natural order, with gain 0; or why there is none. The tests stand in the order in which the reasons
// are told: one parity, a codeword of bits, three sections within their bounds, and the sum of k. The third section is looked up in its own
// class; that it is not the class which the other two leave to it shows only then, and is the wrong sum.
pub fn encode(point: [i32; 24]) -> Result<u64, Refusal>
    ensures { encoded_by result ≡ encode_of point }
{
    let p = rank::parity(point[0]);
    if !one_parity(point, p) {
        return Err(Refusal::MixedParity);
    }
    let t = to_trio(point);
    let x = trellis::label_of(bits(t)).ok_or(Refusal::NoCodeword)?;
    let Some(first) = rows::class_index(marks(t, 0)) else {
        return Err(Refusal::Outside { section: 1 });
    };
    let Some(middle) = rows::mixed_index(marks(t, 1)) else {
        return Err(Refusal::Outside { section: 2 });
    };
    let Some(last) = rows::class_index(marks(t, 2)) else {
        return Err(Refusal::Outside { section: 3 });
    };
    if last.class != (p + first.class + middle.class) % 2 {
        return Err(Refusal::WrongSum);
    }
    Ok(word_by(p, x, first.class, first.index, middle.index, last.index))
}

// ---- a block of a longer list
// The number at `from + j`, or 0 where the list ends before it.
fn number_at(s: &[i32], from: usize, j: usize) -> i32
    ensures { result ≡ get_or s.now (from + j) (pos 0) }
{
    if from < s.len() {
        if j < s.len() - from {
            return s[from + j];
        }
    }
    0
}

// The 24 numbers from place `from` on, as a point or the counts of a block stand in a longer list; 0 for those past its end.
pub fn block(s: &[i32], from: usize) -> [i32; 24]
    ensures { result ≡ block_at s.now from }
{
    let mut out = [0i32; 24];
    for j in 0..24usize {
        out[j] = number_at(s, from, j);
    }
    out
}
