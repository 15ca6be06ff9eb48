// The Golay code in trio order: codewords by columns, the trellis of three sections by tables, and the ways back.
#![tactic(auto)]

mod tables;

ghost use Rattle.std.specs.Prelude.{◌≡◌, [], get_or};
ghost use Rattle.trellis.specs.Code.{codeword_of, columns, input_of};
ghost use Rattle.trellis.specs.Trio.{order, places};
ghost use Rattle.trellis.specs.Tables as tables;
ghost use Rattle.trellis.specs.Laws.Rows.{sums_of};
ghost use Rattle.trellis.specs.Trellis.{
  pairs_of,
  middle_sets,
  first_nexts,
  prefix_of,
  middle_of,
  next_of,
  branch_of,
  suffix_of,
  opening_of,
  passage_of,
  closing_of,
  label_in,
};

use std::array;

// ---- codewords
// s8, b1, b2, b3, each cut to its width, packed at 0, 6, 7, 11.
pub fn linear_input(s8: u32, b1: u32, b2: u32, b3: u32) -> u32
    ensures { result ≡ input_of s8 b1 b2 b3 }
{
    (s8 & 63) | ((b1 & 1) << 6) | ((b2 & 15) << 7) | ((b3 & 1) << 11)
}

const COLUMNS: [u32; 12] = [
    0x2d002e, 0x3a005a, 0x740033, 0x03061e, 0x050963, 0x090578, 0x0000ff, 0x2d1d00, 0x3a2b00,
    0x744700, 0x638e00, 0xff0000,
];

// The columns of the way back, from a codeword to its label.
const BACK: [u32; 17] = [
    0xe55, 0x7d8, 0xced, 0x1ce, 0xb73, 0x2fa, 0xd67, 0, 0xb80, 0xf00, 0x680, 0x580, 0, 0, 0, 0,
    0x800,
];

// The exclusive-or of the columns at the set bits of `x`, from its lowest bit on. A bit past the last column names none, and is left out.
fn combine(columns: &[u32], x: u32) -> u32
    ensures { result ≡ codeword_of columns.now x }
{
    let mut word = 0;
    let mut rest = x;
    for column in columns {
        if rest & 1 == 1 {
            word ^= *column;
        }
        rest >>= 1;
    }
    word
}

// The codeword of the label `x`. Bits of `x` past the twelfth name no column, and are left out.
pub fn codeword(x: u32) -> u32
    ensures { result ≡ codeword_of columns x }
{
    combine(&COLUMNS, x)
}

// The label below 4096 whose codeword is `c`; none where `c` is no codeword.
pub fn label_of(c: u32) -> Option<u32>
    ensures { result ≡ label_in c }
{
    let x = combine(&BACK, c);
    if codeword(x) == c { Some(x) } else { None }
}

// ---- trio order
// The entry `i` of a table of coordinates or places; 0 past its end.
fn number_at(table: &[u8; 24], i: usize) -> usize
    ensures { result ≡ get_or table.now i 0 }
{
    usize::from(table.get(i).copied().unwrap_or(0))
}

// The coordinate at place `j` of trio order; 0 past the last place.
pub fn order(j: usize) -> usize
    ensures { result ≡ get_or order j 0 }
{
    number_at(&tables::ORDER, j)
}

// The place of coordinate `i` in trio order; 0 past the last coordinate.
pub fn place(i: usize) -> usize
    ensures { result ≡ get_or places i 0 }
{
    number_at(&tables::PLACES, i)
}

// ---- the trellis
// A branch out of a state at cut 8: its middle byte, and the state at cut 16 that it leads to.
#[derive(Clone, Copy)]
pub struct Edge {
    pub byte: u8,
    pub s16: u8,
}

// The byte of bit `b` in the pair of state `s`; 0 where there is none.
fn byte_of(pairs: &[[u8; 2]; 64], s: usize, b: usize) -> u8
    ensures { result ≡ get_or (get_or pairs.now s []) b 0 }
{
    match pairs.get(s) {
        Some(pair) => pair.get(b).copied().unwrap_or(0),
        None => 0,
    }
}

// The prefix byte of state `s8` and bit `b1`; 0 where there is none.
pub fn prefix(s8: usize, b1: usize) -> u8
    ensures { result ≡ prefix_of s8 b1 }
{
    byte_of(&tables::PREFIXES, s8, b1)
}

// The middle byte of branch `b2` out of state `s8`; 0 where there is none.
pub fn middle(s8: usize, b2: usize) -> u8
    ensures { result ≡ middle_of s8 b2 }
{
    if 64 <= s8 || 16 <= b2 {
        return 0;
    }
    tables::MIDDLES[b2] ^ tables::SETS[s8 / 8]
}

// The state at cut 16 that branch `b2` out of state `s8` leads to; 0 where there is none. The state of a sum of codewords is the sum of their
// states: s8 / 8 stands for three columns of its own, s8 % 8 for those of the first eight branches.
fn next(s8: usize, b2: usize) -> u8
    ensures { result ≡ next_of s8 b2 }
{
    if 64 <= s8 || 16 <= b2 {
        return 0;
    }
    let by = &tables::NEXTS;
    ((s8 / 8) as u8) ^ by[s8 % 8] ^ by[b2]
}

// The branch `b2` out of state `s8`; zeros where there is none.
pub fn branch(s8: usize, b2: usize) -> Edge
    ensures { result ≡ branch_of s8 b2 }
{
    Edge {
        byte: middle(s8, b2),
        s16: next(s8, b2),
    }
}

// The suffix byte of state `s16` and bit `b3`; 0 where there is none.
pub fn suffix(s16: usize, b3: usize) -> u8
    ensures { result ≡ suffix_of s16 b3 }
{
    byte_of(&tables::SUFFIXES, s16, b3)
}

// The tables whole, for a search that reads them again and again: a constant array is made anew wherever it is read. The two prefix bytes of
// each state at cut 8,
pub fn prefixes() -> [[u8; 2]; 64]
    ensures { result ≡ pairs_of tables.prefixes }
{
    tables::PREFIXES
}

// the two suffix bytes of each state at cut 16,
pub fn suffixes() -> [[u8; 2]; 64]
    ensures { result ≡ pairs_of tables.suffixes }
{
    tables::SUFFIXES
}

// Each of `first` added to all of `row`, one after the other.
fn sums(first: &[u8; 8], row: &[u8; 16]) -> [u8; 128]
    ensures { result ≡ sums_of first.now row.now }
{
    array::from_fn(|i| row[i % 16] ^ first[i / 16])
}

// the eight sets of sixteen middle bytes, those of the states 0, 8, .., 56,
pub fn middle_sets() -> [u8; 128]
    ensures { result ≡ middle_sets }
{
    sums(&tables::SETS, &tables::MIDDLES)
}

// and the states at cut 16 that the branches out of the states 0 to 7 lead to. State s leads where state s % 8 does, with the bits of s / 8 turned.
pub fn nexts() -> [u8; 128]
    ensures { result ≡ first_nexts }
{
    sums(&tables::FIRST_NEXTS, &tables::NEXTS)
}

// ---- the ways back
// The state at cut 8 and the bit b1 of the prefix byte `c1`, which the way back finds by the first byte alone; none where it is no prefix byte.
pub fn state_of_prefix(c1: u8) -> Option<(u8, u8)>
    ensures { result ≡ opening_of c1 }
{
    let x = combine(&BACK, c1 as u32);
    let s8 = (x % 64) as u8;
    let b1 = (x / 64 % 2) as u8;
    if prefix(s8 as usize, b1 as usize) == c1 {
        return Some((s8, b1));
    }
    None
}

// The branch b2 of the middle byte `c2` out of state `s8`, and the state at cut 16 that it leads to; none where the state has no such branch, as a
// state past 63 has none. The middle bytes of a state ascend, and the high half of each is its place.
pub fn branch_of(s8: u8, c2: u8) -> Option<(u8, u8)>
    ensures { result ≡ passage_of s8 c2 }
{
    if 64 <= s8 {
        return None;
    }
    let b2 = c2 >> 4;
    let b = branch(s8 as usize, b2 as usize);
    if b.byte == c2 {
        return Some((b2, b.s16));
    }
    None
}

// The bit b3 of the suffix byte `c3` into state `s16`; none where the state has no such suffix byte, as a state past 63 has none.
pub fn suffix_of(s16: u8, c3: u8) -> Option<u8>
    ensures { result ≡ closing_of s16 c3 }
{
    if 64 <= s16 {
        return None;
    }
    if suffix(s16 as usize, 0) == c3 {
        return Some(0);
    }
    if suffix(s16 as usize, 1) == c3 {
        return Some(1);
    }
    None
}
