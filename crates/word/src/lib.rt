// The 48-bit word: ten fields, cut apart and joined back. Bit 0 is the least significant one.
#![tactic(auto)]

ghost use Rattle.std.specs.Prelude.{◌≡◌, ◌+◌, ◌*◌, ◌^◌, ◌<◌, ◌≤◌};
ghost use Rattle.word.specs.Word.{field_at, fields_of, fits, Narrow, word_of, joined_by, join_of};

use refusal::Refusal;

// Where a field stands: its low bit and its width.
#[derive(Clone, Copy)]
struct Slot {
    lo: u32,
    width: u32,
}

impl Slot {
    // The field of `word` that stands here.
    fn get(self, word: u64) -> u64
        requires { (self.lo < 64) × (self.width < 64) }
        ensures { (result ≡ field_at self.lo self.width word) × (result < 2 ^ self.width) }
    {
        (word >> self.lo) & ((1u64 << self.width) - 1)
    }

    // `below`, which ends where this field starts, with `value` put above it.
    fn put(self, below: u64, value: u64) -> u64
        requires { (below < 2 ^ self.lo) × (value < 2 ^ self.width) × (self.lo + self.width ≤ 64) × (self.lo < 64) }
        ensures { (result ≡ below + value * 2 ^ self.lo) × (result < 2 ^ (self.lo + self.width)) }
    {
        below | (value << self.lo)
    }
}

const P: Slot = Slot { lo: 0, width: 1 };

const R: Slot = Slot { lo: 1, width: 1 };

const S8: Slot = Slot { lo: 2, width: 6 };

const B1: Slot = Slot { lo: 8, width: 1 };

const I1: Slot = Slot { lo: 9, width: 11 };

const B2: Slot = Slot { lo: 20, width: 4 };

const I2: Slot = Slot { lo: 24, width: 11 };

const B3: Slot = Slot { lo: 35, width: 1 };

const I3: Slot = Slot { lo: 36, width: 11 };

const GAIN: Slot = Slot { lo: 47, width: 1 };

// The fields of a word, lowest first, each in the narrowest type that holds it.
#[derive(Clone, Copy)]
pub struct Fields {
    pub p: u8, // the parity that the 24 coordinates share
    pub r: u8, // the class of section 1
    pub s8: u8, // the state at cut 8
    pub b1: u8, // which of its two prefixes
    pub i1: u16, // the row of section 1 in its class
    pub b2: u8, // the branch out of the state
    pub i2: u16, // the row of section 2 in the middle's order
    pub b3: u8, // which of the two suffixes at cut 16
    pub i3: u16, // the row of section 3 in its class
    pub gain: u8, // carried by the word, never decoded
}

impl Fields {
    // A word's fields. Bits 48 and up are ignored.
    pub fn split(word: u64) -> Fields
        ensures { result ≡ fields_of word }
    {
        Fields {
            p: P.get(word) as u8,
            r: R.get(word) as u8,
            s8: S8.get(word) as u8,
            b1: B1.get(word) as u8,
            i1: I1.get(word) as u16,
            b2: B2.get(word) as u8,
            i2: I2.get(word) as u16,
            b3: B3.get(word) as u8,
            i3: I3.get(word) as u16,
            gain: GAIN.get(word) as u8,
        }
    }

    // The word of the fields. A field that does not fit its width is refused: cut to its width, it would name another point.
    #[tactic(auto, unfolding(crate::specs::Word::join_of))]
    pub fn join(self) -> Result<u64, Refusal>
        ensures { joined_by result ≡ join_of self }
    {
        if fits(self) {
            Ok(put_all(self))
        } else {
            Err(Refusal::TooWide)
        }
    }
}

// Whether each field fits its width.
fn fits(f: Fields) -> bool
    ensures { result ≡ fits f }
{
    (f.p < 2)
        & (f.r < 2)
        & (f.s8 < 64)
        & (f.b1 < 2)
        & (f.i1 < 2048)
        & (f.b2 < 16)
        & (f.i2 < 2048)
        & (f.b3 < 2)
        & (f.i3 < 2048)
        & (f.gain < 2)
}

// The word of fields that fit.
fn put_all(f: Fields) -> u64
    requires { Narrow f }
    ensures { result ≡ word_of f }
{
    let w = P.put(0, u64::from(f.p));
    let w = R.put(w, u64::from(f.r));
    let w = S8.put(w, u64::from(f.s8));
    let w = B1.put(w, u64::from(f.b1));
    let w = I1.put(w, u64::from(f.i1));
    let w = B2.put(w, u64::from(f.b2));
    let w = I2.put(w, u64::from(f.i2));
    let w = B3.put(w, u64::from(f.b3));
    let w = I3.put(w, u64::from(f.i3));
    GAIN.put(w, u64::from(f.gain))
}
