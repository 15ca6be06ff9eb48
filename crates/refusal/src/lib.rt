// The reasons for which a call refuses bad input, each with its number: the list of document 01 and, from 10 on, of document 02. Every crate that refuses takes them from here, so
// that a reason stands in one place of the code and, in specs/Refusal, in one place of the definitions. A call that is accepted carries 0.
#![tactic(auto)]

ghost use Rattle.std.specs.Prelude.{◌≡◌};
ghost use Rattle.refusal.specs.Refusal.{numbers, number_of, section_of};

// Why a call is refused.
#[derive(Clone, Copy, Debug, PartialEq, Eq)]
pub enum Refusal {
    // 1: a sample is a NaN or infinite.
    NotFinite,
    // 2: a sample's magnitude exceeds 1e290; one of a page that is written, 32767.
    TooLarge,
    // 3: the scale is not a finite number above 0; a page's num is not from 1 to 65535.
    NoScale,
    // 4: a quotient of a sample by the scale exceeds 1e6 in magnitude.
    TooFar,
    // 5: a point's coordinates are not all even or all odd.
    MixedParity,
    // 6: a field does not fit its width.
    TooWide,
    // 7: a residue, a rank or a setting of the shrinks is out of its range, or a number has no root.
    OutOfRange,
    // 8: a lent buffer is too short.
    NoRoom,
    // 9: a text is no page or no trace; there are too many blocks for a page.
    NoPage,
    // 10: a point's bits are no codeword.
    NoCodeword,
    // 11: a section of a point is outside its bound: the lowest one, from 1 to 3.
    Outside { section: u32 },
    // 12: a point's sum of k is even where it has to be odd, or odd where even.
    WrongSum,
    // 13: a word's p is 1, or a point's coordinates are all odd, where the even profile is asked.
    AllOdd,
    // 14: a summary and its page disagree.
    Disagrees,
}

impl Refusal {
    // The documents' number.
    pub fn number(self) -> u32
        ensures { result ≡ number_of self }
    {
        match self {
            Refusal::NotFinite => NOT_FINITE,
            Refusal::TooLarge => TOO_LARGE,
            Refusal::NoScale => NO_SCALE,
            Refusal::TooFar => TOO_FAR,
            Refusal::MixedParity => MIXED_PARITY,
            Refusal::TooWide => TOO_WIDE,
            Refusal::OutOfRange => OUT_OF_RANGE,
            Refusal::NoRoom => NO_ROOM,
            Refusal::NoPage => NO_PAGE,
            Refusal::NoCodeword => NO_CODEWORD,
            Refusal::Outside { .. } => OUTSIDE,
            Refusal::WrongSum => WRONG_SUM,
            Refusal::AllOdd => ALL_ODD,
            Refusal::Disagrees => DISAGREES,
        }
    }

    // The section that the reason is about, counted from 1; 0 where it is about none.
    pub fn section(self) -> u32
        ensures { result ≡ section_of self }
    {
        match self {
            Refusal::Outside { section } => section,
            _ => 0,
        }
    }
}

// A sample is a NaN or infinite.
pub const NOT_FINITE: u32 = 1;

// A sample's magnitude exceeds 1e290; one of a page that is written, 32767.
pub const TOO_LARGE: u32 = 2;

// The scale is not a finite number above 0; a page's num is not from 1 to 65535.
pub const NO_SCALE: u32 = 3;

// A quotient of a sample by the scale exceeds 1e6 in magnitude.
pub const TOO_FAR: u32 = 4;

// A point's coordinates are not all even or all odd.
pub const MIXED_PARITY: u32 = 5;

// A field does not fit its width.
pub const TOO_WIDE: u32 = 6;

// A residue, a rank or a setting of the shrinks is out of its range, or a number has no root.
pub const OUT_OF_RANGE: u32 = 7;

// A lent buffer is too short.
pub const NO_ROOM: u32 = 8;

// A text is no page or no trace; there are too many blocks for a page.
pub const NO_PAGE: u32 = 9;

// A point's bits are no codeword.
pub const NO_CODEWORD: u32 = 10;

// A section of a point is outside its bound.
pub const OUTSIDE: u32 = 11;

// A point's sum of k is even where it has to be odd, or odd where even.
pub const WRONG_SUM: u32 = 12;

// A word's p is 1, or a point's coordinates are all odd, where the even profile is asked.
pub const ALL_ODD: u32 = 13;

// A summary and its page disagree.
pub const DISAGREES: u32 = 14;

// All of them, ascending. The contract holds these constants to the definitions, so that neither can be changed alone.
pub fn numbers() -> [u32; 14]
    ensures { result ≡ numbers }
{
    [
        NOT_FINITE,
        TOO_LARGE,
        NO_SCALE,
        TOO_FAR,
        MIXED_PARITY,
        TOO_WIDE,
        OUT_OF_RANGE,
        NO_ROOM,
        NO_PAGE,
        NO_CODEWORD,
        OUTSIDE,
        WRONG_SUM,
        ALL_ODD,
        DISAGREES,
    ]
}
