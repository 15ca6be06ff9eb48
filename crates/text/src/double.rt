// Doubles as hexadecimal digits of their bits.
ghost use Rattle.std.specs.Prelude.{◌≡◌};
ghost use Rattle.std.specs.Float.{binary64};
ghost use Rattle.std.specs.Float.Ieee.{of_bits};
ghost use Rattle.text.specs.Text.{hex};
ghost use Rattle.text.specs.Placed.{placed, place_behind};
ghost use Rattle.text.specs.Doubles.{bits_shown};

use crate::piece::put_hex;

// The double of these bits; each NaN's bits give the one NaN.
pub fn double_of(bits: u64) -> f64
    ensures { result ≡ of_bits binary64 bits }
{
    if 0x7ff0_0000_0000_0000 < bits % 0x8000_0000_0000_0000 {
        0.0 / 0.0
    } else {
        f64::from_bits(bits)
    }
}

// The bits that are written for a double. A zero has its sign cleared, and a NaN is written as a zero.
#[tactic(auto, unfolding(crate::specs::Doubles::bits_shown))]
fn shown(x: f64) -> u64
    ensures { result ≡ bits_shown x }
{
    if x < 0.0 || 0.0 < x {
        return f64::to_bits(x);
    }
    0
}

// The 16 digits of these bits.
pub fn put_double(out: &mut [u8], at: usize, x: f64) -> usize
    ensures value { result ≡ place_behind out.old at (hex 16 (bits_shown x)) }
    ensures out_after { out.new ≡ placed out.old at (hex 16 (bits_shown x)) }
{
    put_hex(out, at, shown(x), 16)
}
