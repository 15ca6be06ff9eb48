// What the encoder needs of doubles and the language does not have. Every call answers for every double.
#![tactic(auto)]

ghost use Rattle.std.specs.Prelude.{◌≡◌, ◌≤◌};
ghost use Rattle.std.specs.Float.Ieee.Scale.{finite};
ghost use Rattle.float.specs.Calls.{abs_of, clamped, half_up, rounded, quotients_of};
ghost use Rattle.float.specs.Laws.Rounding.{Small};

use std::array;

// The Rust's f64::abs: -0.0 gives +0.0, and a NaN a NaN. It is worked out here, and so are `clamp` and `round`, since document 01 asks for it.
pub fn abs(x: f64) -> f64
    ensures { result ≡ abs_of x }
{
    if x < 0.0 {
        return -x;
    }
    if x == 0.0 {
        return 0.0;
    }
    x
}

// Neither an infinity nor a NaN.
pub fn is_finite(x: f64) -> bool
    ensures { result ≡ finite x }
{
    x.is_finite()
}

// The Rust's z.clamp(-1e6, 1e6).
pub fn clamp(z: f64) -> f64
    ensures { result ≡ clamped z }
{
    if z < -1000000.0 {
        return -1000000.0;
    }
    if 1000000.0 < z {
        return 1000000.0;
    }
    z
}

// The nearest whole number of a z that is not negative, halves up. z + z is exact, where z + 0.5 would be rounded.
fn half_up(z: f64) -> u64
    requires { Small z }
    ensures { (result ≡ half_up z) × (result ≤ 1000000) }
{
    (std::num::truncating_f64_to_u64(z + z) + 1) / 2
}

// The Rust's z.clamp(-1e6, 1e6).round() as i32: halves away from zero, and 0 for a NaN.
pub fn round(z: f64) -> i32
    ensures { result ≡ rounded z }
{
    let c = clamp(z);
    if c < 0.0 {
        return -(half_up(-c) as i32);
    }
    if 0.0 <= c {
        return half_up(c) as i32;
    }
    0
}

// Each of the 24 numbers divided by s. By place and not by `map`, which takes the array apart first and is several times as slow.
pub fn quotients(x: [f64; 24], s: f64) -> [f64; 24]
    ensures { result ≡ quotients_of x s }
{
    array::from_fn(|i| x[i] / s)
}
