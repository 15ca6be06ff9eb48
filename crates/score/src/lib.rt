// The score of a point and the scale that samples give: `t_of`, `lower_scale` and the head of `encode` of the Rust's encoder.rs, which here is a
// call of its own, `choose`; with the refusals of document 01 for samples and scales, and those for a choice. Every call answers for every input.
#![tactic(auto)]

ghost use Rattle.std.specs.Prelude.{◌≡◌, cond, Ok};
ghost use Rattle.refusal.specs.Refusal.{no_scale, number_in};
ghost use Rattle.float.specs.Calls.{abs_of, quotients_of};
ghost use Rattle.score.specs.Samples.{exceeds, some, sample_number, is_scale, quotient_number, scale_number};
ghost use Rattle.score.specs.Score.{dot_of, doubles_of, score_of, t_of, scored_by, scored};
ghost use Rattle.score.specs.Scale.{larger, largest_of, unit_norm, scale_with, is_normal, measured_by, lower_scale, scales, choice_of, second_scale};
ghost use Rattle.score.specs.Choice.{chosen_by, chosen, nonzero, is_pair, is_division, pair_number, number_for, choice_number};

use refusal::Refusal;
use std::array;

// The largest magnitude of samples, and the lower of the two scales at which they are coded.
#[derive(Clone, Copy)]
pub struct Scales {
    pub largest: f64,
    pub scale: f64,
}

// How samples are to be coded: all are zero; at a scale; divided by a magnitude first, and then at a scale.
#[derive(Clone, Copy)]
pub enum Choice {
    Zero,
    Scale(f64),
    Divide { magnitude: f64, scale: f64 },
}

// ---- refusals

// One of them is larger than the limit in magnitude.
fn some_exceeds(x: &[f64; 24], limit: f64) -> bool
    ensures { result ≡ some (exceeds limit) x.now }
{
    x.iter().any(|v| limit < float::abs(*v))
}

// Refused with 1 where a sample is a NaN or infinite, else with 2 where a magnitude exceeds 1e290.
pub fn check_samples(samples: [f64; 24]) -> Result<(), Refusal>
    ensures { number_in result ≡ sample_number samples }
{
    if samples.iter().any(|v| !float::is_finite(*v)) {
        return Err(Refusal::NotFinite);
    }
    if some_exceeds(&samples, 1e290) {
        return Err(Refusal::TooLarge);
    }
    Ok(())
}

// A finite number above 0.
fn is_scale(s: f64) -> bool
    ensures { result ≡ is_scale s }
{
    float::is_finite(s) && 0.0 < s
}

// Refused with 4 where a quotient of a sample by the scale exceeds 1e6 in magnitude.
fn check_quotients(samples: [f64; 24], scale: f64) -> Result<(), Refusal>
    ensures { number_in result ≡ quotient_number (quotients_of samples scale) }
{
    if some_exceeds(&float::quotients(samples, scale), 1000000.0) {
        return Err(Refusal::TooFar);
    }
    Ok(())
}

// Refused with 3 where the scale is no finite number above 0, else as the samples are, else with 4 where a quotient exceeds 1e6 in magnitude.
#[tactic(auto, unfolding(crate::specs::Samples::scale_number))]
pub fn check_scale(samples: [f64; 24], scale: f64) -> Result<(), Refusal>
    ensures { number_in result ≡ scale_number samples scale }
{
    if !is_scale(scale) {
        return Err(Refusal::NoScale);
    }
    check_samples(samples)?;
    check_quotients(samples, scale)
}

// ---- the score

// The sum of the products, from left to right, from +0.0.
fn dot(a: &[f64; 24], b: &[f64; 24]) -> f64
    ensures { result ≡ dot_of a.now b.now }
{
    a.iter()
        .zip(b.iter())
        .fold(0.0, |sum, (x, y)| sum + *x * *y)
}

// Each as a double, which is exact. By place, as float's quotients.
pub fn doubles(y: [i32; 24]) -> [f64; 24]
    ensures { result ≡ doubles_of y }
{
    array::from_fn(|j| f64::from(y[j]))
}

fn over_root(d: f64, nn: f64) -> f64
    ensures { result ≡ score_of d nn }
{
    if 0.0 < nn {
        return d / root::root(nn).unwrap_or(0.0);
    }
    -1.0 / 0.0
}

// The score of any samples, with no refusal.
pub fn score(samples: [f64; 24], point: [i32; 24]) -> f64
    ensures { result ≡ t_of samples point }
{
    let y = doubles(point);
    over_root(dot(&samples, &y), dot(&y, &y))
}

// The Rust's t_of: x·y over the root of y·y, minus infinity for the origin. Refused with 1, 2.
pub fn t_of(samples: [f64; 24], point: [i32; 24]) -> Result<f64, Refusal>
    ensures { scored_by result ≡ scored samples point }
{
    check_samples(samples)?;
    Ok(score(samples, point))
}

// ---- the scale

// The larger of m and the magnitude of v.
fn grown(m: f64, v: f64) -> f64
    ensures { result ≡ larger m (abs_of v) }
{
    let a = float::abs(v);
    if m < a { a } else { m }
}

fn largest(x: &[f64; 24]) -> f64
    ensures { result ≡ largest_of x.now }
{
    x.iter().fold(0.0, |m, v| grown(m, *v))
}

// The norm of the samples over m.
fn unit_norm(x: [f64; 24], m: f64) -> f64
    ensures { result ≡ unit_norm x m }
{
    let q = float::quotients(x, m);
    root::root(dot(&q, &q)).unwrap_or(0.0)
}

// ALPHA * m * n over the root of 24.
fn scale_with(m: f64, n: f64) -> f64
    ensures { result ≡ scale_with m n }
{
    0.3218 * m * n / 4.898979485566356
}

// The Rust's lower_scale of any samples, with no refusal: both are +0.0 where all samples are zero.
fn scales_of(samples: [f64; 24]) -> Scales
    ensures { measured_by (Ok result) ≡ lower_scale samples }
{
    let largest = largest(&samples);
    if largest == 0.0 {
        return Scales {
            largest: 0.0,
            scale: 0.0,
        };
    }
    Scales {
        largest,
        scale: scale_with(largest, unit_norm(samples, largest)),
    }
}

// The Rust's lower_scale. Refused with 1, 2.
pub fn lower_scale(samples: [f64; 24]) -> Result<Scales, Refusal>
    ensures { measured_by result ≡ scales samples }
{
    check_samples(samples)?;
    Ok(scales_of(samples))
}

// The Rust's f64::is_normal.
fn is_normal(s: f64) -> bool
    ensures { result ≡ is_normal s }
{
    float::is_finite(s) && 2.2250738585072014e-308 <= float::abs(s)
}

// The head of the Rust's encode, of any samples: which scale, and whether to divide first.
pub fn choice_of(samples: [f64; 24]) -> Choice
    ensures { result ≡ choice_of samples }
{
    let a = scales_of(samples);
    if a.largest == 0.0 {
        return Choice::Zero;
    }
    if is_normal(a.scale) {
        return Choice::Scale(a.scale);
    }
    let b = scales_of(float::quotients(samples, a.largest));
    Choice::Divide {
        magnitude: a.largest,
        scale: b.scale,
    }
}

// RATIO times the lower scale.
pub fn second_scale(scale: f64) -> f64
    ensures { result ≡ second_scale scale }
{
    scale * 1.14
}

// ---- a choice

// The head of the Rust's encode: how samples are to be coded. Refused with 1, 2.
#[tactic(auto, unfolding(crate::specs::Choice::chosen))]
pub fn choose(samples: [f64; 24]) -> Result<Choice, Refusal>
    ensures { chosen_by result ≡ chosen samples }
{
    check_samples(samples)?;
    Ok(choice_of(samples))
}

// A scale at which samples can be coded, and at 1.14 times it.
fn is_pair(s: f64) -> bool
    ensures { result ≡ is_pair s }
{
    is_scale(s) && is_scale(second_scale(s))
}

// A magnitude above 0 and not above 2^-1000, with a scale from 0.06 to 0.33. A NaN is neither.
fn is_division(m: f64, s: f64) -> bool
    ensures { result ≡ is_division m s }
{
    (0.0 < m) & ((m <= 9.332636185032189e-302) & ((0.06 <= s) & (s <= 0.33)))
}

// Refused with 4 where a quotient exceeds 1e6 in magnitude at the scale or at 1.14 times it.
fn check_pair(z: [f64; 24], s: f64) -> Result<(), Refusal>
    ensures { number_in result ≡ pair_number z s }
{
    check_quotients(z, s)?;
    check_quotients(z, second_scale(s))
}

// Of samples x that are coded as z, which are x or x divided, where the choice is a good one or not.
fn check_coded(good: bool, x: [f64; 24], z: [f64; 24], s: f64) -> Result<(), Refusal>
    ensures { number_in result ≡ number_for good x z s }
{
    if !good {
        return Err(Refusal::NoScale);
    }
    check_samples(x)?;
    check_pair(z, s)
}

// Refused with 3 where the all-zero choice meets another number.
fn check_zeros(x: [f64; 24]) -> Result<(), Refusal>
    ensures { number_in result ≡ cond (some nonzero x) no_scale 0 }
{
    if x.iter().any(|v| *v != 0.0) {
        return Err(Refusal::NoScale);
    }
    Ok(())
}

// Samples at a choice, which may be that of other samples: refused with 3, then with 1 and 2 on the samples as given, then with 4.
pub fn check_choice(choice: Choice, samples: [f64; 24]) -> Result<(), Refusal>
    ensures { number_in result ≡ choice_number choice samples }
{
    match choice {
        Choice::Zero => check_zeros(samples),
        Choice::Scale(s) => check_coded(is_pair(s), samples, samples, s),
        Choice::Divide { magnitude, scale } => check_coded(
            is_division(magnitude, scale),
            samples,
            float::quotients(samples, magnitude),
            scale,
        ),
    }
}
