// Samples to codes: the public calls of the sample encoder, `code_of`, `encode_at_scale`, `two_scales` and `encode` of encoder.rs.
// The idea: samples are divided by a scale, the point is searched for at the quotients (crate parity), and
// the code is that point, its word and its score. Refusals are tested before anything is searched. `encode`
// works out the scale itself, tries it and 1.14 times it, and keeps the code that scores higher.
#![tactic(auto)]

ghost use Rattle.std.specs.Prelude.{◌≡◌, ◌+◌, ◌<◌, ◌≤◌, ℕ, get_or, Ok};
ghost use Rattle.std.specs.Float.{nan};
ghost use Rattle.laws.specs.Words.{tab};
ghost use Rattle.rank.specs.Coord.{val_of};
ghost use Rattle.search.specs.Entries.{section_at};
ghost use Rattle.search.specs.Parity.{parities_of, winner_by};
ghost use Rattle.search.specs.Block.{trio_of, winner_at, point_from, winner_for};
ghost use Rattle.refusal.specs.Refusal.{number_in};
ghost use Rattle.encoder.specs.Encode.{coded_by, setting_first, code_of, code_for, encode_at_over, encode_at_scale};
ghost use Rattle.encoder.specs.Encode.{higher, two_scales, scaled_back, code_at, encode_over, encode_with, encode_samples};
ghost use Rattle.encoder.specs.Encode.{chosen_over, encode_chosen_with, encode_chosen};

use refusal::Refusal;
use score::Choice;
use search::{Targets, Winner};

// A block's code: its word (gain 0), the point in natural order, and the score.
#[derive(Clone, Copy)]
pub struct Code {
    pub word: u64,
    pub point: [i32; 24],
    pub score: f64,
}

// A call that names no setting of the shrinks uses this one; in the even profile too.
pub const SETTING: u32 = 8;

// ---- in: the targets of the three sections
// From natural order to trio order.
fn trio(t: [f64; 24]) -> [f64; 24]
    ensures { result ≡ trio_of t }
{
    let mut out = [0.0f64; 24];
    for j in 0..24usize {
        let i = trellis::order(j);
        out[j] = t[i];
    }
    out
}

// The eight from place `from` on.
fn section(t: [f64; 24], from: usize) -> [f64; 8]
    requires { from ≤ 16 }
    ensures { result ≡ tab (λ (j : ℕ). get_or t (from + j) nan) 8 }
{
    let mut out = [0.0f64; 8];
    for j in 0..8usize {
        out[j] = t[from + j];
    }
    out
}

// ---- out: the point of a winner
// The member of o + 4Z at the rank `rho`. No row holds a rank above 7, but the definition reads a value for each rank that a packed row could
// hold: beyond the eight that `val` answers only -16, and 0 from there on.
fn value(o: u32, rho: u32) -> i32
    ensures { result ≡ val_of o rho }
{
    match rank::val(o, rho) {
        Ok(y) => y,
        Err(_) => { if (o == 0) & (rho == 8) { -16 } else { 0 } }
    }
}

// Coordinate j of the section of parity p, byte c and packed row `key`. The definition has an answer for every p, and it is 0 from 4 on; a
// winner's is 0 or 1.
fn coordinate(p: u32, c: u8, key: u32, j: u32) -> i32
    requires { j < 8 }
    ensures { result ≡ section_at p c key j }
{
    if 4 <= p {
        return 0;
    }
    value(p + 2 * (((c as u32) >> j) & 1), (key >> (4 * j)) & 15)
}

// Coordinate j in trio order.
fn in_trio(w: Winner, j: u32) -> i32
    requires { j < 24 }
    ensures { result ≡ winner_at (winner_by w) j }
{
    if j < 8 {
        return coordinate(w.p, w.s1.byte, w.s1.key, j);
    }
    if j < 16 {
        return coordinate(w.p, w.s2.byte, w.s2.key, j - 8);
    }
    coordinate(w.p, w.s3.byte, w.s3.key, j - 16)
}

// The point in natural order.
fn point_of(w: Winner) -> [i32; 24]
    ensures { result ≡ point_from (winner_by w) }
{
    let mut out = [0i32; 24];
    for i in 0..24usize {
        let j = trellis::place(i);
        out[i] = in_trio(w, j as u32);
    }
    out
}

// ---- codes
// Every call is refused with 7 at the setting 0, before it looks at anything else.
fn check_setting(setting: u32) -> Result<(), Refusal>
    ensures { number_in result ≡ setting_first setting 0 }
{
    if setting == 0 {
        return Err(Refusal::OutOfRange);
    }
    Ok(())
}

// The point of a winner, its word and its score.
fn code_of(samples: [f64; 24], w: Winner) -> Code
    ensures { coded_by (Ok result) ≡ code_of samples (winner_by w) }
{
    let point = point_of(w);
    let score = score::score(samples, point);
    Code {
        word: tetra::encode(point).unwrap_or(0),
        point,
        score,
    }
}

// The winner at a target of 24 numbers. Here and below, `odd` says whether odd points are searched too.
fn winner_for(t: [f64; 24], setting: u32, odd: bool) -> Winner
    ensures { winner_by result ≡ winner_for (parities_of odd) setting t }
{
    let u = trio(t);
    let targets = Targets {
        t1: section(u, 0),
        t2: section(u, 8),
        t3: section(u, 16),
    };
    parity::search(&targets, setting, odd)
}

// The code at a scale, with no refusal.
fn code_for(samples: [f64; 24], scale: f64, setting: u32, odd: bool) -> Code
    ensures { coded_by (Ok result) ≡ code_for (parities_of odd) samples scale setting }
{
    code_of(
        samples,
        winner_for(float::quotients(samples, scale), setting, odd),
    )
}

// The code of samples at a scale: the even profile (crate even) searches no odd points. Refused with 7 at the setting 0, then with 3, 1, 2, 4.
#[tactic(auto, unfolding(crate::specs::Encode::encode_at_over))]
pub fn encode_at_scale_over(
    samples: [f64; 24],
    scale: f64,
    setting: u32,
    odd: bool,
) -> Result<Code, Refusal>
    ensures { coded_by result ≡ encode_at_over (parities_of odd) samples scale setting }
{
    check_setting(setting)?;
    score::check_scale(samples, scale)?;
    Ok(code_for(samples, scale, setting, odd))
}

// The full coder's.
pub fn encode_at_scale(samples: [f64; 24], scale: f64, setting: u32) -> Result<Code, Refusal>
    ensures { coded_by result ≡ encode_at_scale samples scale setting }
{
    encode_at_scale_over(samples, scale, setting, true)
}

// The first unless the second scores higher.
fn higher(a: Code, b: Code) -> Code
    ensures { coded_by (Ok result) ≡ higher (coded_by (Ok a)) (coded_by (Ok b)) }
{
    if a.score < b.score { b } else { a }
}

// At a scale and at 1.14 times it.
fn two_scales(samples: [f64; 24], scale: f64, setting: u32, odd: bool) -> Code
    ensures { coded_by (Ok result) ≡ two_scales (parities_of odd) samples scale setting }
{
    let a = code_for(samples, scale, setting, odd);
    let b = code_for(samples, score::second_scale(scale), setting, odd);
    higher(a, b)
}

// The score of samples that were divided by m.
fn scaled_back(m: f64, c: Code) -> Code
    ensures { coded_by (Ok result) ≡ scaled_back m (coded_by (Ok c)) }
{
    Code {
        score: c.score * m,
        ..c
    }
}

// At a choice of scale. Samples that are all zero have the word 0, 24 zeros, and score minus infinity.
fn code_at(choice: Choice, samples: [f64; 24], setting: u32, odd: bool) -> Code
    ensures { coded_by (Ok result) ≡ code_at (parities_of odd) choice samples setting }
{
    match choice {
        Choice::Zero => Code {
            word: 0,
            point: [0i32; 24],
            score: -1.0 / 0.0,
        },
        Choice::Scale(s) => two_scales(samples, s, setting, odd),
        Choice::Divide { magnitude, scale } => scaled_back(
            magnitude,
            two_scales(float::quotients(samples, magnitude), scale, setting, odd),
        ),
    }
}

// The code of samples at the scale that they give, at a setting of the shrinks; for the even profile too. Refused with 7 at the setting 0, then
// with 1, 2.
#[tactic(auto, unfolding(crate::specs::Encode::encode_over))]
pub fn encode_with_over(samples: [f64; 24], setting: u32, odd: bool) -> Result<Code, Refusal>
    ensures { coded_by result ≡ encode_over (parities_of odd) samples setting }
{
    check_setting(setting)?;
    score::check_samples(samples)?;
    Ok(code_at(score::choice_of(samples), samples, setting, odd))
}

// The full coder's.
pub fn encode_with(samples: [f64; 24], setting: u32) -> Result<Code, Refusal>
    ensures { coded_by result ≡ encode_with samples setting }
{
    encode_with_over(samples, setting, true)
}

// The production call: the code of samples at the scale that they give.
pub fn encode(samples: [f64; 24]) -> Result<Code, Refusal>
    ensures { coded_by result ≡ encode_samples samples }
{
    encode_with(samples, SETTING)
}

// ---- at a choice

// The code of samples at a choice of scale, which may be that of other samples (`score::choose` makes it), both of its scales tried; for the even
// profile too. Refused with 7 at the setting 0, then with 3, 1, 2, 4.
#[tactic(auto, unfolding(crate::specs::Encode::chosen_over))]
pub fn encode_chosen_over(
    choice: Choice,
    samples: [f64; 24],
    setting: u32,
    odd: bool,
) -> Result<Code, Refusal>
    ensures { coded_by result ≡ chosen_over (parities_of odd) choice samples setting }
{
    check_setting(setting)?;
    score::check_choice(choice, samples)?;
    Ok(code_at(choice, samples, setting, odd))
}

// The full coder's.
pub fn encode_chosen_with(choice: Choice, samples: [f64; 24], setting: u32) -> Result<Code, Refusal>
    ensures { coded_by result ≡ encode_chosen_with choice samples setting }
{
    encode_chosen_over(choice, samples, setting, true)
}

// With no setting.
pub fn encode_chosen(choice: Choice, samples: [f64; 24]) -> Result<Code, Refusal>
    ensures { coded_by result ≡ encode_chosen choice samples }
{
    encode_chosen_with(choice, samples, SETTING)
}
