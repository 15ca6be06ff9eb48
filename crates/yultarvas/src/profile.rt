// The calls of the even profile (crate even), in which p is always 0: for heater channels. What lib.rt's head says
// holds of them too. Each, but for the check of a word, is a call of lib.rt with the same parameters that refuses
// with 13 what is odd: a word with p = 1, a point whose coordinates are all odd, a page with such a word. What it
// does not refuse with 13 it answers as that call does. Only the code of samples can be another, since the search
// is over even points alone.
ghost use Rattle.std.specs.Prelude.{◌≡◌};
ghost use Rattle.even.specs.Even.{word_number};
ghost use Rattle.yultarvas.specs.Calls.{left, code_number, left_point};
ghost use Rattle.yultarvas.specs.EvenCalls.{even_decode_number, even_decode_point, even_point_number, even_point_word};
ghost use Rattle.yultarvas.specs.EvenCalls.{even_at_scale, even_at_setting, even_at_own_scale};
ghost use Rattle.yultarvas.specs.EvenCalls.{even_page_number, even_page_blocks, even_page_cells};

use crate::slices;
use refusal::NO_ROOM;

// ---- words and points

// Whether the profile has the word: 0, or 13 where its p, bit 0, is 1. No other bit counts.
#[unsafe(no_mangle)]
pub extern "C" fn yultarvas_even_check(word: u64) -> u32
    ensures { result ≡ word_number word }
{
    match even::check(word) {
        Ok(()) => 0,
        Err(r) => r.number(),
    }
}

// The point of a word, in natural order, into the first 24 places of `point`. Refused with 13.
#[unsafe(no_mangle)]
pub extern "C" fn yultarvas_even_decode(word: u64, point: &mut [i32]) -> u32
    ensures value { result ≡ even_decode_number word point.old }
    ensures point_after { point.new ≡ even_decode_point word point.old }
{
    if point.len() < 24 {
        return NO_ROOM;
    }
    match even::decode(word) {
        Ok(y) => {
            slices::put_point(y, point);
            0
        }
        Err(r) => r.number(),
    }
}

// The word of the point in the first 24 places of `point`. Refused by the first of these that holds: 5, 13, 10, 11, 12. The section of an 11 is
// what `yultarvas_outside` answers.
#[unsafe(no_mangle)]
pub extern "C" fn yultarvas_even_encode_point(point: &[i32], word: &mut u64) -> u32
    ensures value { result ≡ even_point_number point.now }
    ensures word_after { word.new ≡ even_point_word point.now word.old }
{
    if point.len() < 24 {
        return NO_ROOM;
    }
    slices::put_word(even::encode_point(slices::point_of(point)), word)
}

// ---- samples to codes

// The code of the first 24 samples at a scale and a setting of the shrinks. Refused with 7, 3, 1, 2, 4.
#[unsafe(no_mangle)]
pub extern "C" fn yultarvas_even_encode_at_scale(
    samples: &[f64],
    scale: f64,
    setting: u32,
    word: &mut u64,
    point: &mut [i32],
    score: &mut f64,
) -> u32
    ensures value { result ≡ code_number samples.now point.old (even_at_scale samples.now scale setting) }
    ensures word_after { word.new ≡ left result (even_at_scale samples.now scale setting).word word.old }
    ensures point_after { point.new ≡ left_point result (even_at_scale samples.now scale setting) point.old }
    ensures score_after { score.new ≡ left result (even_at_scale samples.now scale setting).score score.old }
{
    if samples.len() < 24 {
        return NO_ROOM;
    }
    if point.len() < 24 {
        return NO_ROOM;
    }
    let c = even::encode_at_scale(slices::samples_of(samples), scale, setting);
    slices::put_code(c, word, point, score)
}

// The code of the first 24 samples at the scale that they give, and at a setting of the shrinks. Refused with
// 7, 1, 2.
#[unsafe(no_mangle)]
pub extern "C" fn yultarvas_even_encode_with(
    samples: &[f64],
    setting: u32,
    word: &mut u64,
    point: &mut [i32],
    score: &mut f64,
) -> u32
    ensures value { result ≡ code_number samples.now point.old (even_at_setting samples.now setting) }
    ensures word_after { word.new ≡ left result (even_at_setting samples.now setting).word word.old }
    ensures point_after { point.new ≡ left_point result (even_at_setting samples.now setting) point.old }
    ensures score_after { score.new ≡ left result (even_at_setting samples.now setting).score score.old }
{
    if samples.len() < 24 {
        return NO_ROOM;
    }
    if point.len() < 24 {
        return NO_ROOM;
    }
    let c = even::encode_with(slices::samples_of(samples), setting);
    slices::put_code(c, word, point, score)
}

// The code of the first 24 samples at the scale that they give. Refused with 1, 2.
#[unsafe(no_mangle)]
pub extern "C" fn yultarvas_even_encode(
    samples: &[f64],
    word: &mut u64,
    point: &mut [i32],
    score: &mut f64,
) -> u32
    ensures value { result ≡ code_number samples.now point.old (even_at_own_scale samples.now) }
    ensures word_after { word.new ≡ left result (even_at_own_scale samples.now).word word.old }
    ensures point_after { point.new ≡ left_point result (even_at_own_scale samples.now) point.old }
    ensures score_after { score.new ≡ left result (even_at_own_scale samples.now).score score.old }
{
    if samples.len() < 24 {
        return NO_ROOM;
    }
    if point.len() < 24 {
        return NO_ROOM;
    }
    let c = even::encode(slices::samples_of(samples));
    slices::put_code(c, word, point, score)
}

// ---- pages

// The counts of a page, 24 per block, from the start of `counts` on, and how many blocks it has. Refused with
// 9 where the text is no page, then with 13 where a word of it is odd, then with 8 where `counts` has fewer
// places than the page has counts.
#[unsafe(no_mangle)]
pub extern "C" fn yultarvas_even_read_page(
    text: &[u8],
    counts: &mut [i32],
    blocks: &mut usize,
) -> u32
    ensures value { result ≡ even_page_number text.now counts.old }
    ensures counts_after { counts.new ≡ even_page_cells text.now counts.old }
    ensures blocks_after { blocks.new ≡ even_page_blocks text.now counts.old blocks.old }
{
    slices::put_count(even::read_page(text, counts), blocks)
}
