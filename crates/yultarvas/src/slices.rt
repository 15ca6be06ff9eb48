// From a slice that is lent to a value, and back. What these functions require is what the calls have tested.
ghost use Rattle.std.specs.Prelude.{◌≡◌, ◌++◌, ◌≤◌, length, take, drop};
ghost use Rattle.std.specs.Result.{result_unwrap_or};
ghost use Rattle.refusal.specs.Refusal.{number_in};
ghost use Rattle.encoder.specs.Encode.{coded_by};
ghost use Rattle.tetra.specs.Encode.{encoded_by};
ghost use Rattle.yultarvas.specs.Calls.{left, at_front, left_point};

use encoder::Code;
use refusal::Refusal;

// The 24 samples at a slice's start.
pub(crate) fn samples_of(s: &[f64]) -> [f64; 24]
    requires { 24 ≤ length s.now }
    ensures { result ≡ take 24 s.now }
{
    let mut out = [0.0f64; 24];
    for j in 0..24usize {
        out[j] = s[j];
    }
    out
}

// The 24 coordinates at a slice's start.
pub(crate) fn point_of(s: &[i32]) -> [i32; 24]
    requires { 24 ≤ length s.now }
    ensures { result ≡ take 24 s.now }
{
    tetra::block(s, 0)
}

// 24 coordinates, written at a slice's start.
pub(crate) fn put_point(y: [i32; 24], out: &mut [i32])
    requires { 24 ≤ length out.old }
    ensures { out.new ≡ at_front y out.old }
{
    for j in 0..24usize {
        out[j] = y[j];
    }
}

// Words, written at a slice's start.
pub(crate) fn put_words(words: &[u64], out: &mut [u64])
    requires { length words.now ≤ length out.old }
    ensures { out.new ≡ words.now ++ drop (length words.now) out.old }
{
    out[..words.len()].copy_from_slice(words);
}

// A count into the lent cell, unless there is none. Answers the number.
pub(crate) fn put_count(answer: Result<usize, Refusal>, cell: &mut usize) -> u32
    ensures value { result ≡ number_in answer }
    ensures cell_after { cell.new ≡ result_unwrap_or answer cell.old }
{
    match answer {
        Ok(count) => {
            *cell = count;
            0
        }
        Err(refusal) => refusal.number(),
    }
}

// The word of a point into the lent cell, unless the point is refused. Answers the number.
pub(crate) fn put_word(coded: Result<u64, Refusal>, word: &mut u64) -> u32
    ensures value { result ≡ (encoded_by coded).number }
    ensures word_after { word.new ≡ left result (encoded_by coded).word word.old }
{
    match coded {
        Ok(found) => {
            *word = found;
            0
        }
        Err(reason) => reason.number(),
    }
}

// A code into the lent cells, unless the samples are refused. Answers the number.
pub(crate) fn put_code(
    answer: Result<Code, Refusal>,
    word: &mut u64,
    point: &mut [i32],
    score: &mut f64,
) -> u32
    requires { 24 ≤ length point.old }
    ensures value { result ≡ (coded_by answer).number }
    ensures word_after { word.new ≡ left result (coded_by answer).word word.old }
    ensures point_after { point.new ≡ left_point result (coded_by answer) point.old }
    ensures score_after { score.new ≡ left result (coded_by answer).score score.old }
{
    match answer {
        Ok(c) => {
            *word = c.word;
            put_point(c.point, point);
            *score = c.score;
            0
        }
        Err(r) => r.number(),
    }
}
