// The page writer, request 2026-01: num, a count of blocks and 24 whole samples a block in, the text of their
// page out, in a lent buffer. The call answers for every input. It is a crate of its own so that page, which
// reads and forms texts, does not rest on the sample encoder.
#![tactic(auto)]

ghost use Rattle.std.specs.Prelude.{◌≡◌, ◌*◌, ◌<◌, ◌≤◌, List, ℤ, Bool, length, take, IfSome};
ghost use Rattle.std.specs.Option.{unwrap_or};
ghost use Rattle.writer.specs.Writer.{scale_of, is_wide, is_far, first_of, word_for, words_for};
ghost use Rattle.writer.specs.Writer.{written_by, written_of, text_after};

use refusal::Refusal;

// Why no page is written: the reason, and for a sample that is too large and a block that is too far the lowest block that has it; else 0.
#[derive(Clone, Copy, Debug, PartialEq, Eq)]
pub struct Unwritten {
    pub refusal: Refusal,
    pub block: usize,
}

impl From<Refusal> for Unwritten {
    ghost from_gives = { λ r u. u ≡ record { refusal = r; block = 0 } };

    // A reason that is about no block.
    fn from(refusal: Refusal) -> Unwritten {
        Unwritten { refusal, block: 0 }
    }
}

// num / 256, which is exact.
fn scale_of(num: u32) -> f64
    ensures { result ≡ scale_of num }
{
    (num as f64) / 256.0
}

// A sample lies beyond 32767 in magnitude.
fn is_wide(block: [i32; 24]) -> bool
    ensures { result ≡ is_wide block }
{
    for x in block {
        if 32767 < text::magnitude(x) {
            return true;
        }
    }
    false
}

// The block is refused with 4 at the scale.
fn is_far(block: [i32; 24], scale: f64) -> bool
    ensures { result ≡ is_far scale block }
{
    score::check_scale(score::doubles(block), scale) == Err(Refusal::TooFar)
}

// The word of block i; 0 where the block is refused.
fn word_for(samples: &[i32], i: usize, scale: f64) -> u64
    requires { i ≤ 64 }
    ensures { result ≡ word_for scale samples.now i }
{
    let block = score::doubles(tetra::block(samples, 24 * i));
    encoder::encode_at_scale(block, scale, encoder::SETTING).map_or(0, |code| code.word)
}

// The lowest of the first `count` blocks that passes a test.
fn first_block<F: Fn([i32; 24]) -> bool>(samples: &[i32], count: usize, test: F) -> Option<usize>
    requires few { count ≤ 64 }
    requires callable { F.IsAlwaysCallable test }
    ensures below { IfSome result (λ i. i < count) }
    ensures value { (passes : List ℤ → Bool) → ((b : List ℤ) (r : Bool) → F.post test b r → r ≡ passes b) →
        unwrap_or result count ≡ first_of passes samples.now 0 count }
{
    for i in 0..count {
        if test(tetra::block(samples, 24 * i)) {
            return Some(i);
        }
    }
    None
}

// The words of all blocks, with zeros behind them.
fn words_for(samples: &[i32], count: usize, scale: f64) -> [u64; 64]
    requires { count ≤ 64 }
    ensures { take count result ≡ words_for scale samples.now count }
{
    let mut words = [0; 64];
    for i in 0..count {
        words[i] = word_for(samples, i, scale);
    }
    words
}

// Writes a page: each block of 24 samples is encoded at the scale num / 256, and the text of the words goes
// into `text`, from its start on. The answer is the text's length. Refused with 3 for num 0 or above 65535, 9 for more than 64 blocks, 8 for
// fewer than 24 samples a block, 2 for a sample beyond 32767 in magnitude, 4 for a block that is too far for
// the scale, 8 for a text that is too short. Each is looked for over all blocks before the next one is, and a
// refusal writes nothing.
pub fn write(num: u32, count: usize, samples: &[i32], text: &mut [u8]) -> Result<usize, Unwritten>
    ensures value { written_by result ≡ written_of num count samples.now (length text.old) }
    ensures text_after { text.new ≡ text_after num count samples.now text.old }
{
    if (num == 0) | (65535 < num) {
        return Err(Unwritten::from(Refusal::NoScale));
    }
    if 64 < count {
        return Err(Unwritten::from(Refusal::NoPage));
    }
    if samples.len() < 24 * count {
        return Err(Unwritten::from(Refusal::NoRoom));
    }
    if let Some(wide) = first_block(samples, count, is_wide) {
        return Err(Unwritten {
            refusal: Refusal::TooLarge,
            block: wide,
        });
    }
    let scale = scale_of(num);
    let too_far = |block: [i32; 24]| -> bool
        ensures { result ≡ is_far scale block }
    { is_far(block, scale) };
    if let Some(far) = first_block(samples, count, too_far) {
        return Err(Unwritten {
            refusal: Refusal::TooFar,
            block: far,
        });
    }
    // num and count are good, so that of the refusals of `form` only the 8 for the text is left
    let length = page::form(num, count, words_for(samples, count, scale), text)?;
    Ok(length)
}
