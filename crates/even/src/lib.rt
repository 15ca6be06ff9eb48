// The even profile for heater channels, request 2026-06 of document 02: words whose p is 0, and points whose coordinates are all even.
// The idea: a word or a point that the profile knows is answered as the full coder answers it, and an odd one
// is refused with 13. Samples are searched over even points alone (crate encoder, with `odd` false). A page is
// read where none of its words is odd.
#![tactic(auto)]

ghost use Rattle.std.specs.Prelude.{◌≡◌, ◌≤◌, length, take};
ghost use Rattle.page.specs.Answer.{read_by};
ghost use Rattle.refusal.specs.Refusal.{number_in};
ghost use Rattle.page.specs.Reader.{reading_of};
ghost use Rattle.search.specs.Parity.{even_parities};
ghost use Rattle.tetra.specs.Encode.{encoded_by};
ghost use Rattle.encoder.specs.Encode.{coded_by, encode_at_over, encode_over, encode_samples_over};
ghost use Rattle.even.specs.Even.{word_number, decoded_by, even_decoded, even_encoded, any_odd, even_read, even_cells};

use encoder::Code;
use refusal::Refusal;

// ---- words
// Whether the profile has the word: refused with 13 where its p, bit 0, is 1. No other bit counts.
pub fn check(word: u64) -> Result<(), Refusal>
    ensures { number_in result ≡ word_number word }
{
    if word % 2 == 0 {
        return Ok(());
    }
    Err(Refusal::AllOdd)
}

// The point of a word, in natural order. Refused with 13. Bits 47 and up are ignored.
#[tactic(auto, unfolding(crate::specs::Even::even_decoded))]
pub fn decode(word: u64) -> Result<[i32; 24], Refusal>
    ensures { decoded_by result ≡ even_decoded word }
{
    check(word)?;
    Ok(tetra::decode(word))
}

// ---- points
// The word that decodes to a point given in natural order, with gain 0; or why there is none: 5 for mixed parities, then 13 where all coordinates
// are odd, then 10, 11, 12. A point that is not all odd has its 5 from the full coder.
pub fn encode_point(point: [i32; 24]) -> Result<u64, Refusal>
    ensures { encoded_by result ≡ even_encoded point }
{
    if tetra::one_parity(point, 1) {
        return Err(Refusal::AllOdd);
    }
    tetra::encode(point)
}

// ---- samples: their code over the even points. 13 never comes up
// At a scale. Refused with 7 at the setting 0, then with 3, 1, 2, 4.
pub fn encode_at_scale(samples: [f64; 24], scale: f64, setting: u32) -> Result<Code, Refusal>
    ensures { coded_by result ≡ encode_at_over even_parities samples scale setting }
{
    encoder::encode_at_scale_over(samples, scale, setting, false)
}

// At the scale that the samples give, at a setting of the shrinks. Refused with 7 at the setting 0, then with 1, 2.
pub fn encode_with(samples: [f64; 24], setting: u32) -> Result<Code, Refusal>
    ensures { coded_by result ≡ encode_over even_parities samples setting }
{
    encoder::encode_with_over(samples, setting, false)
}

// The production call: at the scale that the samples give.
pub fn encode(samples: [f64; 24]) -> Result<Code, Refusal>
    ensures { coded_by result ≡ encode_samples_over even_parities samples }
{
    encode_with(samples, encoder::SETTING)
}

// ---- pages
// Whether one of the first `count` words is odd.
fn any_odd(words: [u64; 64], count: usize) -> bool
    requires { count ≤ 64 }
    ensures { result ≡ any_odd (take count words) }
{
    words[..count].iter().any(|w| check(*w).is_err())
}

// Reads a page into the buffer, 24 counts per block, from its start on, and answers how many blocks it wrote. Refused with 9 where the text is no page, then with 13 where a word is
// odd, then with 8 where the buffer has no room. The buffer is written only once all words are known to be even.
pub fn read_page(text: &[u8], out: &mut [i32]) -> Result<usize, Refusal>
    ensures value { read_by result ≡ even_read (reading_of text.now) (length out.old) }
    ensures out_after { out.new ≡ even_cells (reading_of text.now) out.old }
{
    let page = page::parse(text)?;
    if any_odd(page.words, page.count) {
        return Err(Refusal::AllOdd);
    }
    page::read(text, out)
}
