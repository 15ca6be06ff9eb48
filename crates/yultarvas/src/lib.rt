// The calls for programs in other languages: include/yultarvas.h declares them for C, bindings/rust for Rust.
// A slice is a pointer and a length, in this order; a cell is a pointer. Each call answers a number: 0, or
// that of the refusal, and then nothing that was lent is written. A block stands at a slice's start. 8 says
// that a slice is too short for it, and stands before all other numbers; of a page after 9. The call that
// writes a page answers a block beside the number. The calls of the even profile stand in profile.rt.
#![tactic(auto)]

mod environment;
mod profile;
mod slices;

ghost use Rattle.std.specs.Prelude.{◌≡◌, ◌+◌, length};
ghost use Rattle.page.specs.Answer.{num_in, words_in};
ghost use Rattle.page.specs.Reader.{reading_of};
ghost use Rattle.yultarvas.specs.Calls.{left, decode_number, decode_point, point_number, point_word, outside_section};
ghost use Rattle.yultarvas.specs.Calls.{at_scale, at_setting, at_own_scale, code_number, left_point};
ghost use Rattle.yultarvas.specs.Calls.{scales_for, scales_number, score_for, score_number};
ghost use Rattle.yultarvas.specs.Calls.{page_number, page_blocks, page_cells, words_number, words_over};
ghost use Rattle.yultarvas.specs.Calls.{written_page, with_block};
ghost use Rattle.writer.specs.Writer.{text_after};
ghost use Rattle.summary.specs.Answer.{summarise_number, summarised_rows, checked, add_number, added_rows};
ghost use Rattle.yultarvas.specs.Environment.{environment_of};

use refusal::NO_ROOM;

// ---- words and points

// The point of a word, in natural order, into the first 24 places of `point`.
#[unsafe(no_mangle)]
pub extern "C" fn yultarvas_decode(word: u64, point: &mut [i32]) -> u32
    ensures value { result ≡ decode_number point.old }
    ensures point_after { point.new ≡ decode_point word point.old }
{
    if point.len() < 24 {
        return NO_ROOM;
    }
    slices::put_point(tetra::decode(word), point);
    0
}

// The word of the point in the first 24 places of `point`. Refused where no word decodes to it, by the first of these that holds: 5, 10, 11,
// 12.
#[unsafe(no_mangle)]
pub extern "C" fn yultarvas_encode_point(point: &[i32], word: &mut u64) -> u32
    ensures value { result ≡ point_number point.now }
    ensures word_after { word.new ≡ point_word point.now word.old }
{
    if point.len() < 24 {
        return NO_ROOM;
    }
    slices::put_word(tetra::encode(slices::point_of(point)), word)
}

// The section that is outside its bound, where the point is refused with 11: the lowest one, from 1 to 3. Else 0, as for a slice that is too
// short. It is a call of its own, since one that refuses writes nothing that was lent.
#[unsafe(no_mangle)]
pub extern "C" fn yultarvas_outside(point: &[i32]) -> u32
    ensures { result ≡ outside_section point.now }
{
    if point.len() < 24 {
        return 0;
    }
    match tetra::encode(slices::point_of(point)) {
        Ok(_) => 0,
        Err(reason) => reason.section(),
    }
}

// ---- samples to codes

// The code of the first 24 samples at a scale and a setting of the shrinks. Refused with 7, 3, 1, 2, 4.
#[unsafe(no_mangle)]
pub extern "C" fn yultarvas_encode_at_scale(
    samples: &[f64],
    scale: f64,
    setting: u32,
    word: &mut u64,
    point: &mut [i32],
    score: &mut f64,
) -> u32
    ensures value { result ≡ code_number samples.now point.old (at_scale samples.now scale setting) }
    ensures word_after { word.new ≡ left result (at_scale samples.now scale setting).word word.old }
    ensures point_after { point.new ≡ left_point result (at_scale samples.now scale setting) point.old }
    ensures score_after { score.new ≡ left result (at_scale samples.now scale setting).score score.old }
{
    if samples.len() < 24 {
        return NO_ROOM;
    }
    if point.len() < 24 {
        return NO_ROOM;
    }
    let c = encoder::encode_at_scale(slices::samples_of(samples), scale, setting);
    slices::put_code(c, word, point, score)
}

// The code of the first 24 samples at the scale that they give, and at a setting of the shrinks. Refused with
// 7, 1, 2.
#[unsafe(no_mangle)]
pub extern "C" fn yultarvas_encode_with(
    samples: &[f64],
    setting: u32,
    word: &mut u64,
    point: &mut [i32],
    score: &mut f64,
) -> u32
    ensures value { result ≡ code_number samples.now point.old (at_setting samples.now setting) }
    ensures word_after { word.new ≡ left result (at_setting samples.now setting).word word.old }
    ensures point_after { point.new ≡ left_point result (at_setting samples.now setting) point.old }
    ensures score_after { score.new ≡ left result (at_setting samples.now setting).score score.old }
{
    if samples.len() < 24 {
        return NO_ROOM;
    }
    if point.len() < 24 {
        return NO_ROOM;
    }
    let c = encoder::encode_with(slices::samples_of(samples), setting);
    slices::put_code(c, word, point, score)
}

// The code of the first 24 samples at the scale that they give. Refused with 1, 2.
#[unsafe(no_mangle)]
pub extern "C" fn yultarvas_encode(
    samples: &[f64],
    word: &mut u64,
    point: &mut [i32],
    score: &mut f64,
) -> u32
    ensures value { result ≡ code_number samples.now point.old (at_own_scale samples.now) }
    ensures word_after { word.new ≡ left result (at_own_scale samples.now).word word.old }
    ensures point_after { point.new ≡ left_point result (at_own_scale samples.now) point.old }
    ensures score_after { score.new ≡ left result (at_own_scale samples.now).score score.old }
{
    if samples.len() < 24 {
        return NO_ROOM;
    }
    if point.len() < 24 {
        return NO_ROOM;
    }
    let c = encoder::encode(slices::samples_of(samples));
    slices::put_code(c, word, point, score)
}

// ---- a scale and a score by themselves

// The largest magnitude of the first 24 samples, and the lower of the two scales that `yultarvas_encode`
// tries; both are +0.0 where all samples are zero. Refused with 1, 2.
#[unsafe(no_mangle)]
pub extern "C" fn yultarvas_lower_scale(samples: &[f64], largest: &mut f64, scale: &mut f64) -> u32
    ensures value { result ≡ scales_number samples.now }
    ensures largest_after { largest.new ≡ left result (scales_for samples.now).largest largest.old }
    ensures scale_after { scale.new ≡ left result (scales_for samples.now).scale scale.old }
{
    if samples.len() < 24 {
        return NO_ROOM;
    }
    match score::lower_scale(slices::samples_of(samples)) {
        Ok(s) => {
            *largest = s.largest;
            *scale = s.scale;
            0
        }
        Err(r) => r.number(),
    }
}

// The score of the first 24 samples at the point in the first 24 places of `point`. Refused with 1, 2.
#[unsafe(no_mangle)]
pub extern "C" fn yultarvas_t_of(samples: &[f64], point: &[i32], score: &mut f64) -> u32
    ensures value { result ≡ score_number samples.now point.now }
    ensures score_after { score.new ≡ left result (score_for samples.now point.now).score score.old }
{
    if samples.len() < 24 {
        return NO_ROOM;
    }
    if point.len() < 24 {
        return NO_ROOM;
    }
    match score::t_of(slices::samples_of(samples), slices::point_of(point)) {
        Ok(t) => {
            *score = t;
            0
        }
        Err(r) => r.number(),
    }
}

// ---- pages

// The counts of a page, 24 per block, from the start of `counts` on, and how many blocks it has. Refused with
// 9 where the text is no page, then with 8 where `counts` has fewer places than the page has counts.
#[unsafe(no_mangle)]
pub extern "C" fn yultarvas_read_page(text: &[u8], counts: &mut [i32], blocks: &mut usize) -> u32
    ensures value { result ≡ page_number text.now counts.old }
    ensures counts_after { counts.new ≡ page_cells text.now counts.old }
    ensures blocks_after { blocks.new ≡ page_blocks text.now counts.old blocks.old }
{
    slices::put_count(page::read(text, counts), blocks)
}

// The num of a page, its words from the start of `words` on, and how many there are. Refused with 9 where the
// text is no page, then with 8 where `words` has fewer places than the page has words.
#[unsafe(no_mangle)]
pub extern "C" fn yultarvas_parse_page(
    text: &[u8],
    num: &mut u32,
    words: &mut [u64],
    count: &mut usize,
) -> u32
    ensures value { result ≡ words_number (reading_of text.now) words.old }
    ensures num_after { num.new ≡ left result (num_in (reading_of text.now)) num.old }
    ensures words_after { words.new ≡ left result (words_over (reading_of text.now) words.old) words.old }
    ensures count_after { count.new ≡ left result (length (words_in (reading_of text.now))) count.old }
{
    let page = match page::parse(text) {
        Ok(page) => page,
        Err(refusal) => return refusal.number(),
    };
    let n = page.count;
    if words.len() < n {
        return NO_ROOM;
    }
    slices::put_words(page.words(), words);
    *num = page.num;
    *count = n;
    0
}

// The text of the page of num and of `count` blocks, 24 whole samples each, from the start of `text` on, and its length. Refused with 3, 9,
// 8 for the samples, 2, 4, 8 for the text. The answer has the number in its low 32 bits; above them stands the lowest block that has a 2 or a
// 4, and else 0. So a refusal tells its block, and no cell that is lent is written for it.
#[unsafe(no_mangle)]
pub extern "C" fn yultarvas_write_page(
    num: u32,
    count: usize,
    samples: &[i32],
    text: &mut [u8],
    length: &mut usize,
) -> u64
    ensures value { result ≡ with_block (written_page num count samples.now text.old) }
    ensures text_after { text.new ≡ text_after num count samples.now text.old }
    ensures length_after { length.new ≡ left (written_page num count samples.now text.old).number
        (written_page num count samples.now text.old).length length.old }
{
    match writer::write(num, count, samples, text) {
        Ok(n) => {
            *length = n;
            0
        }
        Err(why) => (why.refusal.number() as u64) + 4294967296 * (why.block as u64),
    }
}

// ---- a summary beside a page

// The summary of a page, four cells a row, from the start of `rows` on: first the page's row, then one for each
// block; and how many blocks it has. Refused with 9 where the text is no page, then with 8 where `rows` has
// fewer cells than the summary.
#[unsafe(no_mangle)]
pub extern "C" fn yultarvas_summarise(text: &[u8], rows: &mut [i32], blocks: &mut usize) -> u32
    ensures value { result ≡ summarise_number (reading_of text.now) (length rows.old) }
    ensures rows_after { rows.new ≡ summarised_rows (reading_of text.now) rows.old }
    ensures blocks_after { blocks.new ≡ left result (length (words_in (reading_of text.now))) blocks.old }
{
    slices::put_count(summary::summarise(text, rows), blocks)
}

// Whether `rows` begin with the summary of the page: 0 where they do. Refused with 9 where the text is no page,
// then with 8 where `rows` has fewer cells than the summary, then with 14 where a cell is another.
#[unsafe(no_mangle)]
pub extern "C" fn yultarvas_check_summary(text: &[u8], rows: &[i32]) -> u32
    ensures { result ≡ checked (reading_of text.now) rows.now }
{
    match summary::check(text, rows) {
        Ok(()) => 0,
        Err(refusal) => refusal.number(),
    }
}

// The summary in `rows` of the page brought up to date for one word more, of which the low 48 bits count, and
// how many blocks it is of then. Refused with 9 where the text is no page or has 64 blocks, then with 8 where
// `rows` has fewer cells than the longer summary, then with 14 where `rows` are not the summary of the page.
#[unsafe(no_mangle)]
pub extern "C" fn yultarvas_add_word(
    text: &[u8],
    word: u64,
    rows: &mut [i32],
    blocks: &mut usize,
) -> u32
    ensures value { result ≡ add_number (reading_of text.now) rows.old }
    ensures rows_after { rows.new ≡ added_rows (reading_of text.now) word rows.old }
    ensures blocks_after { blocks.new ≡ left result (length (words_in (reading_of text.now)) + 1) blocks.old }
{
    slices::put_count(summary::add(text, word, rows), blocks)
}

// ---- the environment

// Whether sums of doubles come out as the contracts say, for a caller that passes 1.0 and the least double
// above 0, 2^-1074: 0 where they do, 1 where the thread rounds otherwise than to nearest with ties to even,
// else 2 where it takes a subnormal number for 0. The proof is over doubles that always do, so by it the
// answer to these two is 0: the call is for finding out that a thread was set otherwise. The operands come
// from outside, so that the compiler cannot work the sums out beforehand.
#[unsafe(no_mangle)]
pub extern "C" fn yultarvas_environment(one: f64, least: f64) -> u32
    ensures { result ≡ environment_of one least }
{
    if environment::rounds_to_even(one) {
        if environment::keeps_subnormals(least) {
            return 0;
        }
        return 2;
    }
    1
}
