// The answer to each request line of the program ask, as a line of text.
//
//   decode W                    W: 1 to 16 hex digits, either case             -> point=c0,..,c23
//   point C0 .. C23             C: an i32, decimal digits with a - or no sign  -> word=W12, or refused=K, or refused=11 section=S
//   scale N S X0 .. X23         N: a setting, decimal digits; S, X: doubles    -> word=W12 score=B16 point=c0,..,c23, or refused=K
//   auto N X0 .. X23            at the scale that the samples give             -> the same
//   lower X0 .. X23             the largest magnitude and the lower scale      -> max=B16 scale=B16, or refused=K
//   score X0 .. X23 C0 .. C23   the score of samples and a point               -> score=B16, or refused=K
//
// A double is given by 1 to 16 hex digits of its bits and answered by 16, a zero with its sign cleared.
//
// The words of a line stand one space apart. A line that is no request is answered by refused=9.
//
// Crate even_answers adds the requests of the even profile and answers them by the same lines, so `refused`, `point_line` and `word_line` are
// public. Its requests of samples are `scale` and `auto` over fewer points: so these are public too, and are told whether odd points are searched.
#![tactic(auto)]

ghost use Rattle.std.specs.Prelude.{◌≡◌, Ok};
ghost use Rattle.text.specs.Text.{refused_text};
ghost use Rattle.refusal.specs.Refusal.{number_of, section_of};
ghost use Rattle.tetra.specs.Encode.{encoded_by};
ghost use Rattle.search.specs.Parity.{parities_of};
ghost use Rattle.answers.specs.Answers.{no_request, point_line, refused_point, encoded_line, code_line, scales_line, score_line};
ghost use Rattle.score.specs.Scale.{measured_by};
ghost use Rattle.score.specs.Score.{scored_by};
ghost use Rattle.encoder.specs.Encode.{coded_by};
ghost use Rattle.answers.specs.Answers.{decode_answer, point_answer, setting_of, scale_over, auto_over, lower_answer, score_answer};
ghost use Rattle.answers.specs.Answers.{of_samples, answer_of};

use encoder::Code;
use refusal::Refusal;
use request::{after_name, last, read_decimal, read_double, read_hex, read_point, read_samples};
use score::Scales;
use text::Printed;

// A line of at most 336 bytes, its LF included.
pub type Reply = Printed<336>;

// ---- lines

pub fn refused(number: u32) -> Reply
    ensures { result ≡ refused_text number }
{
    let mut line = Reply::new();
    line.put_line(b"refused=", number as u64);
    line
}

// A line that is no request is refused as a text that is no page is. The program says this of a line that is too long, too.
pub fn no_request() -> Reply
    ensures { result ≡ no_request }
{
    refused(refusal::NO_PAGE)
}

pub fn point_line(y: [i32; 24]) -> Reply
    ensures { result ≡ point_line y }
{
    let mut line = Reply::new();
    line.put(b"point=");
    line.put_list(y);
    line.put(b"\n");
    line
}

// A refusal that is about a section names it.
fn refused_at(number: u32, section: u32) -> Reply
    ensures { result ≡ refused_point number section }
{
    if section == 0 {
        return refused(number);
    }
    let mut line = Reply::new();
    line.put(b"refused=");
    line.put_decimal(number as u64);
    line.put_line(b" section=", section as u64);
    line
}

fn refused_point(reason: Refusal) -> Reply
    ensures { result ≡ refused_point (number_of reason) (section_of reason) }
{
    refused_at(reason.number(), reason.section())
}

// The line of a point's word, or of the reason why it has none.
pub fn word_line(coded: Result<u64, Refusal>) -> Reply
    ensures { result ≡ encoded_line (encoded_by coded) }
{
    match coded {
        Ok(word) => {
            let mut line = Reply::new();
            line.put(b"word=");
            line.put_hex(word, 12);
            line.put(b"\n");
            line
        }
        Err(reason) => refused_point(reason),
    }
}

// A code that was accepted.
fn code_text(c: Code) -> Reply
    ensures { result ≡ code_line (coded_by (Ok c)) }
{
    let mut line = Reply::new();
    line.put(b"word=");
    line.put_hex(c.word, 12);
    line.put(b" score=");
    line.put_double(c.score);
    line.put(b" point=");
    line.put_list(c.point);
    line.put(b"\n");
    line
}

#[tactic(auto, using(refusal::proofs::Apart::never_zero), unfolding(crate::specs::Answers::code_line))]
fn code_line(answer: Result<Code, Refusal>) -> Reply
    ensures { result ≡ code_line (coded_by answer) }
{
    match answer {
        Ok(c) => code_text(c),
        Err(r) => refused(r.number()),
    }
}

fn scales_line(answer: Result<Scales, Refusal>) -> Reply
    ensures { result ≡ scales_line (measured_by answer) }
{
    let l = match answer {
        Ok(l) => l,
        Err(r) => return refused(r.number()),
    };
    let mut line = Reply::new();
    line.put(b"max=");
    line.put_double(l.largest);
    line.put(b" scale=");
    line.put_double(l.scale);
    line.put(b"\n");
    line
}

fn score_line(answer: Result<f64, Refusal>) -> Reply
    ensures { result ≡ score_line (scored_by answer) }
{
    let t = match answer {
        Ok(t) => t,
        Err(r) => return refused(r.number()),
    };
    let mut line = Reply::new();
    line.put(b"score=");
    line.put_double(t);
    line.put(b"\n");
    line
}

// ---- requests: the arguments stand from `at` to the line's end

// The point of a word.
#[tactic(auto, unfolding(crate::specs::Answers::decode_answer))]
fn decode(s: &[u8], at: usize) -> Reply
    ensures { result ≡ decode_answer s.now at }
{
    let Some(word) = last(s, read_hex(s, at)) else {
        return no_request();
    };
    point_line(tetra::decode(word))
}

// The word of a point.
#[tactic(auto, unfolding(crate::specs::Answers::point_answer))]
fn point(s: &[u8], at: usize) -> Reply
    ensures { result ≡ point_answer s.now at }
{
    let Some(y) = last(s, read_point(s, at)) else {
        return no_request();
    };
    word_line(tetra::encode(y))
}

// A setting of the shrinks: from 8 on all are the same.
fn setting(n: u64) -> u32
    ensures { result ≡ setting_of n }
{
    if n < 8 { n as u32 } else { 8 }
}

// The code at a scale. Here and below, `odd` says whether odd points are searched too.
#[tactic(auto, unfolding(crate::specs::Answers::scale_over))]
pub fn scale(s: &[u8], at: usize, odd: bool) -> Reply
    ensures { result ≡ scale_over (parities_of odd) s.now at }
{
    let Some((n, after)) = read_decimal(s, at) else {
        return no_request();
    };
    let Some((by, row)) = read_double(s, after) else {
        return no_request();
    };
    let Some(x) = last(s, read_samples(s, row)) else {
        return no_request();
    };
    code_line(encoder::encode_at_scale_over(x, by, setting(n), odd))
}

// The code at the scale that the samples give.
#[tactic(auto, unfolding(crate::specs::Answers::auto_over))]
pub fn auto(s: &[u8], at: usize, odd: bool) -> Reply
    ensures { result ≡ auto_over (parities_of odd) s.now at }
{
    let Some((n, row)) = read_decimal(s, at) else {
        return no_request();
    };
    let Some(x) = last(s, read_samples(s, row)) else {
        return no_request();
    };
    code_line(encoder::encode_with_over(x, setting(n), odd))
}

// The largest magnitude and the lower scale.
#[tactic(auto, unfolding(crate::specs::Answers::lower_answer))]
fn lower(s: &[u8], at: usize) -> Reply
    ensures { result ≡ lower_answer s.now at }
{
    let Some(x) = last(s, read_samples(s, at)) else {
        return no_request();
    };
    scales_line(score::lower_scale(x))
}

// The score of samples and a point.
#[tactic(auto, unfolding(crate::specs::Answers::score_answer))]
fn score(s: &[u8], at: usize) -> Reply
    ensures { result ≡ score_answer s.now at }
{
    let Some(samples) = read_samples(s, at) else {
        return no_request();
    };
    let (x, row) = samples;
    let Some(y) = last(s, read_point(s, row)) else {
        return no_request();
    };
    score_line(score::t_of(x, y))
}

// ---- any line, by its first word

#[tactic(auto, unfolding(crate::specs::Answers::of_samples))]
fn of_samples(s: &[u8]) -> Reply
    ensures { result ≡ of_samples s.now }
{
    if let Some(at) = after_name(s, b"auto") {
        return auto(s, at, true);
    }
    if let Some(at) = after_name(s, b"lower") {
        return lower(s, at);
    }
    if let Some(at) = after_name(s, b"score") {
        return score(s, at);
    }
    no_request()
}

// The line's end, an LF, is not among its bytes.
#[tactic(auto, unfolding(crate::specs::Answers::answer_of))]
pub fn answer(line: &[u8]) -> Reply
    ensures { result ≡ answer_of line.now }
{
    if let Some(at) = after_name(line, b"decode") {
        return decode(line, at);
    }
    if let Some(at) = after_name(line, b"point") {
        return point(line, at);
    }
    if let Some(at) = after_name(line, b"scale") {
        return scale(line, at, true);
    }
    of_samples(line)
}
