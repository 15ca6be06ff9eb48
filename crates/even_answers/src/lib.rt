// The answer to each request line of the program ask: those of the even profile here, all others by crate answers.
//
//   edecode W                   W: 1 to 16 hex digits, either case             -> point=c0,..,c23, or refused=13
//   epoint C0 .. C23            C: an i32, decimal digits with a - or no sign  -> word=W12, or refused=K, or refused=11 section=S
//   escale N S X0 .. X23        N: a setting, decimal digits; S, X: doubles    -> word=W12 score=B16 point=c0,..,c23, or refused=K
//   eauto N X0 .. X23           at the scale that the samples give             -> the same
//
// Each has the form of the request of crate answers whose name lacks the e, and its answer that one's form. Samples are coded over the even
// points alone.
//
// It is a crate of its own so that the full coder's answers are proved without the profile.
#![tactic(auto)]

ghost use Rattle.std.specs.Prelude.{◌≡◌};
ghost use Rattle.even.specs.Even.{decoded_by};
ghost use Rattle.even_answers.specs.EvenAnswers.{decoded_line, even_decode_answer, even_point_answer, even_answer_of};

use answers::{Reply, no_request, point_line, refused, word_line};
use refusal::Refusal;
use request::{after_name, last, read_hex, read_point};

// ---- lines

fn decoded_line(answer: Result<[i32; 24], Refusal>) -> Reply
    ensures { result ≡ decoded_line (decoded_by answer) }
{
    match answer {
        Ok(point) => point_line(point),
        Err(r) => refused(r.number()),
    }
}

// ---- requests: the arguments stand from `at` to the line's end

// The point of an even word.
#[tactic(auto, unfolding(crate::specs::EvenAnswers::even_decode_answer))]
fn decode(s: &[u8], at: usize) -> Reply
    ensures { result ≡ even_decode_answer s.now at }
{
    let Some(word) = last(s, read_hex(s, at)) else {
        return no_request();
    };
    decoded_line(even::decode(word))
}

// The word of an even point.
#[tactic(auto, unfolding(crate::specs::EvenAnswers::even_point_answer))]
fn point(s: &[u8], at: usize) -> Reply
    ensures { result ≡ even_point_answer s.now at }
{
    let Some(y) = last(s, read_point(s, at)) else {
        return no_request();
    };
    word_line(even::encode_point(y))
}

// ---- any line, by its first word

// The line's end, an LF, is not among its bytes. The `false` of two calls says that no odd points are searched.
#[tactic(auto, unfolding(crate::specs::EvenAnswers::even_answer_of))]
pub fn answer(line: &[u8]) -> Reply
    ensures { result ≡ even_answer_of line.now }
{
    if let Some(at) = after_name(line, b"edecode") {
        return decode(line, at);
    }
    if let Some(at) = after_name(line, b"epoint") {
        return point(line, at);
    }
    if let Some(at) = after_name(line, b"escale") {
        return answers::scale(line, at, false);
    }
    if let Some(at) = after_name(line, b"eauto") {
        return answers::auto(line, at, false);
    }
    answers::answer(line)
}
