// The demands over the public calls, on one page. Each function makes a call, and where the demand speaks of
// it the calls back with the answer, and ensures what is demanded of all those answers, in the words of
// specs/Demands. None has a `requires`: what stands here holds for every input. That a call ends is part of
// its proof.
#![tactic(auto)]

ghost use Rattle.std.specs.Prelude.{◌≡◌};
ghost use Rattle.tetra.specs.Tetra.{point_of};
ghost use Rattle.tetra.specs.Encode.{encoded_by, encode_of};
ghost use Rattle.score.specs.Samples.{sample_number};
ghost use Rattle.score.specs.Score.{t_of, scored_by};
ghost use Rattle.score.specs.Scale.{lower_scale, measured_by};
ghost use Rattle.search.specs.Parity.{even_parities};
ghost use Rattle.encoder.specs.Encode.{coded_by, number_at, number_of, encode_at_scale, encode_with, encode_samples};
ghost use Rattle.encoder.specs.Encode.{encode_at_over, encode_over, encode_samples_over};
ghost use Rattle.even.specs.Even.{decoded_by, even_decoded, even_encoded};
ghost use Rattle.refusal.specs.Refusal.{number_in};
ghost use Rattle.page.specs.Answer.{parsed_by, read_by};
ghost use Rattle.page.specs.Form.{formed_by};
ghost use Rattle.writer.specs.Writer.{written_by};
ghost use Rattle.summary.specs.Answer.{summed_by};
ghost use Rattle.promise.specs.Demands.{PointOfWord, BackToWord};
ghost use Rattle.promise.specs.Demands.{RefusesOthers, AcceptsMembers, KeepsPoint, RefusesByFour, SaysWhy};
ghost use Rattle.promise.specs.Demands.{Numbered, KeepsCode, ReturnsNearest, Scores, Scaled};
ghost use Rattle.promise.specs.Demands.{RootIsNearest, RootOfZero, RootRefused};
ghost use Rattle.root.specs.Root.{rooted_by};
ghost use Rattle.text.specs.Held.{in_array};
ghost use Rattle.promise.specs.Demands.{ParsesPages, ParsesNoOther, PrintsPages, PrintsRefusal};
ghost use Rattle.promise.specs.Demands.{FormsPages, FormsPage, RefusesToForm};
ghost use Rattle.promise.specs.Demands.{WritesPage, CodesBlocks, WritesNearest, RefusesToWrite, WritesOthers};
ghost use Rattle.promise.specs.Demands.{MakesPages, MakesNoOther};
ghost use Rattle.promise.specs.Demands.{SummarisesPages, RowsSay, RefusesToSummarise, ChecksSummary, RefusesToCheck};
ghost use Rattle.promise.specs.Demands.{AddsWord, KeepsSummary, RefusesToAdd};
ghost use Rattle.promise.specs.Demands.{ReadsPages, RoundsToEven, RefusesNoPage, RefusesShort, AcceptsPagesOnly};
ghost use Rattle.promise.specs.Demands.{ChecksWord, DecodesEven, BackToEven};
ghost use Rattle.promise.specs.Demands.{AcceptsEven, RefusesOdd, KeepsEvenPoint};
ghost use Rattle.promise.specs.Demands.{KeepsEvenCode, ReturnsNearestEven, AgreesWhereEven};
ghost use Rattle.promise.specs.Demands.{ReadsEvenPages, RefusesToReadEven};

use encoder::Code;
use page::Page;
use refusal::Refusal;
use score::Scales;
use text::Printed;
use writer::Unwritten;

// A word's point, and what the point encodes to.
#[derive(Clone, Copy)]
pub struct FromWord {
    pub point: [i32; 24],
    pub back: Result<u64, Refusal>,
}

// A point's word, and what the word decodes to.
#[derive(Clone, Copy)]
pub struct FromPoint {
    pub coded: Result<u64, Refusal>,
    pub back: [i32; 24],
}

// The code of samples, what its word decodes to, and what its point encodes to.
#[derive(Clone, Copy)]
pub struct FromSamples {
    pub code: Result<Code, Refusal>,
    pub decoded: [i32; 24],
    pub encoded: Result<u64, Refusal>,
}

// Whether the even profile has a word, its point, and what the point encodes to.
#[derive(Clone, Copy)]
pub struct EvenFromWord {
    pub checked: Result<(), Refusal>,
    pub decoded: Result<[i32; 24], Refusal>,
    pub back: Result<u64, Refusal>,
}

// A point's word in the profile, the full coder's answer, and what the profile's word decodes to.
#[derive(Clone, Copy)]
pub struct EvenFromPoint {
    pub coded: Result<u64, Refusal>,
    pub full: Result<u64, Refusal>,
    pub back: Result<[i32; 24], Refusal>,
}

// The profile's code of samples, what its word decodes to, and what its point encodes to.
#[derive(Clone, Copy)]
pub struct EvenFromSamples {
    pub code: Result<Code, Refusal>,
    pub decoded: Result<[i32; 24], Refusal>,
    pub encoded: Result<u64, Refusal>,
}

// The profile's code of samples, and the full coder's.
#[derive(Clone, Copy)]
pub struct EvenAndFull {
    pub even: Result<Code, Refusal>,
    pub full: Result<Code, Refusal>,
}

// ---- words and points
// `decode`, and `encode` of its point.
pub fn from_word(word: u64) -> FromWord
    ensures point_of_word { PointOfWord word result.point }
    ensures back_to_word { BackToWord word (encoded_by result.back) }
{
    let point = tetra::decode(word);
    let back = tetra::encode(point);
    FromWord { point, back }
}

// `encode`, and `decode` of its word.
pub fn from_point(point: [i32; 24]) -> FromPoint
    ensures refuses_others { RefusesOthers point (encoded_by result.coded) }
    ensures accepts_members { AcceptsMembers point (encoded_by result.coded) }
    ensures keeps_point { KeepsPoint point (encoded_by result.coded) result.back }
    ensures refuses_by_four { RefusesByFour (encoded_by result.coded) }
    ensures says_why { SaysWhy point (encoded_by result.coded) }
{
    let coded = tetra::encode(point);
    let back = tetra::decode(coded.unwrap_or(0));
    FromPoint { coded, back }
}

// ---- samples
// `encode_at_scale`, at any setting of the shrinks, with `decode` of its word and `encode` of its point. Its
// code is the one of the Rust's search, which `encode_at_scale` defines float operation by float operation.
pub fn at_scale(samples: [f64; 24], scale: f64, setting: u32) -> FromSamples
    ensures numbered { Numbered (number_at samples scale setting) (coded_by result.code) }
    ensures code_value { coded_by result.code ≡ encode_at_scale samples scale setting }
    ensures keeps_code { KeepsCode (coded_by result.code) result.decoded (encoded_by result.encoded) }
    ensures returns_nearest { ReturnsNearest samples scale (coded_by result.code) }
{
    with_back(encoder::encode_at_scale(samples, scale, setting))
}

// `encode_with`, in the same way: at the scale that the samples give.
pub fn with_setting(samples: [f64; 24], setting: u32) -> FromSamples
    ensures numbered { Numbered (number_of samples setting) (coded_by result.code) }
    ensures code_value { coded_by result.code ≡ encode_with samples setting }
    ensures keeps_code { KeepsCode (coded_by result.code) result.decoded (encoded_by result.encoded) }
{
    with_back(encoder::encode_with(samples, setting))
}

// The sample encoder's `encode`, in the same way: it names no setting.
pub fn at_own_scale(samples: [f64; 24]) -> FromSamples
    ensures numbered { Numbered (sample_number samples) (coded_by result.code) }
    ensures code_value { coded_by result.code ≡ encode_samples samples }
    ensures keeps_code { KeepsCode (coded_by result.code) result.decoded (encoded_by result.encoded) }
{
    with_back(encoder::encode(samples))
}

// The word and the point of an answer: where it is a refusal, those of the empty code.
fn word_and_point(code: Result<Code, Refusal>) -> (u64, [i32; 24])
    ensures word_value { result.0 ≡ (coded_by code).word }
    ensures point_value { result.1 ≡ (coded_by code).point }
{
    match code {
        Ok(c) => {
            let point = c.point;
            (c.word, point)
        }
        Err(_) => (0, [0i32; 24]),
    }
}

// A code, `decode` of its word and `encode` of its point.
fn with_back(code: Result<Code, Refusal>) -> FromSamples
    ensures code_value { coded_by result.code ≡ coded_by code }
    ensures decoded_value { result.decoded ≡ point_of (coded_by result.code).word }
    ensures encoded_value { encoded_by result.encoded ≡ encode_of (coded_by result.code).point }
{
    let (word, point) = word_and_point(code);
    let decoded = tetra::decode(word);
    let encoded = tetra::encode(point);
    FromSamples {
        code,
        decoded,
        encoded,
    }
}

// ---- what samples give besides
// `t_of`.
pub fn score_of(samples: [f64; 24], point: [i32; 24]) -> Result<f64, Refusal>
    ensures { Scores (sample_number samples) (t_of samples point) (scored_by result) }
{
    score::t_of(samples, point)
}

// `lower_scale`.
pub fn scale_of(samples: [f64; 24]) -> Result<Scales, Refusal>
    ensures { Scaled (sample_number samples) (lower_scale samples) (measured_by result) }
{
    score::lower_scale(samples)
}

// ---- roots
// `root`.
pub fn root_of(x: f64) -> Result<f64, Refusal>
    ensures root_is_nearest { RootIsNearest x (rooted_by result) }
    ensures root_of_zero { RootOfZero x (rooted_by result) }
    ensures root_refused { RootRefused x (rooted_by result) }
{
    root::root(x)
}

// ---- pages
// `parse`.
pub fn parsed_page(text: &[u8]) -> Result<Page, Refusal>
    ensures parses_pages { ParsesPages text.now (parsed_by result) }
    ensures parses_no_other { ParsesNoOther text.now (parsed_by result) }
{
    page::parse(text)
}

// `read`.
pub fn from_page(text: &[u8], out: &mut [i32]) -> Result<usize, Refusal>
    ensures reads_pages { ReadsPages text.now out.old out.new (read_by result) }
    ensures rounds_to_even { RoundsToEven text.now out.new (read_by result) }
    ensures refuses_no_page { RefusesNoPage text.now out.old out.new (read_by result) }
    ensures refuses_short { RefusesShort text.now out.old out.new (read_by result) }
    ensures accepts_pages_only { AcceptsPagesOnly text.now (read_by result) }
{
    page::read(text, out)
}

// `unpage`.
pub fn printed_page(text: &[u8]) -> Printed<20672>
    ensures prints_pages { PrintsPages text.now (in_array 20672 result) }
    ensures prints_refusal { PrintsRefusal text.now (in_array 20672 result) }
{
    shown::unpage(text)
}

// `form`, the inverse of `parse`.
pub fn formed_page(
    num: u32,
    count: usize,
    words: [u64; 64],
    out: &mut [u8],
) -> Result<usize, Refusal>
    ensures forms_pages { FormsPages num count words out.old out.new (formed_by result) }
    ensures forms_page { FormsPage num count words out.new (formed_by result) }
    ensures refuses_to_form { RefusesToForm num count words out.old out.new (formed_by result) }
{
    page::form(num, count, words, out)
}

// `write`: whole samples to the text of their page.
pub fn written_page(
    num: u32,
    count: usize,
    samples: &[i32],
    text: &mut [u8],
) -> Result<usize, Unwritten>
    ensures writes_page { WritesPage num count samples.now text.old text.new (written_by result) }
    ensures codes_blocks { CodesBlocks num count samples.now (written_by result) }
    ensures writes_nearest { WritesNearest num count samples.now (written_by result) }
    ensures refuses_to_write { RefusesToWrite num count samples.now text.old text.new (written_by result) }
    ensures writes_others { WritesOthers num count samples.now text.old (written_by result) }
{
    writer::write(num, count, samples, text)
}

// `mkpage`: a trace to its page, as text.
pub fn made_page(text: &[u8]) -> Printed<1189>
    ensures makes_pages { MakesPages text.now (in_array 1189 result) }
    ensures makes_no_other { MakesNoOther text.now (in_array 1189 result) }
{
    made::mkpage(text)
}

// ---- summaries beside pages
// `summarise`: a page to its rows.
pub fn summarised_page(text: &[u8], rows: &mut [i32]) -> Result<usize, Refusal>
    ensures summarises_pages { SummarisesPages text.now rows.old rows.new (summed_by result) }
    ensures rows_say { RowsSay text.now rows.new (summed_by result) }
    ensures refuses_to_summarise { RefusesToSummarise text.now rows.old rows.new (summed_by result) }
{
    summary::summarise(text, rows)
}

// `check`: whether rows are a page's.
pub fn checked_summary(text: &[u8], rows: &[i32]) -> Result<(), Refusal>
    ensures checks_summary { ChecksSummary text.now rows.now (number_in result) }
    ensures refuses_to_check { RefusesToCheck text.now rows.now (number_in result) }
{
    summary::check(text, rows)
}

// `add`: rows with one word more.
pub fn added_word(text: &[u8], word: u64, rows: &mut [i32]) -> Result<usize, Refusal>
    ensures adds_word { AddsWord text.now word rows.old rows.new (summed_by result) }
    ensures keeps_summary { KeepsSummary text.now word rows.old rows.new (summed_by result) }
    ensures refuses_to_add { RefusesToAdd text.now rows.old rows.new (summed_by result) }
{
    summary::add(text, word, rows)
}

// ---- the even profile
// `check` and `decode` of a word, and `encode_point` of its point.
pub fn even_word(word: u64) -> EvenFromWord
    ensures checks_word { ChecksWord word (number_in result.checked) }
    ensures decodes_even { DecodesEven word (decoded_by result.decoded) }
    ensures back_to_even { BackToEven word (encoded_by result.back) }
{
    let checked = even::check(word);
    let decoded = even::decode(word);
    let back = even::encode_point(decoded.unwrap_or([0i32; 24]));
    EvenFromWord {
        checked,
        decoded,
        back,
    }
}

// `encode_point`, the full coder's `encode` beside it, and `decode` of its word.
pub fn even_point(point: [i32; 24]) -> EvenFromPoint
    ensures accepts_even { AcceptsEven point (encoded_by result.coded) }
    ensures refuses_odd { RefusesOdd point (encoded_by result.coded) (encoded_by result.full) }
    ensures keeps_even_point { KeepsEvenPoint point (encoded_by result.coded) (decoded_by result.back) }
{
    let coded = even::encode_point(point);
    let full = tetra::encode(point);
    let back = even::decode(coded.unwrap_or(0));
    EvenFromPoint { coded, full, back }
}

// `encode_at_scale` over the even points, with `decode` of its word and `encode_point` of its point.
pub fn even_at_scale(samples: [f64; 24], scale: f64, setting: u32) -> EvenFromSamples
    ensures numbered { Numbered (number_at samples scale setting) (coded_by result.code) }
    ensures code_value { coded_by result.code ≡ encode_at_over even_parities samples scale setting }
    ensures keeps_even_code { KeepsEvenCode (coded_by result.code) (decoded_by result.decoded) (encoded_by result.encoded) }
    ensures returns_nearest_even { ReturnsNearestEven samples scale (coded_by result.code) }
{
    with_even_back(even::encode_at_scale(samples, scale, setting))
}

// The same beside the full coder's answer.
pub fn even_beside_full(samples: [f64; 24], scale: f64, setting: u32) -> EvenAndFull
    ensures { AgreesWhereEven (coded_by result.even) (coded_by result.full) }
{
    let full = encoder::encode_at_scale(samples, scale, setting);
    let even = even::encode_at_scale(samples, scale, setting);
    EvenAndFull { even, full }
}

// `encode_with` over the even points, in the same way: at the scale that the samples give.
pub fn even_with_setting(samples: [f64; 24], setting: u32) -> EvenFromSamples
    ensures numbered { Numbered (number_of samples setting) (coded_by result.code) }
    ensures code_value { coded_by result.code ≡ encode_over even_parities samples setting }
    ensures keeps_even_code { KeepsEvenCode (coded_by result.code) (decoded_by result.decoded) (encoded_by result.encoded) }
{
    with_even_back(even::encode_with(samples, setting))
}

// Its `encode`, in the same way: it names no setting.
pub fn even_at_own_scale(samples: [f64; 24]) -> EvenFromSamples
    ensures numbered { Numbered (sample_number samples) (coded_by result.code) }
    ensures code_value { coded_by result.code ≡ encode_samples_over even_parities samples }
    ensures keeps_even_code { KeepsEvenCode (coded_by result.code) (decoded_by result.decoded) (encoded_by result.encoded) }
{
    with_even_back(even::encode(samples))
}

// A code, `decode` of its word and `encode_point` of its point.
fn with_even_back(code: Result<Code, Refusal>) -> EvenFromSamples
    ensures code_value { coded_by result.code ≡ coded_by code }
    ensures decoded_value { decoded_by result.decoded ≡ even_decoded (coded_by result.code).word }
    ensures encoded_value { encoded_by result.encoded ≡ even_encoded (coded_by result.code).point }
{
    let (word, point) = word_and_point(code);
    let decoded = even::decode(word);
    let encoded = even::encode_point(point);
    EvenFromSamples {
        code,
        decoded,
        encoded,
    }
}

// `read_page`.
pub fn even_page(text: &[u8], out: &mut [i32]) -> Result<usize, Refusal>
    ensures reads_even_pages { ReadsEvenPages text.now out.old out.new (read_by result) }
    ensures refuses_to_read_even { RefusesToReadEven text.now out.old out.new (read_by result) }
{
    even::read_page(text, out)
}
