// The trace page: a text of words in, counts out; and words in, their text out.
#![tactic(auto)]

mod content;
mod count;
mod forming;
mod line;

ghost use Rattle.std.specs.Prelude.{◌≡◌, ◌≤◌, length};
ghost use Rattle.page.specs.Answer.{parsed_by, parsed_of, read_by, read_of, cells_of};
ghost use Rattle.page.specs.Reader.{words_at, reading_of};
ghost use Rattle.page.specs.Form.{formed_by, formed_of, form_in};

pub use content::Page;
use refusal::Refusal;
use text::{decimal_line, put};

// The rest of a page behind its count line: the word lines, and nothing behind them.
fn words_of(text: &[u8], num: u32, count: usize) -> Result<Page, Refusal>
    requires { (1 ≤ num) × (num ≤ 65535) × (count ≤ 64) }
    ensures { parsed_by result ≡ parsed_of (words_at num count text.now) }
{
    let mut words = [0; 64];
    let mut at = 0;
    for i in 0..count {
        let Some((word, n)) = line::word_line(&text[at..]) else {
            return Err(Refusal::NoPage);
        };
        words[i] = word;
        at += n;
    }
    if at != text.len() {
        return Err(Refusal::NoPage);
    }
    Ok(Page { num, count, words })
}

// The page that a text is, read whole before anything is answered.
pub fn parse(text: &[u8]) -> Result<Page, Refusal>
    ensures { parsed_by result ≡ parsed_of (reading_of text.now) }
{
    let Some((_, a)) = line::format_line(text) else {
        return Err(Refusal::NoPage);
    };
    let s = &text[a..];
    let Some((num, b)) = decimal_line(s, b"num=", 1, 65535) else {
        return Err(Refusal::NoPage);
    };
    let t = &s[b..];
    let Some((count, c)) = decimal_line(t, b"count=", 0, 64) else {
        return Err(Refusal::NoPage);
    };
    words_of(&t[c..], num as u32, count as usize)
}

// Reads a page into the buffer, 24 counts per block, from its start on, and answers how many blocks it wrote. The buffer is written only once the whole text is
// known to be a page and the buffer to have room for it.
pub fn read(text: &[u8], out: &mut [i32]) -> Result<usize, Refusal>
    ensures value { read_by result ≡ read_of (reading_of text.now) (length out.old) }
    ensures out_after { out.new ≡ cells_of (reading_of text.now) out.old }
{
    let page = parse(text)?;
    let count = page.count;
    if out.len() < 24 * count {
        return Err(Refusal::NoRoom);
    }
    count::put_blocks(out, &page);
    Ok(count)
}

// Forms the text of the page of num and of the first `count` words, from the buffer's start on, and answers the text's length: the inverse
// of `parse`. Of each word the low 48 bits are written, so none is refused. The text is made apart and then
// put whole or not at all, so a refusal leaves the buffer as it was.
// A count beside the words, and no slice: the call answers for every count, also one above 64 (`on_many_words` of specs/FormRule).
pub fn form(num: u32, count: usize, words: [u64; 64], out: &mut [u8]) -> Result<usize, Refusal>
    ensures value { formed_by result ≡ formed_of num count words (length out.old) }
    ensures out_after { out.new ≡ form_in num count words out.old }
{
    if !forming::is_num(num) {
        return Err(Refusal::NoScale);
    }
    if 64 < count {
        return Err(Refusal::NoPage);
    }
    let page = Page { num, count, words };
    let mut bytes = [0u8; 1189];
    let length = forming::put_page(&mut bytes, &page);
    let end = put(out, 0, &bytes[..length]);
    if out.len() < end {
        return Err(Refusal::NoRoom);
    }
    Ok(length)
}
