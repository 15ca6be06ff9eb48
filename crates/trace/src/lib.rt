// The text of a trace: a line of num, and then blocks of samples as the program unpage prints a page's
// counts, two lines for each block. So what unpage prints of a page, behind the page's num line, is read back
// here; but any samples that are i32s have such a text.
//
// No public call has a `requires`. A text of any other form is refused, whatever part of it is like a trace.
#![tactic(auto)]

mod content;

ghost use Rattle.std.specs.Prelude.{◌≡◌, ◌+◌, ◌<◌, ◌≤◌, length};
ghost use Rattle.std.proofs.lemmas.List.Edits.{sets};
ghost use Rattle.trace.specs.Answer.{traced_by, traced_of};
ghost use Rattle.trace.specs.Reader.{block_at, blocks_at, trace_in};

pub use content::Trace;
use refusal::Refusal;
use text::{Read, decimal_line, list_line};

// The two lines of the block of this index: its samples, and how many bytes both lines take.
fn block_at(s: &[u8], index: usize) -> Read<[i32; 24]>
    requires { index < 64 }
    ensures { result ≡ block_at index s.now }
{
    let i = index as u32;
    let (_, first) = decimal_line(s, b"block=", i, i)?;
    let (values, second) = list_line(&s[first..], b"counts=")?;
    Some((values, first + second))
}

// The samples of a block, put from `at` on.
fn put_block(out: &mut [i32], at: usize, values: [i32; 24])
    requires { at + 24 ≤ length out.old }
    ensures { out.new ≡ sets out.old at values }
{
    out[at..at + 24].copy_from_slice(&values);
}

// The rest of a trace behind its num line: blocks in order from 0 on, up to the text's end. The text does not
// say how many they are; there are at most 64.
fn blocks_of(text: &[u8], num: u32) -> Result<Trace, Refusal>
    ensures { traced_by result ≡ traced_of (blocks_at num 0 64 text.now) }
{
    let mut samples = [0; 1536];
    let mut at = 0;
    let mut i = 0;
    // A `while`: how many blocks there are is known only where the text ends, so a `for` over indices is no plainer.
    while at < text.len() {
        if i == 64 {
            return Err(Refusal::NoPage);
        }
        let Some(block) = block_at(&text[at..], i) else {
            return Err(Refusal::NoPage);
        };
        let (values, n) = block;
        put_block(&mut samples, 24 * i, values);
        at += n;
        i += 1;
    }
    Ok(Trace {
        num,
        count: i,
        samples,
    })
}

// The trace that a text is, read whole before anything is answered.
pub fn parse(text: &[u8]) -> Result<Trace, Refusal>
    ensures { traced_by result ≡ traced_of (trace_in text.now) }
{
    let Some((num, n)) = decimal_line(text, b"num=", 0, 4294967295) else {
        return Err(Refusal::NoPage);
    };
    blocks_of(&text[n..], num as u32)
}
