// What the program mkpage prints of a text: the page of the trace that it is, or the lines of a refusal.
#![tactic(auto)]

ghost use Rattle.std.specs.Prelude.{◌≡◌, ◌≤◌, cond, eqb, length, take};
ghost use Rattle.refusal.specs.Refusal.{number_of};
ghost use Rattle.trace.specs.Reader.{trace_in};
ghost use Rattle.writer.specs.Writer.{written_by};
ghost use Rattle.made.specs.Made.{names_block, refused_lines, made};

use refusal::Refusal;
use text::Printed;
use writer::Unwritten;

// Whether a refusal is about a block.
#[tactic(auto, using(crate::proofs::Naming::named, crate::proofs::Naming::other))]
fn names_block(refusal: Refusal) -> bool
    ensures { result ≡ names_block (number_of refusal) }
{
    matches!(refusal, Refusal::TooLarge | Refusal::TooFar)
}

// The lines of a refusal: its number, and for 2 and 4 the block that has it.
fn refused_lines(why: Unwritten) -> Printed<1189>
    ensures { result ≡ refused_lines (number_of why.refusal) why.block }
{
    let mut lines = Printed::new();
    lines.put_line(b"refused=", why.refusal.number() as u64);
    if names_block(why.refusal) {
        lines.put_line(b"block=", why.block as u64);
    }
    lines
}

// What is printed for what the writer answers: the page that it left in `bytes`, or the lines of its refusal.
#[tactic(auto, using(refusal::proofs::Apart::never_zero, crate::proofs::Making::page_alone))]
fn written_lines(written: Result<usize, Unwritten>, bytes: &[u8]) -> Printed<1189>
    requires { ((written_by written).length ≤ length bytes.now) × ((written_by written).length ≤ 1189) }
    ensures { result ≡ cond (eqb (written_by written).number 0) (take (written_by written).length bytes.now)
        (refused_lines (written_by written).number (written_by written).block) }
{
    match written {
        Ok(length) => {
            let mut page = Printed::new();
            page.put(&bytes[..length]);
            page
        }
        Err(why) => refused_lines(why),
    }
}

// What the program prints for an input: at most as many bytes as the longest page has. So the writer never refuses it for its room.
pub fn mkpage(text: &[u8]) -> Printed<1189>
    ensures { result ≡ made (trace_in text.now) }
{
    let trace = match trace::parse(text) {
        Ok(trace) => trace,
        Err(refusal) => return refused_lines(Unwritten { refusal, block: 0 }),
    };
    let mut bytes = [0u8; 1189];
    let written = writer::write(trace.num, trace.count, trace.samples(), &mut bytes);
    written_lines(written, &bytes)
}
