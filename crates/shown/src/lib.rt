// What the program unpage prints of a text: two lines for each block of a page, or the line of a refusal.
#![tactic(auto)]

ghost use Rattle.std.specs.Prelude.{◌≡◌, ◌+◌, ◌*◌, ◌≤◌, length, take, drop};
ghost use Rattle.page.specs.Reader.{reading_of};
ghost use Rattle.shown.specs.Shown.{block_text, block_texts, printed};

use page::read;
use text::Printed;

// The two lines of a block: its index, and its counts.
fn block_text(index: usize, counts: [i32; 24]) -> Printed<323>
    ensures { result ≡ block_text index counts }
{
    let mut lines = Printed::new();
    lines.put_line(b"block=", index as u64);
    lines.put(b"counts=");
    lines.put_list(counts);
    lines.put(b"\n");
    lines
}

// The 24 counts from `at` on.
fn counts_at(counts: &[i32], at: usize) -> [i32; 24]
    requires { at + 24 ≤ length counts.now }
    ensures { result ≡ take 24 (drop at counts.now) }
{
    tetra::block(counts, at)
}

// The lines of all blocks.
fn block_texts(counts: &[i32], count: usize) -> Printed<20672>
    requires { (24 * count ≤ length counts.now) × (count ≤ 64) }
    ensures { result ≡ block_texts 0 count counts.now }
{
    let mut all = Printed::new();
    for i in 0..count {
        let lines = block_text(i, counts_at(counts, 24 * i));
        all.put(lines.as_slice());
    }
    all
}

// What the program prints for an input: at most 323 bytes for each of 64 blocks.
pub fn unpage(text: &[u8]) -> Printed<20672>
    ensures { result ≡ printed (reading_of text.now) }
{
    let mut counts = [0i32; 1536];
    let count = match read(text, &mut counts) {
        Ok(count) => count,
        Err(refusal) => {
            let mut line = Printed::new();
            line.put_line(b"refused=", refusal.number() as u64);
            return line;
        }
    };
    block_texts(&counts, count)
}
