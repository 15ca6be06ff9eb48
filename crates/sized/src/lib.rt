// What the program sizes prints of a text: the summary of a page, a line for each cell, or the line of a
// refusal.
#![tactic(auto)]

ghost use Rattle.std.specs.Prelude.{◌≡◌, ◌+◌, ◌*◌, ◌<◌, ◌≤◌, ◌++◌, length, drop};
ghost use Rattle.text.specs.Text.{line, signed};
ghost use Rattle.page.specs.Reader.{reading_of};
ghost use Rattle.sized.specs.Sized.{row_text, block_text, summary_text, printed};

use summary::summarise;
use text::Printed;

// The line of a cell. An i32 has at most ten digits and a sign.
fn put_cell(lines: &mut Printed<73>, key: &[u8], z: i32)
    requires { length lines.old + (length key.now + 12) ≤ 73 }
    ensures text { lines.new ≡ lines.old ++ line key.now (signed z) }
    ensures most { length lines.new ≤ length lines.old + (length key.now + 12) }
{
    lines.put(key);
    lines.put_signed(z);
    lines.put(b"\n");
}

// The four lines of the row that stands at `from`, whatever four i32 it holds.
fn row_text(rows: &[i32], from: usize) -> Printed<73>
    requires { from + 4 ≤ length rows.now }
    ensures { result ≡ row_text (drop from rows.now) }
{
    let mut lines = Printed::new();
    put_cell(&mut lines, b"sum=", rows[from]);
    put_cell(&mut lines, b"largest=", rows[from + 1]);
    put_cell(&mut lines, b"smallest=", rows[from + 2]);
    put_cell(&mut lines, b"odd=", rows[from + 3]);
    lines
}

// A block, whose row stands at `from`: at most 9 bytes in the line of its index, and its row.
fn block_text(index: usize, rows: &[i32], from: usize) -> Printed<82>
    requires { (from + 4 ≤ length rows.now) × (index < 100) }
    ensures { result ≡ block_text index (drop from rows.now) }
{
    let mut lines = Printed::new();
    lines.put_line(b"block=", index as u64);
    lines.put(row_text(rows, from).as_slice());
    lines
}

// The summary of `count` blocks, whose rows stand behind the page's: at most 10 bytes in the line of the count, the page's row, and the
// blocks.
fn summary_text(rows: &[i32], count: usize) -> Printed<5331>
    requires { (count ≤ 64) × (4 * (count + 1) ≤ length rows.now) }
    ensures { result ≡ summary_text count rows.now }
{
    let mut all = Printed::new();
    all.put_line(b"blocks=", count as u64);
    all.put(row_text(rows, 0).as_slice());
    for i in 0..count {
        all.put(block_text(i, rows, 4 * (i + 1)).as_slice());
    }
    all
}

// What the program prints for an input. Its buffer has room for every page.
pub fn sizes(text: &[u8]) -> Printed<5331>
    ensures { result ≡ printed (reading_of text.now) }
{
    let mut rows = [0i32; 260];
    let count = match summarise(text, &mut rows) {
        Ok(count) => count,
        Err(refusal) => {
            let mut line = Printed::new();
            line.put_line(b"refused=", refusal.number() as u64);
            return line;
        }
    };
    summary_text(&rows, count)
}
