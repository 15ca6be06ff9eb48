// Puts each text of standard input to the calls of crate summary. Texts stand one behind another, with a %
// between two. For each it prints a line of what `summarise` answers and leaves, a line of what `check` says
// of these rows and of damaged ones, and a line for each of six calls of `add`, refused ones among them.
#![tactic(auto)]

ghost use Rattle.std.specs.Prelude.{◌<◌, ◌≤◌};

use refusal::Refusal;
use std::io;

// What stands in front of a cell: a comma within a row.
fn before(index: usize) -> &'static str {
    if index == 0 {
        " cells="
    } else if index % 4 == 0 {
        ";"
    } else {
        ","
    }
}

// The number of an answer: 0 where it is accepted.
fn number_of<T: Drop>(answer: Result<T, Refusal>) -> u32 {
    match answer {
        Ok(_) => 0,
        Err(refusal) => refusal.number(),
    }
}

// An answer, of which a refusal has the count 0, and the cells that the call was lent.
fn print_answer(rt: &impl Print, answer: Result<usize, Refusal>, cells: &[i32]) -> io::Result<()> {
    let number = number_of(answer);
    let count = answer.unwrap_or(0);
    print!(rt; " number={number} count={count}")?;
    for (i, cell) in cells.iter().enumerate() {
        let before = before(i);
        print!(rt; "{before}{cell}")?;
    }
    rt.println("")
}

// The rows with one cell changed by one.
fn damaged(rows: &[i32; 260], at: usize) -> [i32; 260]
    requires { at < 260 }
{
    let mut cells = *rows;
    cells[at] ^= 1;
    cells
}

// The summary of `count` blocks, and cells that hold 9 behind it.
fn copied(rows: &[i32; 260], count: usize) -> [i32; 265]
    requires { count ≤ 64 }
{
    let mut cells = [9i32; 265];
    let n = 4 * (count + 1);
    cells[..n].copy_from_slice(&rows[..n]);
    cells
}

// The summary as it is, with cells behind it; its last cell changed; the page's smallest; a cell too few.
fn show_checks(rt: &impl Print, text: &[u8], rows: &[i32; 260], count: usize) -> io::Result<()>
    requires { count ≤ 64 }
{
    let last = 4 * count + 3;
    let whole = number_of(summary::check(text, rows));
    let changed = number_of(summary::check(text, &damaged(rows, last)[..last + 1]));
    let smallest = number_of(summary::check(text, &damaged(rows, 2)[..last + 1]));
    let short = number_of(summary::check(text, &rows[..last]));
    println!(rt; "check={whole} last={changed} smallest={smallest} short={short}")
}

// A word added to the first n of the cells.
fn show_add(rt: &impl Print, text: &[u8], word: u64, rows: &[i32; 265], n: usize) -> io::Result<()>
    requires { n ≤ 265 }
{
    let mut cells = *rows;
    let summed = summary::add(text, word, &mut cells[..n]);
    print!(rt; "add={word:016x}")?;
    print_answer(rt, summed, &cells[..n])
}

// Four words, each to a fresh copy with a cell more than the longer summary takes; then a cell too few, and
// rows that are damaged.
fn show_adds(rt: &impl Print, text: &[u8], rows: &[i32; 260], count: usize) -> io::Result<()>
    requires { count ≤ 64 }
{
    let room = 4 * (count + 2);
    let cells = copied(rows, count);
    for word in [0x000000008e03, 0x008800f00101, 0x8000800000000001, 0x3800] {
        show_add(rt, text, word, &cells, room + 1)?;
    }
    show_add(rt, text, 1, &cells, room - 1)?;
    show_add(rt, text, 1, &copied(&damaged(rows, 2), count), room)
}

// As many cells as are shown of the rows: the summary and two behind it, of 260.
fn shown(count: usize) -> usize
    requires { count ≤ 64 }
    ensures { result ≤ 260 }
{
    (4 * (count + 1) + 2).min(260)
}

fn answer(rt: &impl Print, text: &[u8]) -> io::Result<()> {
    let mut rows = [7i32; 260];
    let summed = summary::summarise(text, &mut rows);
    let count = summed.unwrap_or(0);
    rt.print("summarise")?;
    print_answer(rt, summed, &rows[..shown(count)])?;
    show_checks(rt, text, &rows, count)?;
    show_adds(rt, text, &rows, count)
}

// What stands behind the last % is a text too.
fn main(rt: HostRuntime) -> io::Result<()> {
    let mut texts = [0u8; 8192];
    let n = input::read_all(&mut rt.stdin(), &mut texts)?;
    for text in texts[..n].split(|b| *b == b'%') {
        answer(&rt, text)?;
    }
    Ok(())
}
