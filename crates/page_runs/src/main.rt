// Puts each text of standard input to the page reader. Texts stand one behind another, with a % between two. For each it prints what
// `read` answers with a buffer of 24 cells, what the reader of the even profile does, and then what unpage would print.
#![tactic(auto)]

use refusal::Refusal;
use std::io;

// The number of an answer, and its count, which is 0 on a refusal.
fn print_read(rt: &impl Print, key: &str, read: Result<usize, Refusal>) -> io::Result<()> {
    let (number, count) = match read {
        Ok(count) => (0, count),
        Err(refusal) => (refusal.number(), 0),
    };
    println!(rt; "{key}{number} count={count}")
}

fn answer(rt: &impl Print, text: &[u8]) -> io::Result<()> {
    let mut cells = [0i32; 24];
    print_read(rt, "number=", page::read(text, &mut cells))?;
    print_read(rt, "even number=", even::read_page(text, &mut cells))?;
    rt.write_all(shown::unpage(text).as_slice())
}

// What stands behind the last % is a text too.
fn main(rt: HostRuntime) -> io::Result<()> {
    let mut texts = [0u8; 8192];
    let n = input::read_all(&mut rt.stdin(), &mut texts)?;
    for text in texts[..n].split(|b| *b == b'%') {
        answer(&rt, text)?;
    }
    Ok(())
}
