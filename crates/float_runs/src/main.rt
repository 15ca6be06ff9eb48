// Replays roots and roundings: standard input has a double's bits on each line, 16 lower-case hexadecimal
// digits, and for each line the program writes the number and the bits of the root, and the rounded number.
#![tactic(auto)]

ghost use Rattle.std.specs.Io.{ReadsAtMost};

use std::io;
use std::io::Read;
use text::{double_of, hex, magnitude};

// A line: 16 digits and the line feed.
const LINE: usize = 17;

// A thousand lines.
const ROOM: usize = 17000;

fn print_signed(rt: &impl Print, k: i32) -> io::Result<()> {
    if k < 0 {
        rt.print("-")?;
    }
    let m = magnitude(k);
    print!(rt; "{m}")
}

fn print_root(rt: &impl Print, x: f64) -> io::Result<()> {
    match root::root(x) {
        Ok(r) => {
            let bits = f64::to_bits(r);
            print!(rt; "0 {bits:016x}")
        }
        Err(why) => {
            let number = why.number();
            print!(rt; "{number} 0000000000000000")
        }
    }
}

fn print_rounded(rt: &impl Print, x: f64) -> io::Result<()> {
    print_signed(rt, float::round(x))
}

fn print_answer(rt: &impl Print, x: f64) -> io::Result<()> {
    print_root(rt, x)?;
    rt.print(" ")?;
    print_rounded(rt, x)?;
    rt.print("\n")
}

// What a line's 16 digits stand for; a line of anything else is taken for zero.
fn bits_of(line: &[u8]) -> u64 {
    hex(line, 16).unwrap_or(0)
}

// Each whole line of s.
fn run(rt: &impl Print, s: &[u8]) -> io::Result<()> {
    let mut at = 0usize;
    while LINE <= s.len() - at {
        print_answer(rt, double_of(bits_of(&s[at..at + 16])))?;
        at += LINE;
    }
    Ok(())
}

// Reads until buf is full or the input ends, and says how many bytes it put at the start of buf.
fn read_full(from: &mut impl Read, buf: &mut [u8]) -> io::Result<usize>
    ensures { ReadsAtMost result buf.new }
{
    let mut n = 0;
    while n < buf.len() {
        let more = from.read(&mut buf[n..])?;
        if more == 0 {
            break;
        }
        n += more;
    }
    Ok(n)
}

// Reads up to a thousand lines, answers them, and says whether there may be more.
fn some_lines(rt: &impl Print, from: &mut impl Read) -> io::Result<bool> {
    let mut buf = [0u8; ROOM];
    let n = read_full(from, &mut buf)?;
    run(rt, &buf[..n])?;
    Ok(n == ROOM)
}

// A loop has to end, and nothing says that the input does: its turns are counted, up to a number that no input
// reaches.
fn main(rt: HostRuntime) -> io::Result<()> {
    for _ in 0..u64::MAX {
        if !some_lines(&rt, &mut rt.stdin())? {
            break;
        }
    }
    Ok(())
}
