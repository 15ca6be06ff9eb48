// Answers each request line of standard input with one line on standard output: crates answers and even_answers
// say how, at the heads of their src/lib.rt.
//
// A line's end is an LF, which the last line may lack. A line of 1,024 bytes or more is no request: it is answered by
// refused=9.
//
// The exit status is 0 whatever happens: a read or a write that fails is said on standard error, and from then
// on nothing is answered. What was written is a beginning of the right answers, whose last line may be cut.
#![tactic(auto)]

use std::fmt;
use std::io::Read;
use text::Printed;

// How much is read at once, and how many bytes of answers there is room for.
const ROOM: usize = 65536;

// Answers are written once so many bytes of them are held: no answer is longer than what is left of the buffer.
const FULL: usize = 64512;

// A line of so many bytes is too long, and what follows of it is not held.
const LINE: usize = 1024;

// What is held from byte to byte: the line so far, and the answers that are not written yet.
#[derive(Drop)]
struct Held {
    line: Printed<LINE>,
    out: Printed<ROOM>,
}

// What failed. After a write that failed nothing more is written: what follows would stand in the middle of a line.
#[derive(Clone, Copy)]
enum Failed {
    Read,
    Write,
}

impl fmt::Display for Failed {
    fn fmt<W: fmt::Write>(&self, f: &mut fmt::Formatter<W>) -> fmt::Result {
        f.write_str(match self {
            Failed::Read => "ask: standard input cannot be read, requests are missing",
            Failed::Write => "ask: standard output cannot be written, answers are missing",
        })
    }
}

// Writes the answers that are held.
fn write_out(rt: &impl Print, out: &mut Printed<ROOM>) -> Result<(), Failed> {
    rt.write_all(out.as_slice()).map_err(|_| Failed::Write)?;
    out.clear();
    Ok(())
}

// Answers the line that is held. Where it fills its array it was too long.
fn end_line(held: &mut Held) {
    let line = held.line.as_slice();
    let reply = if line.len() < LINE {
        even_answers::answer(line)
    } else {
        answers::no_request()
    };
    held.out.put(reply.as_slice());
    held.line.clear();
}

fn take(b: u8, held: &mut Held) {
    if b == b'\n' {
        end_line(held);
    } else {
        held.line.put(&[b]);
    }
}

// Takes bytes of the input, and writes the answers to the lines that end in them.
fn take_all(rt: &impl Print, bytes: &[u8], held: &mut Held) -> Result<(), Failed> {
    for b in bytes {
        take(*b, held);
        if FULL <= held.out.as_slice().len() {
            write_out(rt, &mut held.out)?;
        }
    }
    write_out(rt, &mut held.out)
}

// Reads once, and says how many bytes that were: at the end of the input none.
fn read_some(rt: &impl Print, from: &mut impl Read, held: &mut Held) -> Result<usize, Failed> {
    let mut bytes = [0u8; ROOM];
    let count = from.read(&mut bytes).map_err(|_| Failed::Read)?;
    if 0 < count {
        take_all(rt, &bytes[..count], held)?;
    }
    Ok(count)
}

// Reads to the end, and answers a last line with no LF too. A proved loop has to end, and nothing says that the input does: so the
// turns are counted, up to a number that no run reaches.
fn answer_all(rt: &impl Print, from: &mut impl Read, held: &mut Held) -> Result<(), Failed> {
    for _ in 0..u64::MAX {
        if read_some(rt, from, held)? == 0 {
            break;
        }
    }
    if held.line.as_slice().is_empty() {
        return Ok(());
    }
    end_line(held);
    write_out(rt, &mut held.out)
}

fn main(rt: HostRuntime) {
    let mut held = Held {
        line: Printed::new(),
        out: Printed::new(),
    };
    if let Err(failed) = answer_all(&rt, &mut rt.stdin(), &mut held) {
        // What cannot be said on standard error either is said nowhere.
        let _ = rt.eprintln(failed);
    }
}
