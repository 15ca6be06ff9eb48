// mkpage: prints the page of the trace on standard input, a num line and what unpage prints, or why there is
// none.
//
// The exit status is 0 whatever happens: a read or a write that fails is said on standard error. After a read
// nothing is printed, after a write nothing more is.
#![tactic(auto)]

// What cannot be said on standard error either is said nowhere. It stands in unpage, sizes and mkpage: no contract could say what a shared one did,
// and a public function of this repository has a contract that fixes its answer.
fn complain(rt: &impl Eprint, what: &str) {
    let _ = rt.eprintln(what);
}

// No trace has more than 19,461 bytes, so an input that fills the buffer is none, whatever follows
// (start_tells of crate trace). Nothing is printed before the whole trace is read.
fn main(rt: HostRuntime) {
    let mut text = [0u8; 19462];
    let Ok(n) = input::read_all(&mut rt.stdin(), &mut text) else {
        complain(&rt, "mkpage: standard input cannot be read");
        return;
    };
    let printed = made::mkpage(&text[..n]);
    if rt.write_all(printed.as_slice()).is_err() {
        complain(
            &rt,
            "mkpage: standard output cannot be written, some of the answer is missing",
        );
    }
}
