// unpage: prints the blocks of the page on standard input, or that it is no page.
//
// The exit status is 0 whatever happens: a read or a write that fails is said on standard error. After a read
// nothing is printed, after a write nothing more is.
#![tactic(auto)]

// What cannot be said on standard error either is said nowhere. It stands in unpage, sizes and mkpage: no contract could say what a shared one did,
// and a public function of this repository has a contract that fixes its answer.
fn complain(rt: &impl Eprint, what: &str) {
    let _ = rt.eprintln(what);
}

// No page has more than 1,189 bytes, so an input that fills the buffer is none, whatever follows (start_tells
// of crate page). Nothing is printed before the whole page is read.
fn main(rt: HostRuntime) {
    let mut text = [0u8; 1190];
    let Ok(n) = input::read_all(&mut rt.stdin(), &mut text) else {
        complain(&rt, "unpage: standard input cannot be read");
        return;
    };
    let printed = shown::unpage(&text[..n]);
    if rt.write_all(printed.as_slice()).is_err() {
        complain(
            &rt,
            "unpage: standard output cannot be written, some of the answer is missing",
        );
    }
}
