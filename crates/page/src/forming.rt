// The text of a page, formed line by line. Each of these writes lines where the buffer is known to have room
// for them, and answers the place behind them.
ghost use Rattle.std.specs.Prelude.{◌≡◌, ◌+◌, ◌*◌, ◌≤◌, length};
ghost use Rattle.std.proofs.lemmas.List.Edits.{sets};
ghost use Rattle.page.specs.Page.{word_line, word_lines};
ghost use Rattle.page.specs.Form.{is_num, form_text};
ghost use Rattle.page.specs.Laws.Form.{head_lines};

use crate::Page;
use text::{put, put_hex, put_line};

// Whether a page can have this num.
#[tactic(auto, using(std::proofs::lemmas::Bool::Decides::nat_tests), unfolding(crate::specs::Form::is_num))]
pub(crate) fn is_num(num: u32) -> bool
    ensures { result ≡ is_num num }
{
    matches!(num, 1..=65535)
}

// The lines in front of the words, from the buffer's start on: at most 37 bytes.
fn put_head(out: &mut [u8], page: &Page) -> usize
    requires { 37 ≤ length out.old }
    ensures { (result ≡ length (head_lines page.now.num page.now.count)) × (result ≤ 37) ×
        (out.new ≡ sets out.old 0 (head_lines page.now.num page.now.count)) }
{
    let a = put(out, 0, b"format=tetra-page\n");
    let b = put_line(out, a, b"num=", page.num as u64);
    put_line(out, b, b"count=", page.count as u64)
}

// The line of a word.
fn put_word(out: &mut [u8], at: usize, word: u64) -> usize
    requires { at + 18 ≤ length out.old }
    ensures { (result ≡ at + 18) × (out.new ≡ sets out.old at (word_line word)) }
{
    let a = put(out, at, b"word=");
    let b = put_hex(out, a, word, 12);
    put(out, b, b"\n")
}

// The lines of some words.
fn put_words(out: &mut [u8], at: usize, words: &[u64]) -> usize
    requires { at + 18 * length words.now ≤ length out.old }
    ensures { (result ≡ at + 18 * length words.now) × (out.new ≡ sets out.old at (word_lines words.now)) }
{
    let mut next = at;
    for word in words {
        next = put_word(out, next, *word);
    }
    next
}

// The whole text, from the buffer's start on: at most 1,189 bytes.
pub(crate) fn put_page(out: &mut [u8], page: &Page) -> usize
    requires { 1189 ≤ length out.old }
    ensures { (result ≡ length (form_text page.now.num page.now.count page.now.words)) × (result ≤ 1189) ×
        (out.new ≡ sets out.old 0 (form_text page.now.num page.now.count page.now.words)) }
{
    let at = put_head(out, page);
    put_words(out, at, page.words())
}
