// The summary that is kept beside a page, request 2026-04: rows of four cells in a lent buffer, first the
// page's and then one for each block, so that a list of pages can be shown without decoding their words. Each
// call reads the text itself and answers for every input.
#![tactic(auto)]

mod row;

ghost use Rattle.std.specs.Prelude.{◌≡◌, ◌+◌, ◌*◌, ◌≤◌, length, take, drop};
ghost use Rattle.std.proofs.lemmas.List.Edits.{sets};
ghost use Rattle.page.specs.Reader.{reading_of};
ghost use Rattle.summary.specs.Summary.{summary_of, cells_for};
ghost use Rattle.summary.specs.Cells.{cells_of};
ghost use Rattle.refusal.specs.Refusal.{number_in};
ghost use Rattle.summary.specs.Answer.{begin, agree, summed_by, summarised, summarised_rows, checked, added, added_rows};

use page::Page;
use refusal::Refusal;
use row::Row;

// Writes a row from `at` on.
fn put_row(rows: &mut [i32], at: usize, row: Row)
    requires { at + 4 ≤ length rows.old }
    ensures { rows.new ≡ sets rows.old at (cells_of row) }
{
    rows[at..at + 4].copy_from_slice(&row.cells());
}

// Writes the summary of a page from the start on.
fn put_summary(rows: &mut [i32], page: &Page)
    requires { cells_for page.now.count ≤ length rows.old }
    ensures { rows.new ≡ sets rows.old 0 (summary_of (take page.now.count page.now.words)) }
{
    put_row(rows, 0, row::page_row(page));
    for (i, word) in page.words().iter().enumerate() {
        put_row(rows, 4 * (i + 1), row::block_row(*word));
    }
}

// Whether a row stands at `at`.
fn row_is(rows: &[i32], at: usize, row: Row) -> bool
    requires { at + 4 ≤ length rows.now }
    ensures { result ≡ begin (drop at rows.now) (cells_of row) }
{
    rows[at..].starts_with(&row.cells())
}

// Whether the rows begin with the summary of a page.
fn rows_agree(rows: &[i32], page: &Page) -> bool
    requires { cells_for page.now.count ≤ length rows.now }
    ensures { result ≡ agree (take page.now.count page.now.words) rows.now }
{
    if !row_is(rows, 0, row::page_row(page)) {
        return false;
    }
    for (i, word) in page.words().iter().enumerate() {
        if !row_is(rows, 4 * (i + 1), row::block_row(*word)) {
            return false;
        }
    }
    true
}

// Works out the summary of a page, into `rows` from its start on, and answers how many blocks it is of. Refused with 9 where the text is no
// page, then with 8 where there are fewer than 4 cells for the page and 4 for each block. A refusal writes nothing.
pub fn summarise(text: &[u8], rows: &mut [i32]) -> Result<usize, Refusal>
    ensures value { summed_by result ≡ summarised (reading_of text.now) (length rows.old) }
    ensures rows_after { rows.new ≡ summarised_rows (reading_of text.now) rows.old }
{
    let page = page::parse(text)?;
    let count = page.count;
    if rows.len() < 4 * (count + 1) {
        return Err(Refusal::NoRoom);
    }
    put_summary(rows, &page);
    Ok(count)
}

// Whether `rows` begin with the summary of the page. Refused with 9 where the text is no page, 8 where there are fewer cells than its summary
// has, 14 where a cell is another.
pub fn check(text: &[u8], rows: &[i32]) -> Result<(), Refusal>
    ensures { number_in result ≡ checked (reading_of text.now) rows.now }
{
    let page = page::parse(text)?;
    let count = page.count;
    if rows.len() < 4 * (count + 1) {
        return Err(Refusal::NoRoom);
    }
    if rows_agree(rows, &page) {
        Ok(())
    } else {
        Err(Refusal::Disagrees)
    }
}

// Brings the summary of a page up to date for one word more, of which the low 48 bits count: what is left in `rows` is the summary of the page
// with that word behind the others, and the answer is how many blocks it is of. The page's row is written anew and the new block's row behind
// the others; nothing else is. Refused with 9 where the text is no page or has 64 words, 8 where there are fewer cells than the longer summary
// has, 14 where the rows are not the summary of the page. A refusal writes nothing.
pub fn add(text: &[u8], word: u64, rows: &mut [i32]) -> Result<usize, Refusal>
    ensures value { summed_by result ≡ added (reading_of text.now) rows.old }
    ensures rows_after { rows.new ≡ added_rows (reading_of text.now) word rows.old }
{
    let page = page::parse(text)?;
    let count = page.count;
    if 64 <= count {
        return Err(Refusal::NoPage);
    }
    if rows.len() < 4 * (count + 2) {
        return Err(Refusal::NoRoom);
    }
    if !rows_agree(rows, &page) {
        return Err(Refusal::Disagrees);
    }
    let block = row::block_row(word);
    put_row(rows, 0, row::joined(count, row::page_row(&page), block));
    put_row(rows, 4 * (count + 1), block);
    Ok(count + 1)
}
