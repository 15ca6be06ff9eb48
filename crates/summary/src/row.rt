// The rows of a summary.
ghost use Rattle.std.specs.Prelude.{◌≡◌, ◌*◌, ◌^◌, ◌≤◌, nat_abs, take};
ghost use Rattle.summary.specs.Summary.{block_row, page_row};
ghost use Rattle.summary.specs.Cells.{cells_of};
ghost use Rattle.summary.specs.Laws.Rows.{joined as Rows·joined};

use page::Page;

// A row: the sum of the squares of the coordinates, the largest and the smallest coordinate, and how many blocks are odd.
#[derive(Clone, Copy)]
pub(crate) struct Row {
    pub(crate) sum: i32,
    pub(crate) largest: i32,
    pub(crate) smallest: i32,
    pub(crate) odd: i32,
}

impl Row {
    // The row's cells, in the order of the summary.
    pub(crate) fn cells(self) -> [i32; 4]
        ensures { result ≡ cells_of self }
    {
        [self.sum, self.largest, self.smallest, self.odd]
    }
}

// The row of a block. Largest and smallest start at the first coordinate: 0 is none of an odd point's.
pub(crate) fn block_row(word: u64) -> Row
    ensures { cells_of result ≡ block_row word }
{
    let point = tetra::decode(word);
    let mut sum = 0;
    let mut largest = point[0];
    let mut smallest = point[0];
    for y in point {
        sum += y * y;
        largest = largest.max(y);
        smallest = smallest.min(y);
    }
    Row {
        sum,
        largest,
        smallest,
        odd: (word % 2) as i32,
    }
}

// The page's row with one block more, where it stood for `count` blocks. The zeros of an empty page take no
// part: they are no coordinates.
pub(crate) fn joined(count: usize, page: Row, block: Row) -> Row
    requires { (nat_abs page.sum ≤ 2 ^ 29) × (nat_abs block.sum ≤ 2 ^ 29) × (nat_abs page.odd ≤ 2 ^ 29) ×
        (nat_abs block.odd ≤ 2 ^ 29) }
    ensures { cells_of result ≡ Rows·joined count (cells_of page) (cells_of block) }
{
    if count == 0 {
        return block;
    }
    Row {
        sum: page.sum + block.sum,
        largest: page.largest.max(block.largest),
        smallest: page.smallest.min(block.smallest),
        odd: page.odd + block.odd,
    }
}

// The row of a page.
pub(crate) fn page_row(page: &Page) -> Row
    ensures { cells_of result ≡ page_row (take page.now.count page.now.words) }
{
    let mut row = Row {
        sum: 0,
        largest: 0,
        smallest: 0,
        odd: 0,
    };
    for (i, word) in page.words().iter().enumerate() {
        row = joined(i, row, block_row(*word));
    }
    row
}
