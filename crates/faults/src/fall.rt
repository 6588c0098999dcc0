// The first row of a sheet that is not above the one before it. Rows are looked at in turn, with counters and no division:
//
//     row r     ..   125  126 | 127  128  ..          4 bytes further on, and 4 more where a block ends
//     i         ..   125  126 |   0    1  ..          r % 127
ghost use Rattle.std.specs.Prelude.{◌≡◌, ◌+◌, ◌/◌, ◌<◌, length};
ghost use Rattle.model.specs.Tests.{FirstOf};
ghost use Rattle.heads.specs.Heads.{rows_of};
ghost use Rattle.rows.specs.Rows.{falls, string_at};

use crate::sheet::SheetBlocks;

// The four bytes from byte `at` on as a byte string: the first counts most.
fn string_at(book: &[u8], at: usize) -> u32
    requires { at + 3 < length book.now }
    ensures { result ≡ string_at book.now at }
{
    u32::from_be_bytes([book[at], book[at + 1], book[at + 2], book[at + 3]])
}

// How many blocks end with row i of a block.
fn ends(i: usize) -> usize
    requires { i < 127 }
    ensures { result ≡ (i + 1) / 127 }
{
    usize::from(i == 126)
}

// The first row of a sheet that is not above the one before it.
pub fn first_fall_in(sheet: &SheetBlocks<'_>) -> Option<usize>
    ensures { FirstOf (falls sheet.now.book.now sheet.now.number) 0 (rows_of sheet.now.book.now sheet.now.number) result }
{
    let mut at = 512 * sheet.start;
    let mut i: usize = 0;
    let mut before: Option<u32> = None;
    // Tried, slower: a `find` over the rows with the place of each from r / 127 and r % 127 took twice as long.
    for r in 0..sheet.rows() {
        let x = string_at(sheet.book, at);
        if before.is_some_and(|b| x <= b) {
            return Some(r);
        }
        before = Some(x);
        let more = ends(i);
        at += 4 + 4 * more;
        i = i + 1 - 127 * more;
    }
    None
}
