// How far the rows are beyond doubt: every byte is below its bound. Then nothing is wrong, and nothing is 255. From the first sheet in doubt on,
// rows are looked at again, turned (wrong). So a right book without 255 is looked at once.
ghost use Rattle.std.specs.Prelude.{◌<◌, MatchOption};
ghost use Rattle.model.specs.Tests.{NoneIn};
ghost use Rattle.heads.specs.Heads.{sheets_of, RightHead};
ghost use Rattle.rows.specs.Rows.{blocks_of, wrong_block, wrong_sheet};
ghost use Rattle.rows.specs.Bounds.{Clears};

use crate::sheet::SheetBlocks;
use crate::wrong::*;
use rows::row::*;

// Whether a sheet is in doubt: a byte of it is not below its bound, be it a 255 that passes. One without rows needs no bounds.
fn in_doubt(sheet: &SheetBlocks<'_>) -> bool
    requires { RightHead sheet.now.book.now × (sheet.now.number < sheets_of sheet.now.book.now) }
    ensures { Clears (wrong_block sheet.now.book.now sheet.now.number) 0 (blocks_of sheet.now.book.now sheet.now.number) result }
{
    if sheet.rows() == 0 {
        return false;
    }
    let mut m = bounds_of(&sheet.head(), sheet.number);
    m.k = 0;
    first_over(sheet, m).is_some()
}

// The first sheet in doubt.
pub fn first_doubt(book: &Whole<'_>) -> Option<usize>
    ensures { MatchOption result (NoneIn (wrong_sheet book.now.bytes.now) 0 (sheets_of book.now.bytes.now)) (λ s. (s < sheets_of book.now.bytes.now) × NoneIn (wrong_sheet book.now.bytes.now) 0 s) }
{
    let head = book.head();
    let mut start = 1;
    // `start` goes along: looked for anew at each sheet, tried, the check of eight sheets takes longer.
    for s in 0..head.sheets() {
        let sheet = SheetBlocks {
            book: book.bytes,
            number: s,
            start,
        };
        if in_doubt(&sheet) {
            return Some(s);
        }
        start += blocks_of(&head, s);
    }
    None
}
