// Whether every choice is matched: for each value of place 3 a table of the rows that match it, and in it each choice for the other places.
//
// The places of a sheet are the first of four, so a sheet of width 3 or less has one table.
ghost use Rattle.std.specs.Prelude.{◌≡◌, ◌<◌, ◌^◌, get_or};
ghost use Rattle.model.specs.Answers.{subsumed};
ghost use Rattle.model.specs.Books.{sheet_at};
ghost use Rattle.book.specs.Decoding.{book_of};
ghost use Rattle.words.specs.Sheets.{SheetWords};
ghost use Rattle.cover.specs.Covers.{SettledSheet, SizesTo, TellsAllowed, TellsMatched};

use crate::few::too_few;
use crate::table::put_sheet;
use cells::bits::Places;
use words::gather::wanted;
use words::index::Rows;
use words::sheet::{LaidSheet, Sheet};

// Whether the table allows each choice for places 0 and 1 with c at place 2.
fn allows_with(table: &[u32; 1089], x: &[u32; 4], c: usize) -> bool
    requires { c < 32 }
    ensures { TellsAllowed table.now x.now (2 ^ c) result }
{
    let wanted = x[0];
    let any = table[1088] | table[33 * c + 32];
    for e in Places::of(x[1] as u64) {
        let e = e as usize;
        if wanted & !(any | table[1056 + e] | table[33 * c + e]) != 0 {
            return false;
        }
    }
    true
}

// Whether it allows each choice for places 0, 1 and 2.
fn allows_all(table: &[u32; 1089], x: &[u32; 4]) -> bool
    ensures { TellsAllowed table.now x.now (get_or x.now 2 0) result }
{
    for c in Places::of(x[2] as u64) {
        if !allows_with(table, x, c as usize) {
            return false;
        }
    }
    true
}

// Whether every choice from x is matched by a row of the sheet that is set.
fn all_matched(sheet: &Sheet<'_>, x: &[u32; 4], rows: &Rows) -> bool
    requires { SheetWords sheet.now.book.now sheet.now.number rows.now.valid rows.now.index rows.now.nonzero }
    ensures { TellsMatched sheet.now.book.now sheet.now.number rows.now.valid x.now result }
{
    for v in Places::of(x[3] as u64) {
        let mut table = [0u32; 1089];
        put_sheet(sheet, v, rows, &mut table);
        if !allows_all(&table, x) {
            return false;
        }
    }
    true
}

// Whether the sheet allows every choice from the domains, which have `sizes` values. A forbidden one does where no row of it is set.
pub fn covered(laid: &LaidSheet<'_>, sizes: &[u32; 16], dom: &[u32; 16], rows: &Rows) -> bool
    requires { SheetWords laid.now.sheet.book.now laid.now.sheet.number rows.now.valid rows.now.index rows.now.nonzero × SizesTo dom.now 16 sizes.now × SettledSheet laid.now.sheet.book.now laid.now.sheet.number dom.now rows.now.valid }
    ensures { result ≡ subsumed dom.now (sheet_at (book_of laid.now.sheet.book.now) laid.now.sheet.number) }
{
    let sheet = laid.sheet;
    if sheet.forbids() {
        return rows.nonzero_words(sheet.number) == 0;
    }
    if too_few(sheet.book, sheet.number, laid.shorts, sizes, rows) {
        return false;
    }
    let x = wanted(&sheet, dom);
    all_matched(&sheet, &x, rows)
}
