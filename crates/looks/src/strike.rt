// Pass 2, second half: the columns of a sheet struck to the values with support; and the whole look at a sheet.
ghost use Rattle.std.specs.Prelude.{◌≡◌, true, ◌<◌};
ghost use Rattle.heads.specs.Heads.{forbids_of, width_of};
ghost use Rattle.words.specs.Sheets.{FindsSupported, OnlySheet, RowsAre, RowsKnown, SheetWords, Sized};
ghost use Rattle.looks.specs.Strikes.{StruckPlace, StruckTo};
ghost use Rattle.looks.specs.Looks.{Looked, SheetKnown, Struck};

use crate::count::unforbidden;
use words::cut::{cut_inside, cut_places};
use words::gather::{carried, wanted};
use words::index::Rows;
use words::sheet::{LaidSheet, Sheet};

// The column of place j of the sheet struck to the values in y. The column as a bit, if it lost one.
fn struck(sheet: &Sheet<'_>, j: usize, y: u32, dom: &mut [u32; 16]) -> u32
    requires { j < 4 }
    ensures { StruckPlace sheet.now.book.now sheet.now.number j y dom.old dom.new result }
{
    if j < sheet.width() {
        let c = sheet.column(j);
        let d = dom[c];
        let e = d & y;
        if e != d {
            dom[c] = e;
            return 1u32 << c;
        }
    }
    0
}

// Every column of the sheet struck to the values in y. The columns that lost a value.
fn strike_to(sheet: &Sheet<'_>, y: &[u32; 4], dom: &mut [u32; 16]) -> u32
    ensures { StruckTo sheet.now.book.now sheet.now.number (width_of sheet.now.book.now sheet.now.number) y.now dom.old dom.new result }
{
    let mut lost: u32 = 0;
    for j in 0..sheet.width() {
        lost |= struck(sheet, j, y[j], dom);
    }
    lost
}

// The values with support at each place of the sheet: those that a row carries, or that are not forbidden.
fn supported(laid: &LaidSheet<'_>, x: &[u32; 4], rows: &Rows) -> [u32; 4]
    requires { SheetWords laid.now.sheet.book.now laid.now.sheet.number rows.now.valid rows.now.index rows.now.nonzero }
    ensures { FindsSupported laid.now.sheet.book.now laid.now.sheet.number rows.now.valid x.now result }
{
    if laid.sheet.forbids() {
        return unforbidden(&laid.sheet, x, rows);
    }
    carried(laid, x, rows)
}

// Every column of the sheet struck to the values with support. The columns that lost a value.
fn strike(laid: &LaidSheet<'_>, dom: &mut [u32; 16], rows: &Rows) -> u32
    requires { SheetWords laid.now.sheet.book.now laid.now.sheet.number rows.now.valid rows.now.index rows.now.nonzero × RowsAre laid.now.sheet.book.now laid.now.sheet.number dom.old rows.now.valid }
    ensures { Struck laid.now.sheet.book.now laid.now.sheet.number dom.old dom.new result }
{
    let x = wanted(&laid.sheet, dom);
    let y = supported(laid, &x, rows);
    strike_to(&laid.sheet, &y, dom)
}

// The rows of a forbidden sheet cut by its own strikes: `lost` are the columns that lost a value by them.
fn cut_struck(sheet: &Sheet<'_>, lost: u32, dom: &[u32; 16], rows: &mut Rows)
    requires { (forbids_of sheet.now.book.now sheet.now.number ≡ true) × RowsKnown sheet.now.book.now sheet.now.number lost dom.now rows.old.valid rows.old.index rows.old.nonzero }
    ensures { RowsKnown sheet.now.book.now sheet.now.number 0 dom.now rows.new.valid rows.new.index rows.new.nonzero × OnlySheet sheet.now.number rows.old.valid rows.old.index rows.old.nonzero rows.new.valid rows.new.index rows.new.nonzero }
{
    if lost == 0 {
        return;
    }
    let x = wanted(sheet, dom);
    cut_inside(sheet, &x, rows);
}

// The sheet looked at, whose columns in `changed` lost values since it was last looked at: the columns that lost a value, as an error where it cannot be
// satisfied any more.
//
// One that allows its rows fails where no row is left, and where no row was cut, every value keeps its support. One that forbids them has fewer choices as soon
// as a column lost a value, even where no row was cut, so values are always counted; it fails where its first column becomes empty, and with it all of them.
// What it strikes may be in rows that are set: these are cut at the end.
// `Sized` stays a clause: of an array in a struct that is lent only the length is known, tried, and not that its words have 64 bits.
pub fn revise(
    laid: &LaidSheet<'_>,
    changed: u32,
    opening: bool,
    dom: &mut [u32; 16],
    rows: &mut Rows,
) -> Result<u32, u32>
    requires { SheetKnown laid.now.sheet.book.now laid.now.sheet.number changed opening dom.old rows.old.valid rows.old.index rows.old.nonzero × Sized rows.old.valid rows.old.index rows.old.nonzero }
    ensures { Looked laid.now.sheet.book.now laid.now.sheet.number dom.old rows.old.valid rows.old.index rows.old.nonzero dom.new rows.new.valid rows.new.index rows.new.nonzero result }
{
    let sheet = laid.sheet;
    let forbids = sheet.forbids();
    let cut = cut_places(&sheet, changed, opening, dom, rows);
    if !(forbids | cut) {
        return Ok(0);
    }
    if !(forbids | (rows.nonzero[sheet.number] != 0)) {
        return Err(0);
    }
    let lost = strike(laid, dom, rows);
    if !forbids {
        return Ok(lost);
    }
    if dom[sheet.column(0)] == 0 {
        return Err(lost);
    }
    cut_struck(&sheet, lost, dom, rows);
    Ok(lost)
}
