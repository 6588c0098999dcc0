// Pass 2, first half: the values that have support in a sheet that allows its rows: a row that is set carries them.
//
// The rows are walked once for their own values. A place at which some are still missing is walked again for a 255, and only where the sheet has one
// there in some row.
ghost use Rattle.std.specs.Prelude.{◌≡◌, false, true, ◌+◌, ◌*◌, ◌<◌};
ghost use Rattle.std.specs.ControlFlow.{MatchControlFlow};
ghost use Rattle.model.specs.Tests.{Finds};
ghost use Rattle.heads.specs.Heads.{forbids_of, width_of};
ghost use Rattle.cells.specs.Cells.{Covered};
ghost use Rattle.words.specs.Sheets.{FindsSupported, NothingMissed, PlainSeen, SheetWords, Supported, Wanted, Widened, any_at};

use crate::index::*;
use crate::sheet::*;
use cells::walk::*;
use std::ops::ControlFlow;

// Whether every value of x is in y.
fn covered(x: &[u32; 4], y: &[u32; 4]) -> bool
    ensures { result ≡ true → Covered x.now y.now }
{
    (x[0] & !y[0]) | (x[1] & !y[1]) | (x[2] & !y[2]) | (x[3] & !y[3]) == 0
}

// The values of the rows of the sheet that are set, at each place, 255 read as 31. Once all of x have been seen the walk breaks off.
fn gather(sheet: &Sheet<'_>, x: &[u32; 4], rows: &Rows) -> ControlFlow<[u32; 4], [u32; 4]>
    requires { SheetWords sheet.now.book.now sheet.now.number rows.now.valid rows.now.index rows.now.nonzero }
    ensures { MatchControlFlow result (PlainSeen sheet.now.book.now sheet.now.number rows.now.valid) (Supported sheet.now.book.now sheet.now.number rows.now.valid x.now) }
{
    let mut seen = [0; 4];
    for p in 0..rows.nonzero_words(sheet.number) {
        let (w, word) = rows.word(sheet.number, p);
        gathered(sheet.book, sheet.begin, w, word, &mut seen);
        if covered(x, &seen) {
            return ControlFlow::Break(seen);
        }
    }
    ControlFlow::Continue(seen)
}

// Whether a row of the sheet that is set has 255 at place j.
fn any_at(sheet: &Sheet<'_>, j: usize, rows: &Rows) -> bool
    requires { (j < 4) × SheetWords sheet.now.book.now sheet.now.number rows.now.valid rows.now.index rows.now.nonzero }
    ensures { Finds (any_at sheet.now.book.now sheet.now.number rows.now.valid j) 0 512 result }
{
    for p in 0..rows.nonzero_words(sheet.number) {
        let (w, word) = rows.word(sheet.number, p);
        if kept_any(sheet.book, sheet.begin, w, j, word) != 0 {
            return true;
        }
    }
    false
}

// Whether the sheet has 255 somewhere at place j, and a value of x is not in y.
fn may_miss(shorts: u32, j: usize, x: u32, y: u32) -> bool
    requires { j < 4 }
    ensures { result ≡ false → NothingMissed shorts j x y }
{
    (shorts >> (8 * (j as u32) + 7)) % 2 == 1 && x & !y != 0
}

// Every value at place j, where a row that is set has 255 there.
fn widen(laid: &LaidSheet<'_>, j: usize, x: &[u32; 4], seen: &mut [u32; 4], rows: &Rows)
    requires { SheetWords laid.now.sheet.book.now laid.now.sheet.number rows.now.valid rows.now.index rows.now.nonzero × (j < 4) × Widened laid.now.sheet.book.now laid.now.sheet.number rows.now.valid x.now seen.old j }
    ensures { Widened laid.now.sheet.book.now laid.now.sheet.number rows.now.valid x.now seen.new (j + 1) }
{
    if may_miss(laid.shorts, j, x[j], seen[j]) && any_at(&laid.sheet, j, rows) {
        seen[j] = u32::MAX;
    }
}

// The same at each place.
fn widen_places(laid: &LaidSheet<'_>, x: &[u32; 4], mut seen: [u32; 4], rows: &Rows) -> [u32; 4]
    requires { SheetWords laid.now.sheet.book.now laid.now.sheet.number rows.now.valid rows.now.index rows.now.nonzero × PlainSeen laid.now.sheet.book.now laid.now.sheet.number rows.now.valid seen }
    ensures { Supported laid.now.sheet.book.now laid.now.sheet.number rows.now.valid x.now result }
{
    for j in 0..4 {
        widen(laid, j, x, &mut seen, rows);
    }
    seen
}

// The values with support at each place of the sheet, which allows its rows: those that a row carries; of these, once all of x have been seen, the ones seen.
pub fn carried(laid: &LaidSheet<'_>, x: &[u32; 4], rows: &Rows) -> [u32; 4]
    requires { SheetWords laid.now.sheet.book.now laid.now.sheet.number rows.now.valid rows.now.index rows.now.nonzero × (forbids_of laid.now.sheet.book.now laid.now.sheet.number ≡ false) }
    ensures { FindsSupported laid.now.sheet.book.now laid.now.sheet.number rows.now.valid x.now result }
{
    match gather(&laid.sheet, x, rows) {
        ControlFlow::Break(seen) => seen,
        ControlFlow::Continue(seen) if laid.shorts == 0 => seen,
        ControlFlow::Continue(seen) => widen_places(laid, x, seen, rows),
    }
}

// The domain of each place of the sheet; of a place that is not used, 0 alone, which is what every row has there.
pub fn wanted(sheet: &Sheet<'_>, dom: &[u32; 16]) -> [u32; 4]
    ensures { Wanted sheet.now.book.now sheet.now.number dom.now (width_of sheet.now.book.now sheet.now.number) result }
{
    let mut x = [1; 4];
    for j in 0..sheet.width() {
        x[j] = dom[sheet.column(j)];
    }
    x
}
