// The first row of a forbidden sheet that is not above the one before it, and its refusal.
ghost use Rattle.std.specs.Prelude.{◌≡◌, ◌+◌, ◌*◌, ◌/◌, ◌<◌, ◌≤◌, IfErr, OnOk, false, true};
ghost use Rattle.heads.specs.Heads.{columns_of, sheets_of};
ghost use Rattle.rows.specs.Rows.{fall_place, falls_in};
ghost use Rattle.book.specs.Refusals.{verdict_of};
ghost use Rattle.book.specs.Verdicts.{accepted, bad_order, order_verdict};

use crate::refused::Refusal;
use faults::fall::*;
use faults::sheet::*;
use heads::head::*;
use rows::row::*;

// The refusal for row r of a sheet whose blocks begin at block `start`.
fn fall_at(start: usize, r: usize) -> Refusal
    requires { (start ≤ 33) × (r < 508) }
    ensures { bad_order (128 * start + r + r / 127) ≡ verdict_of result }
{
    Refusal::Order((128 * start + r + r / 127) as u16)
}

// The refusal for the first row of sheet s that does not rise: a sheet that allows its rows has none.
#[tactic(auto, using(crate::proofs::Refusals::sheet_plain, crate::proofs::Refusals::sheet_rises, crate::proofs::Refusals::sheet_falls, crate::proofs::Refusals::fall_stands, rows::proofs::Rows::blocks_few, heads::proofs::Heads::rows_most, heads::proofs::Heads::sheets_most))]
fn check_sheet(book: &Whole<'_>, s: usize) -> Result<(), Refusal>
    requires { s < sheets_of book.now.bytes.now }
    ensures right { OnOk result (falls_in book.now.bytes.now s ≡ false) }
    ensures wrong { IfErr result (λ e. (falls_in book.now.bytes.now s ≡ true) × (bad_order (fall_place book.now.bytes.now s / 4) ≡ verdict_of e)) }
{
    if !book.head().forbids(s) {
        return Ok(());
    }
    let sheet = SheetBlocks::of(book, s);
    match first_fall_in(&sheet) {
        None => Ok(()),
        Some(r) => Err(fall_at(sheet.start, r)),
    }
}

// Refusal 7 for the first row that does not rise.
#[tactic(auto, using(crate::proofs::Refusals::fall_found, crate::proofs::Refusals::fall_none))]
pub fn check_falls(book: &Whole<'_>) -> Result<(), Refusal>
    ensures right { OnOk result (order_verdict book.now.bytes.now ≡ accepted (columns_of book.now.bytes.now) (sheets_of book.now.bytes.now)) }
    ensures wrong { IfErr result (λ e. order_verdict book.now.bytes.now ≡ verdict_of e) }
{
    for s in 0..book.head().sheets() {
        check_sheet(book, s)?;
    }
    Ok(())
}
