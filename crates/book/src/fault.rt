// The first fault of the rows, and its refusal: the first wrong block is looked at once more, row by row, and its wrong row byte by byte.
ghost use Rattle.std.specs.Prelude.{◌≡◌, ◌+◌, ◌*◌, ◌<◌, ◌≤◌, IfErr, OnOk, false, true};
ghost use Rattle.model.specs.Tests.{FirstOf};
ghost use Rattle.heads.specs.Heads.{RightHead, sheets_of};
ghost use Rattle.rows.specs.Rows.{blocks_of, clean, fault_at, fault_in_block, first_block, first_fault, is_value, fault_in_sheet, wrong_byte, wrong_sheet};
ghost use Rattle.book.specs.Refusals.{fault_number, refusal_number, verdict_of};
ghost use Rattle.book.specs.Verdicts.{row_verdict};

use crate::refused::Refusal;
use faults::doubt::*;
use faults::sheet::*;
use faults::wrong::*;
use heads::block::*;
use heads::head::*;
use rows::row::*;

// Whether byte j of row r of sheet s is a value.
#[tactic(auto, unfolding(rows::specs::Rows::is_value))]
fn is_value(head: &Head<'_>, s: usize, r: usize, j: usize) -> bool
    requires { s < 8 }
    ensures { result ≡ is_value head.now.bytes.now s r j }
{
    r < head.rows(s) && j < head.width(s)
}

// The refusal for byte i of block q of a sheet, which is wrong.
#[tactic(auto, using(crate::proofs::Refusals::value_at, crate::proofs::Refusals::filler_at))]
fn fault_at(sheet: &SheetBlocks<'_>, q: usize, i: usize) -> Refusal
    requires { (sheet.now.start + q ≤ 33) × (i ≤ 508) }
    ensures { row_verdict sheet.now.book.now (fault_at sheet.now.book.now sheet.now.number q i) ≡ verdict_of result }
{
    let place = (128 * (sheet.start + q) + i / 4) as u16;
    if is_value(&Head::of(sheet.book), sheet.number, 127 * q + i / 4, i % 4) {
        return Refusal::Value(place);
    }
    Refusal::Filler(place)
}

// The first wrong byte of block q of a sheet.
fn first_in_block(sheet: &SheetBlocks<'_>, q: usize) -> Option<usize>
    requires { RightHead sheet.now.book.now × (sheet.now.number < sheets_of sheet.now.book.now) × (q < blocks_of sheet.now.book.now sheet.now.number) }
    ensures { FirstOf (wrong_byte sheet.now.book.now sheet.now.number q) 0 508 result }
{
    let head = Head::of(sheet.book);
    seek_wrong(
        &Block::of(sheet.book, sheet.start + q),
        bounds_of(&head, sheet.number),
        used_rows(head.rows(sheet.number), q),
    )
}

// The refusal for the first fault of sheet s, whose blocks begin at block `start`.
#[tactic(auto, using(crate::proofs::Refusals::byte_found, rows::proofs::Rows::blocks_few, rows::proofs::Rows::blocks_there, model::proofs::Firsts::none_any), unfolding(rows::specs::Rows::wrong_sheet))]
fn check_sheet(book: &Whole<'_>, s: usize, start: usize) -> Result<(), Refusal>
    requires { (s < sheets_of book.now.bytes.now) × (start ≡ first_block book.now.bytes.now s) }
    ensures right { OnOk result (wrong_sheet book.now.bytes.now s ≡ false) }
    ensures wrong { IfErr result (λ e. (wrong_sheet book.now.bytes.now s ≡ true) × (row_verdict book.now.bytes.now (fault_in_sheet book.now.bytes.now s) ≡ verdict_of e)) }
{
    let sheet = SheetBlocks {
        book: book.bytes,
        number: s,
        start,
    };
    match first_in_sheet(&sheet) {
        None => Ok(()),
        Some(q) => {
            let i = first_in_block(&sheet, q).unwrap();
            Err(fault_at(&sheet, q, i))
        }
    }
}

// Refusal 5 or 6 for the first fault of the rows. A right book without 255 is done where no sheet is in doubt.
#[tactic(auto, using(crate::proofs::Refusals::sheet_first, crate::proofs::Refusals::fault_numbered, rows::proofs::Rows::fault_none))]
pub fn check_faults(book: &Whole<'_>) -> Result<(), Refusal>
    ensures right { OnOk result (first_fault book.now.bytes.now ≡ clean) }
    ensures wrong { IfErr result (λ e. row_verdict book.now.bytes.now (first_fault book.now.bytes.now) ≡ verdict_of e) }
    ensures number { IfErr result (λ e. refusal_number e ≡ fault_number (first_fault book.now.bytes.now)) }
{
    let Some(first) = first_doubt(book) else {
        return Ok(());
    };
    let mut start = first_block(&book.head(), first);
    for s in first..book.head().sheets() {
        check_sheet(book, s, start)?;
        start += blocks_of(&book.head(), s);
    }
    Ok(())
}
