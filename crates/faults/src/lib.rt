// faults: where the rows of a book are at fault: the first wrong block of a sheet, the first wrong byte of a block, the first row that does not rise.
//
// Promise: `first_doubt` gives a sheet before which none has a wrong byte; `first_in_sheet`, `seek_wrong` and `first_fall_in` give the first block, the first
// byte and the first row, by the definitions of crate rows (Rows, Bounds there). The refusal for them is for crate book.
//
//   sheet    the sheet that is looked at
//   doubt    a first look at the sheets, which is enough for a right book without 255
//   wrong    the first block of a sheet with a wrong byte, and that byte
//   fall     the first row of a sheet that is not above the one before it
#![tactic(auto)]

pub mod doubt;
pub mod fall;
pub mod sheet;
pub mod wrong;
