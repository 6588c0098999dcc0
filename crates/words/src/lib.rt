// words: the valid rows of one sheet, in words, pass 1 over them, and the first half of pass 2.
//
// Promise: `cut_places` cuts the rows of a sheet by the columns that changed (`CutBy`), and `carried` finds the values with support in a sheet that allows
// its rows (`FindsSupported`, specs/Sheets.antt). How a sheet is walked is inside; the whole look at a sheet is crate looks.
//
//   sheet     the sheet that a pass looks at
//   index     its rows that are set, in words, and which words are not zero
//   cut       pass 1: the rows cut by the columns that changed
//   gather    pass 2, first half: the values that a row carries
#![tactic(auto)]

pub mod cut;
pub mod gather;
pub mod index;
pub mod sheet;
