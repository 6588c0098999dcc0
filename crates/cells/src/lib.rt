// cells: the 64 rows of a word, read from the book's bytes: which of them have a cell in a domain at a place, which have 255 there, and which values
// they have.
//
// Promise: `kept` ensures `Kept`, `kept_any` ensures `KeptAny`, `kept_inside` ensures `KeptInside` and `gathered` ensures `Gathered` (specs/Cells.antt), of the rows of one word, by where they
// stand in the file. How the rows are walked, set ones alone or all of them, is inside; the counters of a walk are those of crate counters.
//
//   bits      masks as machine words
//   walk      the walks over the rows of a word, for pass 1 and pass 2
#![tactic(auto)]

pub mod bits;
pub mod walk;
