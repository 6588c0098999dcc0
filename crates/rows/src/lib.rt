// rows: the rows of a book's sheets: where they stand, the bounds of their bytes, and the rows of a block that are over them.
//
// Promise: `blocks_needed` gives the blocks that head and sheets need (specs/Rows.antt); `bounds_of` ensures `RowBounds`: what the bytes of a used row have to
// be below, and at how many of them 255 passes; `any_not_below`, `any_over` and `rows_under` say of a block whether a row of it is over such bounds, and how
// many from its first on are not (`over_bounds`, specs/Bounds.antt). Where the first fault is, and its refusal, is for crates faults and book.
//
//   row      the sheets' blocks: how many, and a book that has them; the bounds of a row; rows over their bounds
#![tactic(auto)]

pub mod row;
