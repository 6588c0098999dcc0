// cover: whether a sheet allows every choice of one value from the domain of each of its columns.
//
// Promise: `covered` gives `subsumed` (model, Answers) of the sheet, an equation. A choice has a value for each of the four places; at a place that is
// not used the domain is 0 alone, and so is the cell of every row. A forbidden sheet allows every choice where no row of it is set.
//
//   few      the quick no: fewer rows than choices
//   table    the rows that match a value of place 3, as a table: which values of place 0 they allow with those of places 1 and 2
//   test     whether every choice is in the table of its value of place 3; and `covered`
#![tactic(auto)]

pub mod few;
pub mod table;
pub mod test;
