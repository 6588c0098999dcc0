// looks: the whole look at a sheet, of either kind.
//
// Promise: `revise` looks at one sheet and ensures `Looked` (specs/Looks.antt), which is `Revised` of its answer: a row stays set exactly when it is valid in the domains that are
// left, every value that is left has support, and no value is struck that had support. That contract is all that the engine knows of a sheet.
//
// Which values have support is found in two ways: by the rows that carry them (`carried`, crate words), or in a forbidden sheet by counting the rows that
// forbid them (`unforbidden`). Both ensure `FindsSupported` (words, Sheets), and all else goes by that.
//
//   count     the values of a forbidden sheet that are not forbidden with everything
//   strike    pass 2, second half: the columns struck to the values with support; and `revise`, the whole look
#![tactic(auto)]

pub mod count;
pub mod strike;
