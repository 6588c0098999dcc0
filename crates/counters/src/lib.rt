// counters: the counters of a walk over a sheet's rows: block and row, word and bit, and where the row stands in the file.
//
// Promise: `at_word`, `at_near` and `at_bit` ensure `AtRow` (specs/Counters.antt): a walk knows block and row, word and bit of each row that it comes to, without a
// division. `first_rows` and `past_rows` ensure `FirstRows` and `PastRows`: the rows of a word that are walked in one stretch, and the others.
//
//   counter   the counters, and a word cut in two
#![tactic(auto)]

pub mod counter;
pub mod step;
