// runs: a whole list of orders run over a book, from the opening, with its answers.
//
// Promise: `run` returns `run_result` and leaves `run_space` (specs/Results.antt), for any bytes and any answer space. What this comes to in the
// customer's words stands in the crate promises.
//
//   run      the run: its refusals, and the loop over the orders
#![tactic(auto)]

pub mod run;
