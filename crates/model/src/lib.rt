// model: the mathematics of the fitting service, and no code.
//
// Promise: the customer's demands 1 and 2 as statements about the definitions, `Claim1` and `Claim2` (specs/Demands.antt), proved as `claim1` and
// `claim2` (proofs/Demands.antt), and the laws of demand 3, which speaks of runs; the paper's ten examples and its run of seven lines
// (specs/Acceptance.antt); that for one sheet the closure is the two formulas of document 000 (`OneSheets`, specs/States.antt); and that books which allow
// the same are answered alike (`TwinsAnswer`, specs/Twins.antt), as a book and its written-out twin (`WrittenOutTwins`, specs/WrittenOut.antt).
//
//   specs/     what a reader must believe: stores, books, closure, solutions, orders, answers, and the statements of the demands, each with
//              the sentence of document 01 that it states. Lib.antt has the reading order
//   proofs/    the laws: every statement proved, and the lemmas that the crates above cite

#![tactic(auto)]
