// engine: propagation over the sheets that wait, and the state.
//
// Promise: `opening` gives the state of the empty trail, and `narrowed` that of the trail with one narrow more (`StateIs`, specs/States.antt), whatever
// trail stood: the domains are the closure of what the trail allows, the words are the valid rows, and the index keeps its invariant.
//
//   layout       where the rows of each sheet begin, its columns as a mask, and where it has 255
//   worklist     the sheets that wait, and what each has not seen
//   propagate    one sheet after another, until none waits: the closure
//   state        domains, words, their index and how many are not zero; a narrow
#![tactic(auto)]

pub mod layout;
pub mod propagate;
pub mod state;
pub mod worklist;
