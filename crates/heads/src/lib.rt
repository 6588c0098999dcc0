// heads: the blocks of a book file with their checks, and block 0, the head, field by field.
//
// Promise: `first_wrong_check` and `first_wrong_field` give the first wrong check and the first wrong field (specs/Blocks.antt, specs/Heads.antt), or
// say that there is none; each field of the head has a definition, a reader and a test of its own.
//
//   block    the 512-byte blocks and their checks
//   head     block 0: each field and what it must be
//   limit    what a field must not be
#![tactic(auto)]

pub mod block;
pub mod head;
pub mod limit;
