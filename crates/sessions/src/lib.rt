// sessions: a session, what each order makes of it, and why an order is refused.
//
// Promise: `open` gives the session of the empty trail, and narrow, mark and back keep `Holds` (specs/Holds.antt), whatever trail stood:
// the state is that of the trail, and each mark has its state. `read` ensures `RefusesAt`: the paper's number, by the order's bytes, the book and
// the depth alone, and of an order that is accepted what it asks for (`order_is`).
//
//   session      a state, the depth, and the states saved at marks
//   orders       one order of 8 bytes: what it asks for, or its refusal
#![tactic(auto)]

pub mod orders;
pub mod session;
