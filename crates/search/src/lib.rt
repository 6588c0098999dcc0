// search: the first full set of a finish, lowest by column 0, then column 1, and so on, within a limit of tries.
//
// Promise: `finish` ensures `Finishes` (specs/Searches.antt): of the state of any trail it gives what document 01's search comes to in its domains, and
// with how many tries, or that these are more than the limit. What it finds is the first solution, or none exactly when there is none (`searched_found`,
// `searched_none`, model). It ends, because each value that is set leaves fewer values, and it makes no more tries than the limit.
//
//     pick_column    the lowest column with two values or more: its values from the lowest on, each tried, while there are tries left
//     try_value      the column set to one value, the state propagated; where a store is left, the next column is picked
//
// Both take the tries that were made before, and give those made in all.
//
// Picking a column and trying its values take turns until every column is single. Each state of the search is that of a trail: setting column c
// to v is a narrow of c to v alone. So what `try_value` propagates is what a narrow would, and the caller's arrays stay as they are.
#![tactic(auto)]

ghost use Rattle.std.specs.Prelude.{◌≡◌, ◌≤◌};
ghost use Rattle.model.specs.Tests.{FirstOf};
ghost use Rattle.engine.specs.Propagation.{is_open};
ghost use Rattle.engine.specs.States.{SomeState};
ghost use Rattle.search.specs.Searches.{FilledState, Finishes, OpenValue, Reaches, masks_in, number_in, search_after, search_in, tries_in};

use cells::bits::*;
use engine::layout::Layout;
use engine::propagate::fixpoint;
use engine::state::State;
use engine::worklist::waiting_for;

// What an answer shows besides the state: of a finish what it came to, and the tries made.
#[derive(Clone, Copy)]
pub enum Outcome {
    StateOnly,
    Found { masks: [u32; 16], tries: u32 },
    NotFound { tries: u32 },
    Stopped { tries: u32 },
}

impl Outcome {
    // Byte 3 of an answer.
    pub fn number(&self) -> u8
        ensures { result ≡ number_in self.now }
    {
        match self {
            Outcome::StateOnly => 0,
            Outcome::Found { .. } => 1,
            Outcome::NotFound { .. } => 2,
            Outcome::Stopped { .. } => 3,
        }
    }

    // The tries made: none where there was no finish.
    pub fn tries(&self) -> u32
        ensures { result ≡ tries_in self.now }
    {
        match self {
            Outcome::StateOnly => 0,
            Outcome::Found { tries, .. }
            | Outcome::NotFound { tries }
            | Outcome::Stopped { tries } => *tries,
        }
    }

    // The masks that an answer shows: those of a state with these domains, or of a finish the full set that it found.
    pub fn masks(&self, dom: &[u32; 16]) -> [u32; 16]
        ensures { result ≡ masks_in dom.now self.now }
    {
        match self {
            Outcome::StateOnly => *dom,
            Outcome::Found { masks, .. } => *masks,
            Outcome::NotFound { .. } | Outcome::Stopped { .. } => [0; 16],
        }
    }
}

// The lowest column with two values or more.
fn open_column(dom: &[u32; 16]) -> Option<usize>
    ensures { FirstOf (is_open dom.now) 0 16 result }
{
    dom.iter().position(|d| two_or_more(*d))
}

// The search in a state that is not failed, when as many tries were made.
#[cycle(pick_column_try_value)]
fn pick_column(layout: &Layout<'_>, state: &State, limit: u32, made: u32) -> Outcome
    requires { FilledState layout.now.sheets.book.now state.now × (made ≤ limit) }
    ensures { Reaches layout.now.sheets.book.now limit made (search_in layout.now.sheets.book.now state.now.dom) result }
{
    let Some(c) = open_column(&state.dom) else {
        return Outcome::Found {
            masks: state.dom,
            tries: made,
        };
    };
    let mut tries = made;
    for v in Places::of(u64::from(state.dom[c])) {
        if tries == limit {
            return Outcome::Stopped { tries: limit };
        }
        match try_value(layout, state, c, v, limit, tries + 1) {
            Outcome::NotFound { tries: all } => tries = all,
            found_or_stopped => return found_or_stopped,
        }
    }
    Outcome::NotFound { tries }
}

// The search with the value v in column c, which has two values or more, when as many tries were made, this one among them.
#[cycle(pick_column_try_value)]
fn try_value(layout: &Layout<'_>, state: &State, c: usize, v: u32, limit: u32, made: u32) -> Outcome
    requires { FilledState layout.now.sheets.book.now state.now × OpenValue layout.now.sheets.book.now state.now.dom c v × (made ≤ limit) }
    ensures { Reaches layout.now.sheets.book.now limit made (search_after layout.now.sheets.book.now state.now.dom c v) result }
{
    let column = 1u32 << c;
    let waiting = waiting_for(&layout.scopes, column);
    let mut next = *state;
    next.dom[c] = only(v);
    if fixpoint(layout, waiting, column, false, &mut next) {
        return pick_column(layout, &next, limit, made);
    }
    Outcome::NotFound { tries: made }
}

// A finish of the state of a trail, with this limit.
pub fn finish(layout: &Layout<'_>, state: &State, limit: u32) -> Outcome
    requires { SomeState layout.now.sheets.book.now state.now }
    ensures { Finishes layout.now.sheets.book.now state.now limit result }
{
    if state.dom[0] == 0 {
        return Outcome::NotFound { tries: 0 };
    }
    pick_column(layout, state, limit, 0)
}
