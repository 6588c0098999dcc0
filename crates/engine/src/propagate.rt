// Propagation: the sheets that wait are looked at, and those that this touches, until none waits. What is left is the closure.
ghost use Rattle.engine.specs.Propagation.{Ready, Fixpoint, Propagated};

use crate::layout::Layout;
use crate::state::State;
use crate::worklist::*;
use cells::bits::others;
use looks::strike::revise;

// The sheets in `waiting` are looked at, of whose columns those in `column` lost values; at the opening none has been looked at.
// Whether a store is left: a sheet that cannot be satisfied fails it.
pub fn fixpoint(
    layout: &Layout<'_>,
    waiting: u32,
    column: u32,
    opening: bool,
    state: &mut State,
) -> bool
    requires { Ready layout.now.sheets.book.now opening waiting column state.old }
    ensures { Fixpoint layout.now.sheets.book.now state.old.dom state.new result }
{
    let mut changed = [column; 8];
    // A turn may add sheets that wait, so this is no `for` over those of `waiting`.
    let mut left = waiting;
    while left != 0 {
        let s = first_waiting(left);
        let seen = changed[s];
        changed[s] = 0;
        let laid = layout.sheets.sheet(s);
        let Ok(lost) = revise(&laid, seen, opening, &mut state.dom, &mut state.rows) else {
            return false;
        };
        left = wake(&layout.scopes, &mut changed, others(left), s, lost);
    }
    true
}

// The same; a failed store is emptied.
pub fn propagate(layout: &Layout<'_>, waiting: u32, column: u32, opening: bool, state: &mut State)
    requires { Ready layout.now.sheets.book.now opening waiting column state.old }
    ensures { Propagated layout.now.sheets.book.now state.old.dom state.new }
{
    if !fixpoint(layout, waiting, column, opening, state) {
        state.empty();
    }
}
