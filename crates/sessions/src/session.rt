// A session: the state, the depth, and the state saved at each mark. "A session is one value that each order takes and gives back."
//
//     now      the state of the trail
//     depth    the number of marks that stand
//     saved    | state before mark 1 | before mark 2 | .. | before mark `depth` | not used |
//
// Always, for the trail that stands: `now` is its state, `depth` its number of checkpoints, and saved state k is that of the trail cut before
// checkpoint k + 1, with its words, index and counts of words.
//
// The depth stands beside an array of sixteen: `Holds`, and what demand 3 says of two sessions (`Demand3`, promises), speak of the saved states by their
// number.
ghost use Rattle.std.specs.Prelude.{[], ◌+◌, ◌<◌, ◌≤◌};
ghost use Rattle.heads.specs.Heads.{columns_of};
ghost use Rattle.sessions.specs.Holds.{BackHolds, Holds, MarkHolds, NarrowHolds, SomeSession};

use engine::layout::Layout;
use engine::state::*;
use words::index::Rows;

#[derive(Clone, Copy)]
pub struct Session {
    pub now: State,
    // A depth beside the array: `Holds` and the theorems on it speak of both.
    pub depth: usize,
    pub saved: [State; 16],
}

// A state with nothing in it, for marks that do not stand.
fn blank() -> State {
    State {
        dom: [0; 16],
        rows: Rows {
            valid: [0; 64],
            index: [0; 64],
            nonzero: [0; 8],
        },
    }
}

// The session of the empty trail.
pub fn open(layout: &Layout<'_>) -> Session
    ensures { Holds layout.now.sheets.book.now [] result }
{
    let now = opening(layout);
    Session {
        now,
        depth: 0,
        saved: [blank(); 16],
    }
}

impl Session {
    // Column c is cut to the values in m.
    pub fn narrow(mut self, layout: &Layout<'_>, c: usize, m: u32) -> Session
        requires { (c < columns_of layout.now.sheets.book.now) × SomeSession layout.now.sheets.book.now self }
        ensures { NarrowHolds layout.now.sheets.book.now c m self result }
    {
        self.now = self.now.narrowed(layout, c, m);
        self
    }

    // The state is saved. The saved states are a local array here and in `back`: reached within the session, tried, they would be copied whole by a narrow too.
    pub fn mark(self) -> Session
        requires { self.depth < 16 }
        ensures { MarkHolds self result }
    {
        let mut saved = self.saved;
        saved[self.depth] = self.now;
        Session {
            now: self.now,
            depth: self.depth + 1,
            saved,
        }
    }

    // The state saved at mark m comes back, and the mark is gone.
    pub fn back(self, m: usize) -> Session
        requires { (1 ≤ m) × (m ≤ self.depth) × (self.depth ≤ 16) }
        ensures { BackHolds m self result }
    {
        let saved = self.saved;
        Session {
            now: saved[m - 1],
            depth: m - 1,
            saved,
        }
    }
}
