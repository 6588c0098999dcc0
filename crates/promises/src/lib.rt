// promises: what a run comes to in the customer's words, two whole lists compared, and two books. No call of a customer's runs this crate.
//
// Promise: `AnyRuns`, `AcceptedRuns` and `RunsCompare` (specs/Promises.antt) are the demands of the bytes that runs leave, proved as `any_runs`,
// `accepted_runs` and `runs_compare`. `run_both` ensures demand 3 of any two lists, whole (`BothRan`, specs/Comparisons.antt): its sentences on "the
// session given back" no answer shows. The sessions are those of the loop that `fitting_run` runs. `TwinsRunAlike` and `WrittenOutRuns`
// (specs/Twins.antt) are what runs over two books that allow the same leave, proved as `twins_run_alike` and `written_out_runs`.
#![tactic(auto)]

ghost use Rattle.std.specs.Prelude.{length};
ghost use Rattle.runs.specs.Results.{RightInput};
ghost use Rattle.promises.specs.Comparisons.{BothRan};

use book::Book;
use runs::run::*;
use sessions::session::*;

// The sessions after two lists.
#[derive(Clone, Copy)]
pub struct Pair {
    pub left: Session,
    pub right: Session,
}

// Both lists run from the opening, with an answer space for each: what each came to, and what they have in common (`Demand3`).
pub fn run_both(book: &[u8], xs: &[u8], ys: &[u8], a: &mut [u8], d: &mut [u8]) -> Pair
    requires { RightInput book.now xs.now (length a.old) × RightInput book.now ys.now (length d.old) }
    ensures { BothRan book.now xs.now ys.now a.old d.old result.left result.right a.new d.new }
{
    let book = &Book { bytes: book };
    let p = run_orders(book, xs, a);
    let q = run_orders(book, ys, d);
    let left = p.session;
    let right = q.session;
    Pair { left, right }
}
