// shown: what each answer shows of a session, of an order's refusal and of a finish, each answer in its own part of the answer space.
//
// Promise: `show_opening` writes answer 0 (`OpensWith`, specs/Shows.antt); `show_order` writes the answer to an order (`AnswersAt`), whatever trail stood
// before it.
#![tactic(auto)]

ghost use Rattle.std.specs.Prelude.{◌+◌, ◌*◌, ◌<◌, ◌≤◌, IfOk, List, length, ℕ};
ghost use Rattle.engine.specs.States.{SomeState};
ghost use Rattle.sessions.specs.Readings.{order_is, refused_in};
ghost use Rattle.shown.specs.Shows.{AnswersAt, OpensWith, ShowsAt, ShowsBesides, TellsAfter, refusal_shown};

use answers::*;
use engine::layout::*;
use engine::state::State;
use search::Outcome;
use sessions::orders::{Order, Refused};
use status::*;

// What an order shows that leaves this state: an accepted finish what its search comes to, any other the state alone. Here and below each order has an
// arm of its own, off which the proof reads what the order is.
fn outcome_of(layout: &Layout<'_>, order: Result<Order, Refused>, state: &State) -> Outcome
    requires { SomeState layout.now.sheets.book.now state.now }
    ensures { (o : List ℕ) → IfOk order (order_is o) → ShowsBesides layout.now.sheets.book.now o (refused_in order) state.now result }
{
    match order {
        Ok(Order::Finish { limit }) => search::finish(layout, state, limit),
        Ok(Order::Narrow { .. }) => Outcome::StateOnly,
        Ok(Order::Mark) => Outcome::StateOnly,
        Ok(Order::Back { .. }) => Outcome::StateOnly,
        Err(_) => Outcome::StateOnly,
    }
}

// What the state says that an order leaves, where `told` is what it said before: the same, unless the order is an accepted narrow or back.
fn told_after(
    sheets: &Sheets<'_>,
    order: Result<Order, Refused>,
    told: Summary,
    state: &State,
) -> Summary
    requires { SomeState sheets.now.book.now state.now }
    ensures { (o : List ℕ) → IfOk order (order_is o) → TellsAfter sheets.now.book.now o (refused_in order) told state.now result }
{
    match order {
        Ok(Order::Narrow { .. }) => summarise(sheets, state),
        Ok(Order::Back { .. }) => summarise(sheets, state),
        Ok(Order::Mark) => told,
        Ok(Order::Finish { .. }) => told,
        Err(_) => told,
    }
}

// Answer i shows what the state says, at this depth, with the refusal of the order, and what is shown besides.
fn show(
    answers: &mut [u8],
    i: usize,
    refused: Option<Refused>,
    depth: usize,
    told: Summary,
    outcome: &Outcome,
    state: &State,
)
    requires { (i ≤ 256) × (72 * i + 72 ≤ length answers.old) × (depth < 256) }
    ensures { ShowsAt told depth (refusal_shown refused) outcome.now state.now i answers.old answers.new }
{
    let refused = refused.map_or(0, u8::from);
    write(
        answers,
        i,
        Answer {
            refused,
            status: u8::from(told.status),
            depth: depth as u8,
            outcome: outcome.number(),
            done: told.done,
            tries: outcome.tries(),
            shown: outcome.masks(&state.dom),
        },
    );
}

// Answer i, to an order that was read as this, when the session given back has this depth and state, and the one before it said what was `told`. What it
// says now.
pub fn show_order(
    answers: &mut [u8],
    i: usize,
    layout: &Layout<'_>,
    order: Result<Order, Refused>,
    depth: usize,
    told: Summary,
    state: &State,
) -> Summary
    requires { SomeState layout.now.sheets.book.now state.now × (i ≤ 256) × (72 * i + 72 ≤ length answers.old) × (depth < 256) }
    ensures { (o : List ℕ) → IfOk order (order_is o) → AnswersAt layout.now.sheets.book.now o (refused_in order) state.now depth told i answers.old result answers.new }
{
    let outcome = outcome_of(layout, order, state);
    let told = told_after(&layout.sheets, order, told, state);
    show(answers, i, order.err(), depth, told, &outcome, state);
    told
}

// Answer 0, of the state of the empty trail. What it says.
pub fn show_opening(answers: &mut [u8], sheets: &Sheets<'_>, state: &State) -> Summary
    requires { SomeState sheets.now.book.now state.now × (72 ≤ length answers.old) }
    ensures { OpensWith sheets.now.book.now state.now answers.old result answers.new }
{
    let told = summarise(sheets, state);
    show(answers, 0, None, 0, told, &Outcome::StateOnly, state);
    told
}
