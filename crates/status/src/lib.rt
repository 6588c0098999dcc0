// status: what a state says of itself: its status and its done byte.
//
// Promise: `summarise` ensures `Summarises` (specs/Status.antt) of whatever trail the state is of. Both go by the sizes of the domains, which are counted
// once; of a sheet with two open columns or more its rows tell (crate cover).
#![tactic(auto)]

ghost use Rattle.std.specs.Prelude.{◌≡◌};
ghost use Rattle.model.specs.Answers.{subsumed};
ghost use Rattle.model.specs.Books.{sheet_at};
ghost use Rattle.book.specs.Decoding.{book_of};
ghost use Rattle.heads.specs.Heads.{sheets_of, width_of};
ghost use Rattle.cover.specs.Covers.{SizesTo};
ghost use Rattle.engine.specs.States.{SomeState};
ghost use Rattle.status.specs.Status.{OpenState, Summarises, done_sheets, open_places, open_status, status_number};

use cover::few::count_values;
use cover::test::covered;
use engine::layout::Sheets;
use engine::state::State;
use words::sheet::{LaidSheet, Sheet};

#[derive(Clone, Copy, PartialEq, Eq)]
pub enum Status {
    Dead,
    Open,
    Decided,
}

impl From<Status> for u8 {
    ghost from_gives = { λ s n. n ≡ status_number s };

    fn from(status: Status) -> u8 {
        match status {
            Status::Dead => 0,
            Status::Open => 1,
            Status::Decided => 2,
        }
    }
}

#[derive(Clone, Copy)]
pub struct Summary {
    pub status: Status,
    pub done: u8,
}

// The status of a state that is not failed, from the sizes of its domains.
fn open_status(sizes: &[u32; 16]) -> Status
    ensures { status_number result ≡ open_status sizes.now }
{
    if sizes.iter().any(|n| 1 < *n) {
        Status::Open
    } else {
        Status::Decided
    }
}

// How many columns of a sheet are open.
fn open_places(sheet: &Sheet<'_>, sizes: &[u32; 16]) -> u32
    ensures { result ≡ open_places sheet.now.book.now sheet.now.number sizes.now (width_of sheet.now.book.now sheet.now.number) }
{
    let mut open = 0;
    for j in 0..sheet.width() {
        if 1 < sizes[sheet.column(j)] {
            open += 1;
        }
    }
    open
}

// Whether every choice is allowed. With at most one open column it is, since each value has support.
fn is_done(laid: &LaidSheet<'_>, sizes: &[u32; 16], state: &State) -> bool
    requires { SizesTo state.now.dom 16 sizes.now × OpenState laid.now.sheet.book.now state.now }
    ensures { result ≡ subsumed state.now.dom (sheet_at (book_of laid.now.sheet.book.now) laid.now.sheet.number) }
{
    open_places(&laid.sheet, sizes) <= 1 || covered(laid, sizes, &state.dom, &state.rows)
}

// The done byte of a state that is not failed.
fn done_sheets(sheets: &Sheets<'_>, sizes: &[u32; 16], state: &State) -> u8
    requires { SizesTo state.now.dom 16 sizes.now × OpenState sheets.now.book.now state.now }
    ensures { result ≡ done_sheets sheets.now.book.now state.now.dom (sheets_of sheets.now.book.now) }
{
    let mut done = 0;
    for s in 0..sheets.head().sheets() {
        if is_done(&sheets.sheet(s), sizes, state) {
            done |= 1u8 << s;
        }
    }
    done
}

// Status and done byte of a state. The domains of a closure are all empty or none is: the domain of column 0 tells which. Of a failed state no sheet is
// done.
pub fn summarise(sheets: &Sheets<'_>, state: &State) -> Summary
    requires { SomeState sheets.now.book.now state.now }
    ensures { Summarises sheets.now.book.now state.now result }
{
    if state.dom[0] == 0 {
        return Summary {
            status: Status::Dead,
            done: 0,
        };
    }
    let sizes = count_values(&state.dom);
    Summary {
        status: open_status(&sizes),
        done: done_sheets(sheets, &sizes, state),
    }
}
