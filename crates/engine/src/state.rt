// A state: the domains, and for each sheet its valid rows in words, with their index.
//
//     dom      | column 0: values left, bit v for value v | column 1 | .. | column 15 |            0 from the book's last column on
//     valid    | sheet 0: 8 words, bit r mod 64 of word r div 64 is row r | sheet 1: 8 words | ..
//     index    | sheet 0: 8 word numbers, a permutation | sheet 1 | ..
//     nonzero  | sheet 0: how many of its words are not zero, one more than document 01's limit | sheet 1 | ..
//
// Always: the domains are the closure of what the trail allows; a row is set exactly when it is valid in them; position i of a sheet's index
// is below `nonzero` exactly when the word that it names is not zero. In a failed state all domains and words are zero.
ghost use Rattle.std.specs.Prelude.{◌≡◌, [], ◌≤◌, ◌<◌};
ghost use Rattle.heads.specs.Heads.{columns_of, sheets_of};
ghost use Rattle.engine.specs.Openings.{places_below, FullDomains, FullWord, FullWords, FullRows, FullIndex};
ghost use Rattle.engine.specs.States.{StateIs, SomeState, Emptied, Narrows};

use crate::layout::{Layout, Sheets};
use crate::propagate::*;
use crate::worklist::*;
use words::index::Rows;

#[derive(Clone, Copy)]
pub struct State {
    pub dom: [u32; 16],
    pub rows: Rows,
}

// ---- the opening: every value and every row

// The places below n.
pub fn places_below(n: usize) -> u32
    requires { n ≤ 32 }
    ensures { result ≡ places_below n }
{
    if n == 0 { 0 } else { u32::MAX >> (32 - n) }
}

// All values of each column.
fn full_domains(sheets: &Sheets<'_>) -> [u32; 16]
    ensures { FullDomains sheets.now.book.now (columns_of sheets.now.book.now) result }
{
    let head = sheets.head();
    let mut dom = [0; 16];
    for c in 0..head.columns() {
        dom[c] = places_below(head.values(c));
    }
    dom
}

// Word w of a sheet with n rows.
fn full_word(n: usize, w: usize) -> u64
    requires { (n ≤ 512) × (w < 8) }
    ensures { FullWord n w result }
{
    let all = u64::MAX;
    if 64 * w + 64 <= n {
        return all;
    }
    if 64 * w < n {
        return all >> (64 * w + 64 - n);
    }
    0
}

// The words of sheet s, which has n rows.
fn fill_words(valid: &mut [u64; 64], s: usize, n: usize)
    requires { (s < 8) × (n ≤ 512) }
    ensures { FullWords valid.old s n 8 valid.new }
{
    for w in 0..8 {
        valid[8 * s + w] = full_word(n, w);
    }
}

// The words of every sheet, in their own order.
fn full_rows(sheets: &Sheets<'_>) -> Rows
    ensures { FullRows sheets.now.book.now (sheets_of sheets.now.book.now) result.valid result.nonzero × FullIndex 64 result.index }
{
    let head = sheets.head();
    let mut valid = [0; 64];
    let mut nonzero = [0; 8];
    for s in 0..head.sheets() {
        let rows = head.rows(s);
        fill_words(&mut valid, s, rows);
        nonzero[s] = rows.div_ceil(64) as u8;
    }
    Rows {
        valid,
        index: std::array::from_fn(|i| (i % 8) as u8),
        nonzero,
    }
}

// The state of the empty trail.
pub fn opening(layout: &Layout<'_>) -> State
    ensures { StateIs layout.now.sheets.book.now [] result }
{
    let sheets = &layout.sheets;
    let mut state = State {
        dom: full_domains(sheets),
        rows: full_rows(sheets),
    };
    let waiting = places_below(sheets.head().sheets());
    propagate(layout, waiting, 0, true, &mut state);
    state
}

impl State {
    // No value and no row.
    pub(crate) fn empty(&mut self)
        ensures { Emptied self.old self.new }
    {
        self.dom = [0; 16];
        self.rows.valid = [0; 64];
        self.rows.nonzero = [0; 8];
    }

    // The state after column c is cut to the values in m.
    pub fn narrowed(mut self, layout: &Layout<'_>, c: usize, m: u32) -> State
        requires { (c < columns_of layout.now.sheets.book.now) × SomeState layout.now.sheets.book.now self }
        ensures { Narrows layout.now.sheets.book.now c m self result }
    {
        let left = self.dom[c] & m;
        if left == self.dom[c] {
            return self;
        }
        if left == 0 {
            self.empty();
            return self;
        }
        self.dom[c] = left;
        let column = 1u32 << c;
        propagate(
            layout,
            waiting_for(&layout.scopes, column),
            column,
            false,
            &mut self,
        );
        self
    }
}
