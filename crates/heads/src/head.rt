// Block 0, the head: each field, and what is wrong in it. The layout is drawn in specs/Heads.antt.
ghost use Rattle.std.specs.Prelude.{◌≡◌, ◌+◌, ◌*◌, ◌<◌, ◌≤◌, length};
ghost use Rattle.model.specs.Tests.{FirstOf};
ghost use Rattle.heads.specs.Heads.{columns_of, sheets_of, values_of, width_of, forbids_of, column_of, rows_of, wrong_letters, wrong_columns, wrong_sheets, wrong_values, wrong_width, not_rising, wrong_column, wrong_rows, wrong_field};

use crate::limit::*;
use fields::{half_at, word_at};

// What the width byte of a forbidden sheet has above its width.
const MARK: usize = 128;

// The head: the bytes of a book, or of its block 0.
#[derive(Clone, Copy)]
pub struct Head<'a> {
    pub bytes: &'a [u8],
    ghost whole: { 512 ≤ length bytes.now },
}

// ---- the fields

#[tactic(auto, unfolding(crate::specs::Heads::width_of, crate::specs::Heads::forbids_of))]
impl<'a> Head<'a> {
    // Of bytes that have a block 0.
    pub fn of(bytes: &'a [u8]) -> Head<'a>
        requires { 512 ≤ length bytes.now }
        ensures { result.bytes.now ≡ bytes.now }
    {
        Head { bytes }
    }

    // The number of columns.
    pub fn columns(&self) -> usize
        ensures { (result ≡ columns_of self.now.bytes.now) × (result < 256) }
    {
        usize::from(self.bytes[4])
    }

    // The number of sheets.
    pub fn sheets(&self) -> usize
        ensures { (result ≡ sheets_of self.now.bytes.now) × (result < 256) }
    {
        usize::from(self.bytes[5])
    }

    // The number of values of column c.
    pub fn values(&self, c: usize) -> usize
        requires { c < 16 }
        ensures { (result ≡ values_of self.now.bytes.now c) × (result < 256) }
    {
        usize::from(self.bytes[8 + c])
    }

    // The number of columns of sheet s.
    pub fn width(&self, s: usize) -> usize
        requires { s < 8 }
        ensures { (result ≡ width_of self.now.bytes.now s) × (result < 256) }
    {
        usize::from(self.bytes[24 + 8 * s]) % MARK
    }

    // Whether sheet s forbids its rows.
    pub fn forbids(&self, s: usize) -> bool
        requires { s < 8 }
        ensures { result ≡ forbids_of self.now.bytes.now s }
    {
        MARK <= usize::from(self.bytes[24 + 8 * s])
    }

    // Number j of the columns of sheet s.
    pub fn column(&self, s: usize, j: usize) -> usize
        requires { (s < 8) × (j < 4) }
        ensures { (result ≡ column_of self.now.bytes.now s j) × (result < 256) }
    {
        usize::from(self.bytes[25 + 8 * s + j])
    }

    // The number of rows of sheet s.
    pub fn rows(&self, s: usize) -> usize
        requires { s < 8 }
        ensures { (result ≡ rows_of self.now.bytes.now s) × (result < 65536) }
    {
        half_at(self.bytes, 30 + 8 * s)
    }
}

// ---- what is wrong in a field: each function has the name of its definition in specs/Heads.antt, where the paper's sentence stands

#[tactic(auto, unfolding(crate::specs::Heads::wrong_letters, crate::specs::Heads::wrong_columns, crate::specs::Heads::wrong_sheets, crate::specs::Heads::wrong_values, crate::specs::Heads::wrong_width, crate::specs::Heads::not_rising, crate::specs::Heads::wrong_column, crate::specs::Heads::wrong_rows))]
impl Head<'_> {
    fn wrong_letters(&self) -> bool
        ensures { result ≡ wrong_letters self.now.bytes.now }
    {
        word_at(self.bytes, 0) != u32::from_le_bytes(*b"FGB1")
    }

    fn wrong_columns(&self) -> bool
        ensures { result ≡ wrong_columns self.now.bytes.now }
    {
        out_of_range(self.columns(), 1, 16)
    }

    fn wrong_sheets(&self) -> bool
        ensures { result ≡ wrong_sheets self.now.bytes.now }
    {
        out_of_range(self.sheets(), 0, 8)
    }

    fn wrong_values(&self, c: usize) -> bool
        requires { c < 16 }
        ensures { result ≡ wrong_values self.now.bytes.now c }
    {
        if c < self.columns() {
            return out_of_range(self.values(c), 1, 32);
        }
        set_at(self.bytes, 8 + c)
    }

    fn wrong_width(&self, s: usize) -> bool
        requires { s < 8 }
        ensures { result ≡ wrong_width self.now.bytes.now s }
    {
        out_of_range(self.width(s), 1, 4)
    }

    // Whether number j of the columns of sheet s is not above the one before.
    fn not_rising(&self, s: usize, j: usize) -> bool
        requires { (s < 8) × (j < 4) }
        ensures { result ≡ not_rising self.now.bytes.now s j }
    {
        j != 0 && self.column(s, j) <= self.column(s, j - 1)
    }

    fn wrong_column(&self, s: usize, j: usize) -> bool
        requires { (s < 8) × (j < 4) }
        ensures { result ≡ wrong_column self.now.bytes.now s j }
    {
        if j < self.width(s) {
            return self.columns() <= self.column(s, j) || self.not_rising(s, j);
        }
        set_at(self.bytes, 25 + 8 * s + j)
    }

    fn wrong_rows(&self, s: usize) -> bool
        requires { s < 8 }
        ensures { result ≡ wrong_rows self.now.bytes.now s }
    {
        out_of_range(self.rows(s), 0, 508)
    }
}

// ---- the first wrong field, stretch by stretch: each gives the offset

impl Head<'_> {
    // Bytes 0 to 7.
    fn first_in_front(&self) -> Option<usize>
        ensures { FirstOf (wrong_field self.now.bytes.now) 0 8 result }
    {
        if self.wrong_letters() {
            return Some(0);
        }
        if self.wrong_columns() {
            return Some(4);
        }
        if self.wrong_sheets() {
            return Some(5);
        }
        first_set(self.bytes, 6, 8)
    }

    // The values of the columns.
    fn first_in_values(&self) -> Option<usize>
        ensures { FirstOf (wrong_field self.now.bytes.now) 8 24 result }
    {
        (8..24).find(|i| self.wrong_values(*i - 8))
    }

    // The column numbers of sheet s, one of the S.
    fn first_in_columns(&self, s: usize) -> Option<usize>
        requires { (s < 8) × (s < sheets_of self.now.bytes.now) }
        ensures { FirstOf (wrong_field self.now.bytes.now) (25 + 8 * s) (29 + 8 * s) result }
    {
        let begin = 25 + 8 * s;
        (begin..29 + 8 * s).find(|i| self.wrong_column(s, *i - begin))
    }

    // The entry of sheet s, one of the S.
    fn first_in_entry(&self, s: usize) -> Option<usize>
        requires { (s < 8) × (s < sheets_of self.now.bytes.now) }
        ensures { FirstOf (wrong_field self.now.bytes.now) (24 + 8 * s) (32 + 8 * s) result }
    {
        if self.wrong_width(s) {
            return Some(24 + 8 * s);
        }
        if let Some(i) = self.first_in_columns(s) {
            return Some(i);
        }
        if set_at(self.bytes, 29 + 8 * s) {
            return Some(29 + 8 * s);
        }
        if self.wrong_rows(s) {
            return Some(30 + 8 * s);
        }
        None
    }

    // The eight entries; there are at most eight sheets.
    fn first_in_entries(&self) -> Option<usize>
        requires { sheets_of self.now.bytes.now ≤ 8 }
        ensures { FirstOf (wrong_field self.now.bytes.now) 24 88 result }
    {
        let n = self.sheets();
        for s in 0..n {
            if let Some(i) = self.first_in_entry(s) {
                return Some(i);
            }
        }
        first_set(self.bytes, 24 + 8 * n, 88)
    }

    // The first wrong field of the head.
    pub fn first_wrong_field(&self) -> Option<usize>
        ensures { FirstOf (wrong_field self.now.bytes.now) 0 508 result }
    {
        if let Some(i) = self.first_in_front() {
            return Some(i);
        }
        if let Some(i) = self.first_in_values() {
            return Some(i);
        }
        if let Some(i) = self.first_in_entries() {
            return Some(i);
        }
        first_set(self.bytes, 88, 508)
    }
}
