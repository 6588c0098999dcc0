// The rows of a sheet that match a value at place 3, as a table: which values of place 0 they allow with those of places 1 and 2 (the picture:
// specs/Covers.antt). So rows with 255 are put down once, and not for each value that they match.
ghost use Rattle.std.specs.Prelude.{◌≡◌, ◌+◌, ◌*◌, ◌<◌, length};
ghost use Rattle.fields.specs.Bytes.{byte_at};
ghost use Rattle.model.specs.Masks.{bit};
ghost use Rattle.counters.specs.Counters.{near_place};
ghost use Rattle.cells.specs.Cells.{IsCell, Readable, Stretch, cell_at};
ghost use Rattle.words.specs.Sheets.{SheetWords};
ghost use Rattle.cover.specs.Covers.{MatchedValues, RowAt, RowPut, TableOf, Tabled, slot};

use cells::bits::{Places, only};
use cells::walk::kept;
use counters::counter::{Counters, first_rows, past_rows};
use counters::step::{Far, Near, Step};
use words::index::Rows;
use words::sheet::Sheet;

// The slot of the cell x.
fn slot_of(x: u8) -> usize
    ensures { (result ≡ slot x) × (result < 33) }
{
    if x < 32 {
        return usize::from(x);
    }
    32
}

// The values that the cell x matches: itself, or all of them.
fn matched_values(x: u8) -> u32
    requires { IsCell x }
    ensures { MatchedValues x result }
{
    if x < 32 {
        return only(u32::from(x));
    }
    4294967295
}

// The row at byte `at` is put into the table.
fn put_row(book: &[u8], at: usize, table: &mut [u32; 1089])
    requires { RowAt book.now at }
    ensures { RowPut (byte_at book.now at) (byte_at book.now (at + 1)) (byte_at book.now (at + 2)) table.old table.new }
{
    let i = 33 * slot_of(book[at + 2]) + slot_of(book[at + 1]);
    table[i] |= matched_values(book[at]);
}

// The rows that are set in `word`.
fn put_set<S: Step>(book: &[u8], p: Counters, word: u64, table: &mut [u32; 1089])
    requires { Stretch S.may book.now p word × Readable book.now p.begin (64 * p.word) word }
    ensures { Tabled (λ k j. cell_at book.now p.begin (64 * p.word + k) j) (λ k. bit k word) table.old table.new }
{
    for i in Places::of(word) {
        put_row(book, S::on(p, i as usize).at, table);
    }
}

// The rows of word w that are set in `word`.
fn put_word(book: &[u8], begin: usize, w: usize, word: u64, table: &mut [u32; 1089])
    requires { (w < 8) × Readable book.now begin (64 * w) word × (near_place begin w + 239 < length book.now) }
    ensures { Tabled (λ k j. cell_at book.now begin (64 * w + k) j) (λ k. bit k word) table.old table.new }
{
    let p = Counters::at_word(begin, w);
    put_set::<Far>(book, p, past_rows(word, 60), table);
    put_set::<Near>(book, p, first_rows(word, 60), table);
}

// The rows of the sheet that are set and match the value v at place 3.
pub fn put_sheet(sheet: &Sheet<'_>, v: u32, rows: &Rows, table: &mut [u32; 1089])
    requires { SheetWords sheet.now.book.now sheet.now.number rows.now.valid rows.now.index rows.now.nonzero × (v < 32) }
    ensures { TableOf sheet.now.book.now sheet.now.number rows.now.valid v table.old table.new }
{
    let d = only(v);
    for p in 0..rows.nonzero_words(sheet.number) {
        let (w, word) = rows.word(sheet.number, p);
        let word = kept(sheet.book, sheet.begin, w, 3, d, word);
        put_word(sheet.book, sheet.begin, w, word, table);
    }
}
