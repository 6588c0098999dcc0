// The values of a forbidden sheet that have support. Its rows do not repeat, so of the choices with the value v at place j as many are forbidden as rows that are
// set have v there: v has support exactly when these are fewer than the choices for the other places.
//
// Mostly the rows are fewer than the choices for any places, and nothing has to be counted.
ghost use Rattle.std.specs.Prelude.{◌≡◌, cond, true, ◌*◌, ◌^◌, ◌<◌, ◌≤◌, eqb, get_or};
ghost use Rattle.std.specs.Int.Bits.{bit_or};
ghost use Rattle.heads.specs.Heads.{forbids_of, width_of};
ghost use Rattle.words.specs.Sheets.{FindsSupported, SheetWords};
ghost use Rattle.looks.specs.Counts.{CountsTo, Fewer, NoneAbove, NotFull, NotFullTo, Others};

use cells::bits::{Places, only};
use words::index::Rows;
use words::sheet::Sheet;

// The product of three numbers of values.
fn times(a: u32, b: u32, c: u32) -> u32
    requires { (a ≤ 32) × (b ≤ 32) × (c ≤ 32) }
    ensures { result ≡ a * b * c }
{
    a * b * c
}

// How many choices there are for the places other than each.
fn choices_of(x: &[u32; 4]) -> [u32; 4]
    ensures { Others x.now result }
{
    let [a, b, c, d] = x.map(|set| set.count_ones());
    [
        times(b, c, d),
        times(a, c, d),
        times(a, b, d),
        times(a, b, c),
    ]
}

// Whether n is below each of them.
fn fewer(n: u32, others: &[u32; 4]) -> bool
    ensures { result ≡ true → Fewer n others.now }
{
    others.iter().all(|x| n < *x)
}

// How many rows of the sheet that are set have each value at each place, at as many places as it has, two at least.
fn count_sheet(sheet: &Sheet<'_>, n: usize, rows: &Rows) -> [u32; 128]
    requires { SheetWords sheet.now.book.now sheet.now.number rows.now.valid rows.now.index rows.now.nonzero × (n ≡ get_or rows.now.nonzero sheet.now.number 0) }
    ensures { CountsTo (width_of sheet.now.book.now sheet.now.number) sheet.now.book.now sheet.now.number rows.now.valid rows.now.index n result }
{
    let k = sheet.width();
    let mut counts = [0u32; 128];
    for p in 0..n {
        let (w, word) = rows.word(sheet.number, p);
        tally::counted(sheet.book, sheet.begin, w, word, k, &mut counts);
    }
    counts
}

// The values in `keep`, and v where the numbers are not the same.
fn with_value(keep: u32, v: u32, count: u32, choices: u32) -> u32
    requires { v < 32 }
    ensures { result ≡ cond (eqb count choices) keep (bit_or keep (2 ^ v)) }
{
    if count == choices {
        return keep;
    }
    keep | only(v)
}

// The values of d at place j that have not as many rows as there are choices for the other places.
fn not_full(counts: &[u32; 128], j: usize, choices: u32, d: u32) -> u32
    requires { j < 4 }
    ensures { NotFull counts.now j choices d result }
{
    let mut keep: u32 = 0;
    for v in Places::of(d as u64) {
        keep = with_value(keep, v, counts[32 * j + (v as usize)], choices);
    }
    keep
}

// The same; where the rows are fewer than the choices, no value has as many.
fn place_left(counts: &[u32; 128], j: usize, rows: u32, choices: u32, d: u32) -> u32
    requires { (j < 4) × NoneAbove rows counts.now }
    ensures { NotFull counts.now j choices d result }
{
    if rows < choices {
        return d;
    }
    not_full(counts, j, choices, d)
}

// The same of each place.
fn places_left(counts: &[u32; 128], rows: u32, others: &[u32; 4], x: &[u32; 4]) -> [u32; 4]
    requires { NoneAbove rows counts.now }
    ensures { NotFullTo counts.now others.now x.now 4 result }
{
    std::array::from_fn(|j| place_left(counts, j, rows, others[j], x[j]))
}

// The values with support at each place of the sheet, which forbids its rows.
pub fn unforbidden(sheet: &Sheet<'_>, x: &[u32; 4], rows: &Rows) -> [u32; 4]
    requires { SheetWords sheet.now.book.now sheet.now.number rows.now.valid rows.now.index rows.now.nonzero × (forbids_of sheet.now.book.now sheet.now.number ≡ true) }
    ensures { FindsSupported sheet.now.book.now sheet.now.number rows.now.valid x.now result }
{
    let n = rows.nonzero_words(sheet.number);
    let others = choices_of(x);
    if fewer(64 * (n as u32), &others) {
        return *x;
    }
    let all = rows.set_rows(sheet.number, n);
    if fewer(all, &others) {
        return *x;
    }
    let counts = count_sheet(sheet, n, rows);
    places_left(&counts, all, &others, x)
}
