// The rows of one word: 64 rows of a sheet, of which those whose bit is set are looked at (the picture: counter.rt of crate counters).
//
// No word has its first 60 rows in two blocks: these are walked in one stretch, and of the last four each is looked for in its block.
ghost use Rattle.std.specs.Prelude.{◌≡◌, cond, ◌+◌, ◌*◌, ◌-◌, ◌%◌, ◌^◌, ◌<◌, ◌≤◌, eqb, get_or, length};
ghost use Rattle.std.specs.Int.Bits.{bit_or};
ghost use Rattle.model.specs.Masks.{bit};
ghost use Rattle.model.specs.Tests.{all_below};
ghost use Rattle.fields.specs.Bytes.{byte_at};
ghost use Rattle.counters.specs.Counters.{near_place};
ghost use Rattle.counters.specs.Steps.{any_block, same_block};
ghost use Rattle.cells.specs.Cells.{NearRows, Stretch, Readable, WithAny, Kept, KeptAny, KeptBy, KeptInside, KeptRun, RowAdded, RowThere, RunOf, Gathered, GatheredRun, SmallSets};

use crate::bits::*;
use counters::counter::*;
use counters::step::*;

// The place of 255: 255 % 64.
const ANY: u64 = 1 << 63;

// ---- pass 1: the rows whose cell at a place is in d
//
// A domain is lent as 64 places, and the cell x is looked up at place x % 64:
//
//     place   0 .. 31         32 .. 62    63
//             the values      none        255: set where there is a value

// The domain d with the place of 255.
fn with_any(d: u32) -> u64
    ensures { WithAny d result }
{
    if d == 0 {
        return 0;
    }
    (d as u64) | ANY
}

// The rows that are set, one by one.
fn kept_set<S: Step>(book: &[u8], p: Counters, j: usize, m: u64, word: u64) -> u64
    requires { (j < 4) × Stretch S.may book.now p word }
    ensures { KeptBy book.now p.begin (64 * p.word) j m word result }
{
    let mut keep: u64 = 0;
    for i in Places::of(word) {
        let at = S::on(p, i as usize).at + j;
        let v = u32::from(book[at]) % 64;
        keep |= has(m, v) << i;
    }
    keep
}

// Of the 64 places, lent as two halves, the one in which the place of the cell x is.
fn half_for(low: u32, high: u32, x: u32) -> u32
    ensures { bit (x % 32) result ≡ bit (x % 64) (low + 2 ^ 32 * high) }
{
    if x / 32 % 2 == 0 {
        return low;
    }
    high
}

// The row at byte `at` from place j on: its lowest bits are those of the cell there.
fn row_from(book: &[u8], at: usize, j: u32) -> u32
    requires { RowThere book.now at × (j < 4) }
    ensures { result % 64 ≡ byte_at book.now (at + j) % 64 }
{
    fields::word_at(book, at) >> (8 * j)
}

// Row k added to `keep`, where v is in d.
fn with_place(keep: u32, k: u32, d: u32, v: u32) -> u32
    requires { (k < 32) × (v < 32) }
    ensures { result ≡ cond (bit v d) (bit_or keep (2 ^ k)) keep }
{
    if d & only(v) == 0 {
        return keep;
    }
    keep | only(k)
}

// The n rows from row `from` on, set or not. No row waits for the one before, and each is read as one number: so the compiler looks at four at a time.
// The halves of the places come apart: with m in their place, tried, the walk over all rows takes 1.6 times as long.
fn kept_run(book: &[u8], p: Counters, from: usize, n: u32, j: u32, low: u32, high: u32) -> u32
    requires { (j < 4) × (n ≤ 32) × (from + n ≤ 60) × Stretch same_block book.now p (2 ^ 60 - 1) }
    ensures { KeptRun book.now p.begin (64 * p.word + from) n j (low + 2 ^ 32 * high) result }
{
    let mut keep: u32 = 0;
    for k in 0..n {
        let x = row_from(book, p.at_near(from + (k as usize)).at, j);
        keep = with_place(keep, k, half_for(low, high, x), x % 32);
    }
    keep
}

// All 60, set or not, with no test.
fn kept_all(book: &[u8], p: Counters, j: usize, m: u64) -> u64
    requires { (j < 4) × Stretch same_block book.now p (2 ^ 60 - 1) }
    ensures { KeptBy book.now p.begin (64 * p.word) j m (2 ^ 60 - 1) result }
{
    let low = (m % 4294967296) as u32;
    let high = (m / 4294967296) as u32;
    let first = kept_run(book, p, 0, 32, j as u32, low, high) as u64;
    let second = kept_run(book, p, 32, 28, j as u32, low, high) as u64;
    first | (second << 32)
}

// Whether it is quicker to look at all rows than at those that are set: either gives the same.
fn many(word: u64) -> bool {
    20 < u64::count_ones(word)
}

// The first 60 rows.
fn kept_near(book: &[u8], p: Counters, j: usize, m: u64, word: u64) -> u64
    requires { (j < 4) × Stretch same_block book.now p (2 ^ 60 - 1) × NearRows word }
    ensures { KeptBy book.now p.begin (64 * p.word) j m word result }
{
    if many(word) {
        return kept_all(book, p, j, m) & word;
    }
    kept_set::<Near>(book, p, j, m, word)
}

// The rows of word w whose cell at place j is a place of m.
fn kept_by(book: &[u8], begin: usize, w: usize, j: usize, m: u64, word: u64) -> u64
    requires { (w < 8) × (j < 4) × Readable book.now begin (64 * w) word × (near_place begin w + 239 < length book.now) }
    ensures { KeptBy book.now begin (64 * w) j m word result }
{
    let p = Counters::at_word(begin, w);
    let far = kept_set::<Far>(book, p, j, m, past_rows(word, 60));
    kept_near(book, p, j, m, first_rows(word, 60)) | far
}

// Pass 1 over word w.
pub fn kept(book: &[u8], begin: usize, w: usize, j: usize, d: u32, word: u64) -> u64
    requires { (w < 8) × (j < 4) × Readable book.now begin (64 * w) word × (near_place begin w + 239 < length book.now) }
    ensures { Kept book.now begin (64 * w) j d word result }
{
    kept_by(book, begin, w, j, with_any(d), word)
}

// The rows of word w with 255 at place j.
pub fn kept_any(book: &[u8], begin: usize, w: usize, j: usize, word: u64) -> u64
    requires { (w < 8) × (j < 4) × Readable book.now begin (64 * w) word × (near_place begin w + 239 < length book.now) }
    ensures { KeptAny book.now begin (64 * w) j word result }
{
    kept_by(book, begin, w, j, ANY, word)
}

// ---- all places at once: the rows of a forbidden sheet whose every cell is in a set. No cell of it is 255: the cell x is looked up at x % 32

// Whether the cell is in the set d.
fn held(d: u32, cell: u8) -> bool
    ensures { result ≡ bit (cell % 32) d }
{
    has(d as u64, u32::from(cell) % 32) == 1
}

// Whether every cell of the row at byte `at` is in the set of its place.
fn inside(book: &[u8], at: usize, x: &[u32; 4]) -> bool
    requires { RowThere book.now at }
    ensures { result ≡ all_below 4 (λ j. bit (byte_at book.now (at + j) % 32) (get_or x.now j 0)) }
{
    held(x[0], book[at])
        & held(x[1], book[at + 1])
        & held(x[2], book[at + 2])
        & held(x[3], book[at + 3])
}

// Rows anywhere in the word.
fn inside_rows(book: &[u8], p: Counters, x: &[u32; 4], word: u64) -> u64
    requires { Stretch any_block book.now p word }
    ensures { KeptInside book.now p.begin (64 * p.word) x.now word result }
{
    let mut keep: u64 = 0;
    for i in Places::of(word) {
        keep |= (inside(book, p.at_bit(i as usize).at, x) as u64) << i;
    }
    keep
}

// The rows of word w.
pub fn kept_inside(book: &[u8], begin: usize, w: usize, x: &[u32; 4], word: u64) -> u64
    requires { (w < 8) × Readable book.now begin (64 * w) word × (near_place begin w < 2 ^ 64) }
    ensures { KeptInside book.now begin (64 * w) x.now word result }
{
    inside_rows(book, Counters::at_word(begin, w), x, word)
}

// ---- pass 2: the values at each of the four places. Of the cell x this is x % 32: 255 gives 31, which such a row does carry

// The values of the row at byte `at`, added to the sets.
fn add_row(book: &[u8], at: usize, sets: &mut [u32; 4])
    requires { RowThere book.now at × SmallSets sets.old }
    ensures { RowAdded book.now at sets.old sets.new × SmallSets sets.new }
{
    for j in 0..4 {
        sets[j] |= only(u32::from(book[at + j]) % 32);
    }
}

// How many rows of a word are set from the first on without a gap.
fn run_of(word: u64) -> usize
    ensures { (result ≤ 64) × RunOf word result }
{
    u64::trailing_zeros(!word) as usize
}

// The first n rows of a word, all of them set. The sets that the loop adds to are a copy, which stays in registers.
fn gathered_run(book: &[u8], p: Counters, n: usize, seen: &mut [u32; 4])
    requires { Stretch same_block book.now p (2 ^ n - 1) × SmallSets seen.old }
    ensures { GatheredRun book.now p.begin (64 * p.word) n seen.old seen.new × SmallSets seen.new }
{
    let mut sets = *seen;
    for i in 0..n {
        add_row(book, p.at_near(i).at, &mut sets);
    }
    *seen = sets;
}

// The rows that are set, one by one.
fn gathered_set<S: Step>(book: &[u8], p: Counters, word: u64, seen: &mut [u32; 4])
    requires { Stretch S.may book.now p word × SmallSets seen.old }
    ensures { Gathered book.now p.begin (64 * p.word) word seen.old seen.new × SmallSets seen.new }
{
    let mut sets = *seen;
    for i in Places::of(word) {
        add_row(book, S::on(p, i as usize).at, &mut sets);
    }
    *seen = sets;
}

// The first 60 rows: those that are set from the first on without a gap, and then the others.
fn gathered_near(book: &[u8], p: Counters, word: u64, seen: &mut [u32; 4])
    requires { Stretch same_block book.now p word × SmallSets seen.old }
    ensures { Gathered book.now p.begin (64 * p.word) word seen.old seen.new × SmallSets seen.new }
{
    let n = run_of(word);
    if n < 24 {
        gathered_set::<Near>(book, p, word, seen);
        return;
    }
    gathered_run(book, p, n, seen);
    gathered_set::<Near>(book, p, past_rows(word, n), seen);
}

// Pass 2 over word w: the values of its rows are added to a set for each place.
pub fn gathered(book: &[u8], begin: usize, w: usize, word: u64, seen: &mut [u32; 4])
    requires { (w < 8) × Readable book.now begin (64 * w) word × (near_place begin w + 239 < length book.now) × SmallSets seen.old }
    ensures { Gathered book.now begin (64 * w) word seen.old seen.new × SmallSets seen.new }
{
    let p = Counters::at_word(begin, w);
    gathered_near(book, p, first_rows(word, 60), seen);
    gathered_set::<Far>(book, p, past_rows(word, 60), seen);
}
