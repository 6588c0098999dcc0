// tally: how many rows of a word have each value at each place. A forbidden sheet goes by that.
//
// Promise: `counted` ensures `Counted` (specs/Tallies.antt), of the rows of one word. All places of a sheet are counted in one walk, which goes over the first 60 rows in
// one stretch, as the walks of crate cells do.
#![tactic(auto)]

ghost use Rattle.std.specs.Prelude.{◌≡◌, ◌+◌, ◌*◌, ◌%◌, ◌^◌, ◌-◌, ◌<◌, ◌≤◌, get_or, length};
ghost use Rattle.fields.specs.Bytes.{byte_at};
ghost use Rattle.counters.specs.Counters.{near_place};
ghost use Rattle.cells.specs.Cells.{Readable, Stretch};
ghost use Rattle.tally.specs.Tallies.{Counted, Counts, Raised, RowBytes, RowCounted, places_of};

use cells::bits::*;
use counters::counter::*;
use counters::step::*;

// One more at entry i.
fn raise(counts: &mut [u32; 128], i: usize)
    requires { (i < 128) × (length counts.old ≡ 128) × (get_or counts.old i 0 < 2 ^ 32 - 1) }
    ensures { Raised i counts.old counts.new }
{
    counts[i] += 1;
}

// One more for each value of the row at byte `at`, of a sheet of width K. The compiler knows K: with a width as an argument, tried, the loop takes twice as long.
fn count_row<const K: usize>(book: &[u8], at: usize, counts: &mut [u32; 128])
    requires { RowBytes book.now at × Counts 576 counts.old × (K ≤ 4) }
    ensures { RowCounted K (λ j. byte_at book.now (at + j) % 32) counts.old counts.new }
{
    let row = fields::word_at(book, at) as usize;
    for j in 0..K {
        raise(counts, 32 * j + (row >> (8 * j)) % 32);
    }
}

// The rows that are set, one by one.
fn count_set<S: Step, const K: usize>(book: &[u8], p: Counters, word: u64, counts: &mut [u32; 128])
    requires { Stretch S.may book.now p word × Readable book.now p.begin (64 * p.word) word × Counts 512 counts.old × (2 ≤ K) × (K ≤ 4) }
    ensures { Counted K book.now p.begin (64 * p.word) word counts.old counts.new }
{
    for i in Places::of(word) {
        count_row::<K>(book, S::on(p, i as usize).at, counts);
    }
}

// The rows of word w, of a sheet of width K.
fn count_word<const K: usize>(
    book: &[u8],
    begin: usize,
    w: usize,
    word: u64,
    counts: &mut [u32; 128],
)
    requires { (w < 8) × Readable book.now begin (64 * w) word × (near_place begin w + 239 < length book.now) × Counts 448 counts.old × (2 ≤ K) × (K ≤ 4) }
    ensures { Counted K book.now begin (64 * w) word counts.old counts.new }
{
    let p = Counters::at_word(begin, w);
    count_set::<Near, K>(book, p, first_rows(word, 60), counts);
    count_set::<Far, K>(book, p, past_rows(word, 60), counts);
}

// The rows of word w, of a sheet of width k. Two places are always counted: nobody asks for the second of one column.
pub fn counted(book: &[u8], begin: usize, w: usize, word: u64, k: usize, counts: &mut [u32; 128])
    requires { (w < 8) × Readable book.now begin (64 * w) word × (near_place begin w + 239 < length book.now) × Counts 448 counts.old }
    ensures { Counted k book.now begin (64 * w) word counts.old counts.new }
{
    match k {
        0..=2 => count_word::<2>(book, begin, w, word, counts),
        3 => count_word::<3>(book, begin, w, word, counts),
        _ => count_word::<4>(book, begin, w, word, counts),
    }
}
