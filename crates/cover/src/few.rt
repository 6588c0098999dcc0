// The quick no: fewer rows are set than there are choices.
//
// At a place without 255 a row matches one value only. So if every choice is matched, each choice for these places has a row of its own.
ghost use Rattle.std.specs.Prelude.{◌≡◌, ◌<◌, ◌≤◌, ltb, get_or};
ghost use Rattle.heads.specs.Heads.{width_of};
ghost use Rattle.words.specs.Sheets.{IndexOf, IsSheet, Sized, rows_to};
ghost use Rattle.cover.specs.Covers.{FewValues, SizesTo, plain_in};

use heads::head::Head;
use words::index::Rows;

// How many values each domain has: counted for all columns at once, which is as quick as for four. A loop, since `map` takes six times as long, and
// what is known of `from_fn` does not give the sizes.
pub fn count_values(dom: &[u32; 16]) -> [u32; 16]
    ensures { SizesTo dom.now 16 result }
{
    let mut sizes = [0u32; 16];
    for c in 0..16 {
        sizes[c] = dom[c].count_ones();
    }
    sizes
}

// How many choices the places of sheet s have where it has no 255. `shorts` has bit 8 j + 7 set for a place j at which it has one.
fn plain_choices(book: &[u8], s: usize, shorts: u32, sizes: &[u32; 16]) -> u32
    requires { IsSheet book.now s × FewValues sizes.now }
    ensures { (result ≡ plain_in book.now s shorts sizes.now (width_of book.now s)) × (result ≤ 1048576) }
{
    let head = Head::of(book);
    let mut n: u32 = 1;
    for j in 0..head.width(s) {
        if (shorts >> (8 * (j as u32) + 7)) % 2 == 0 {
            n *= sizes[head.column(s, j)];
        }
    }
    n
}

// Whether fewer rows are set than there are choices. A word has 64 rows at most, so mostly none has to be counted.
// It takes the book and s, and no `Sheet`: its clause never asked where the rows begin, and may not ask more.
pub fn too_few(book: &[u8], s: usize, shorts: u32, sizes: &[u32; 16], rows: &Rows) -> bool
    requires { IsSheet book.now s × FewValues sizes.now × Sized rows.now.valid rows.now.index rows.now.nonzero × IndexOf s rows.now.valid rows.now.index rows.now.nonzero }
    ensures { result ≡ ltb (rows_to rows.now.valid rows.now.index s (get_or rows.now.nonzero s 0)) (plain_in book.now s shorts sizes.now (width_of book.now s)) }
{
    let choices = plain_choices(book, s, shorts, sizes);
    let n = rows.nonzero_words(s);
    if 64 * (n as u32) < choices {
        return true;
    }
    rows.set_rows(s, n) < choices
}
