// Pass 1: the rows of a sheet cut by the columns that changed.
//
// `SheetWords` stays a clause: it ties a sheet to rows that are lent for writing between the passes, so a type with the fact would end at each write.
ghost use Rattle.std.specs.Prelude.{◌≡◌, Bool, false, ◌+◌, ◌*◌, ◌<◌, ℕ, get_or};
ghost use Rattle.heads.specs.Heads.{width_of};
ghost use Rattle.model.specs.States.{of_sheet};
ghost use Rattle.cells.specs.Cells.{row_inside};
ghost use Rattle.words.specs.Sheets.{Keeps, SheetWords, WordCut, WordThere, CutBy, passes_at, passes_below};

use crate::index::*;
use crate::sheet::*;
use cells::walk::*;

// The word at position p of the index of the sheet, cut to what `keep` gives for it. Whether a row was cut.
fn cut_word<F: Fn(usize, u64) -> u64>(
    sheet: &Sheet<'_>,
    p: usize,
    keep: &F,
    rows: &mut Rows,
) -> bool
    requires { SheetWords sheet.now.book.now sheet.now.number rows.old.valid rows.old.index rows.old.nonzero × (p < get_or rows.old.nonzero sheet.now.number 0) × ((w x : ℕ) → WordThere sheet.now.book.now sheet.now.begin w x → F.pre keep.now w x) }
    ensures { ((test : ℕ → Bool) → Keeps sheet.now.book.now sheet.now.begin (F.post keep.now) test → WordCut test sheet.now.number p rows.old.valid rows.old.index rows.old.nonzero rows.new.valid rows.new.index rows.new.nonzero) × (result ≡ false → rows.new.valid ≡ rows.old.valid) }
{
    let (w, word) = rows.word(sheet.number, p);
    let left = keep(w, word);
    if left == word {
        return false;
    }
    rows.valid[8 * sheet.number + w] = left;
    if left == 0 {
        rows.drop_word(sheet.number, p);
    }
    true
}

// The rows of the sheet cut, word by word, to what `keep` gives for a word by its number and its rows. Whether a row was cut. Each closure has a copy of its own,
// so pass 1 stays in one place, and a compiler sees it whole.
fn cut<F: Fn(usize, u64) -> u64>(sheet: &Sheet<'_>, keep: F, rows: &mut Rows) -> bool
    requires { SheetWords sheet.now.book.now sheet.now.number rows.old.valid rows.old.index rows.old.nonzero × ((w x : ℕ) → WordThere sheet.now.book.now sheet.now.begin w x → F.pre keep w x) × ((test : ℕ → Bool) × Keeps sheet.now.book.now sheet.now.begin (F.post keep) test) }
    ensures { ((test : ℕ → Bool) → Keeps sheet.now.book.now sheet.now.begin (F.post keep) test → CutBy test sheet.now.number rows.old.valid rows.old.index rows.old.nonzero rows.new.valid rows.new.index rows.new.nonzero) × (result ≡ false → rows.new.valid ≡ rows.old.valid) }
{
    let mut any = false;
    for p in (0..rows.nonzero_words(sheet.number)).rev() {
        any |= cut_word(sheet, p, &keep, rows);
    }
    any
}

// The same by the column of place j, if it is in `changed`.
fn cut_place(sheet: &Sheet<'_>, j: usize, changed: u32, dom: &[u32; 16], rows: &mut Rows) -> bool
    requires { (j < width_of sheet.now.book.now sheet.now.number) × SheetWords sheet.now.book.now sheet.now.number rows.old.valid rows.old.index rows.old.nonzero }
    ensures { CutBy (passes_at sheet.now.book.now sheet.now.number changed dom.now j) sheet.now.number rows.old.valid rows.old.index rows.old.nonzero rows.new.valid rows.new.index rows.new.nonzero × (result ≡ false → rows.new.valid ≡ rows.old.valid) }
{
    let c = sheet.column(j);
    if (changed >> c) % 2 == 1 {
        let d = dom[c];
        return cut(
            sheet,
            |w, word| kept(sheet.book, sheet.begin, w, j, d, word),
            rows,
        );
    }
    false
}

// The rows of the sheet cut by each of its columns in `changed`. Whether a row was cut, or `opening`.
pub fn cut_places(
    sheet: &Sheet<'_>,
    changed: u32,
    opening: bool,
    dom: &[u32; 16],
    rows: &mut Rows,
) -> bool
    requires { SheetWords sheet.now.book.now sheet.now.number rows.old.valid rows.old.index rows.old.nonzero }
    ensures { CutBy (passes_below sheet.now.book.now sheet.now.number changed dom.now (width_of sheet.now.book.now sheet.now.number)) sheet.now.number rows.old.valid rows.old.index rows.old.nonzero rows.new.valid rows.new.index rows.new.nonzero × (result ≡ false → (opening ≡ false) × (rows.new.valid ≡ rows.old.valid)) }
{
    let mut any = opening;
    for j in 0..sheet.width() {
        any |= cut_place(sheet, j, changed, dom, rows);
    }
    any
}

// The rows of the sheet cut to those with every cell in its set, at all places at once.
pub fn cut_inside(sheet: &Sheet<'_>, x: &[u32; 4], rows: &mut Rows)
    requires { SheetWords sheet.now.book.now sheet.now.number rows.old.valid rows.old.index rows.old.nonzero }
    ensures { CutBy (row_inside sheet.now.book.now sheet.now.begin x.now) sheet.now.number rows.old.valid rows.old.index rows.old.nonzero rows.new.valid rows.new.index rows.new.nonzero }
{
    cut(
        sheet,
        |w, word| kept_inside(sheet.book, sheet.begin, w, x, word),
        rows,
    );
}
