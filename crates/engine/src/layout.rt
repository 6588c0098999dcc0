// What the engine keeps of a book: where the rows of each sheet begin, its columns as a mask, and the places at which a row of it has 255.
ghost use Rattle.std.specs.Prelude.{◌≡◌, ◌<◌, get_or};
ghost use Rattle.heads.specs.Heads.{sheets_of};
ghost use Rattle.words.specs.Sheets.{ShortPlaces};
ghost use Rattle.engine.specs.Layouts.{ColumnsIn, LayoutOf, SheetsLaid};

use book::Book;
use heads::block::Block;
use heads::head::Head;
use rows::row::*;
use words::sheet::*;

// The book, and of each of its sheets the byte at which its rows begin and the places at which a row has 255. Two arrays: `SheetsLaid` speaks of each.
#[derive(Clone, Copy)]
pub struct Sheets<'a> {
    pub book: &'a [u8],
    pub begins: [usize; 8],
    pub shorts: [u32; 8],
    ghost laid: { SheetsLaid book.now begins shorts },
}

impl<'a> Sheets<'a> {
    pub fn head(&self) -> Head<'a>
        ensures { result.bytes.now ≡ self.now.book.now }
    {
        Head::of(self.book)
    }

    // Sheet s, one of the S.
    pub fn sheet(&self, s: usize) -> LaidSheet<'a>
        requires { s < sheets_of self.now.book.now }
        ensures { (result.sheet.book.now ≡ self.now.book.now) × (result.sheet.number ≡ s) × (result.sheet.begin ≡ get_or self.now.begins s 0) × (result.shorts ≡ get_or self.now.shorts s 0) }
    {
        let sheet = Sheet {
            book: self.book,
            number: s,
            begin: self.begins[s],
        };
        LaidSheet {
            sheet,
            shorts: self.shorts[s],
        }
    }
}

// The same with the columns of each sheet. These are an array of their own: all eight are looked at together (`waiting_for`).
#[derive(Clone, Copy)]
pub struct Layout<'a> {
    pub sheets: Sheets<'a>,
    pub scopes: [u32; 8],
    ghost all: { LayoutOf sheets.book.now sheets.begins scopes sheets.shorts },
}

// The columns of a sheet as a mask.
fn columns_of(sheet: &Sheet<'_>) -> u32
    ensures { ColumnsIn sheet.now.book.now sheet.now.number result }
{
    let mut columns = 0;
    for j in 0..sheet.width() {
        columns |= 1u32 << sheet.column(j);
    }
    columns
}

// The places at which a row of a sheet has 255, by the highest bit of each byte: of cells only 255 has it.
fn shorts_of(sheet: &Sheet<'_>) -> u32
    ensures { ShortPlaces sheet.now.book.now sheet.now.number result }
{
    let start = sheet.begin / 512;
    let mut seen = 0;
    for q in 0..blocks_of(&sheet.head(), sheet.number) {
        seen |= joined_rows(&Block::of(sheet.book, start + q));
    }
    seen & 0x8080_8080
}

// All three of each sheet.
pub fn lay_out<'a>(book: &Book<'a>) -> Layout<'a>
    ensures { result.sheets.book.now ≡ book.now.bytes.now }
{
    let head = book.head();
    let mut begins = [0; 8];
    let mut scopes = [0; 8];
    let mut shorts = [0; 8];
    let mut begin = 512;
    for s in 0..head.sheets() {
        let sheet = Sheet {
            book: book.bytes,
            number: s,
            begin,
        };
        begins[s] = begin;
        scopes[s] = columns_of(&sheet);
        shorts[s] = shorts_of(&sheet);
        begin += 512 * blocks_of(&head, s);
    }
    let sheets = Sheets {
        book: book.bytes,
        begins,
        shorts,
    };
    Layout { sheets, scopes }
}
