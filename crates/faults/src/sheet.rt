// A sheet of a book whose blocks are looked at.
ghost use Rattle.std.specs.Prelude.{◌≡◌, ◌+◌, ◌<◌};
ghost use Rattle.heads.specs.Blocks.{block_at};
ghost use Rattle.heads.specs.Heads.{rows_of, sheets_of};
ghost use Rattle.rows.specs.Rows.{blocks_of, first_block};
ghost use Rattle.rows.specs.Bounds.{SheetThere};

use heads::block::Block;
use heads::head::Head;
use rows::row::*;

// Sheet number `number` of a book, which has its blocks: they begin at block `start`.
#[derive(Clone, Copy)]
pub struct SheetBlocks<'a> {
    pub book: &'a [u8],
    pub number: usize,
    pub start: usize,
    ghost there: { SheetThere book.now number },
    ghost starts: { start ≡ first_block book.now number },
}

impl<'a> SheetBlocks<'a> {
    // Sheet s of the book.
    #[tactic(auto, using(heads::proofs::Heads::sheets_most, rows::proofs::Rows::blocks_there))]
    pub fn of(book: &Whole<'a>, s: usize) -> SheetBlocks<'a>
        requires { s < sheets_of book.now.bytes.now }
        ensures { (result.book.now ≡ book.now.bytes.now) × (result.number ≡ s) }
    {
        SheetBlocks {
            book: book.bytes,
            number: s,
            start: first_block(&book.head(), s),
        }
    }

    pub(crate) fn head(&self) -> Head<'a>
        ensures { result.bytes.now ≡ self.now.book.now }
    {
        Head::of(self.book)
    }

    // How many rows it has.
    pub(crate) fn rows(&self) -> usize
        ensures { result ≡ rows_of self.now.book.now self.now.number }
    {
        self.head().rows(self.number)
    }

    // Its block q.
    pub(crate) fn block(&self, q: usize) -> Block<'a>
        requires { q < blocks_of self.now.book.now self.now.number }
        ensures { result.bytes.now ≡ block_at self.now.book.now (self.now.start + q) }
    {
        Block::of(self.book, self.start + q)
    }
}
