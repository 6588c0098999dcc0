// The sheet that a pass looks at.
ghost use Rattle.std.specs.Prelude.{◌≡◌, ◌<◌, ◌≤◌};
ghost use Rattle.heads.specs.Heads.{column_of, forbids_of, width_of};
ghost use Rattle.words.specs.Sheets.{AtSheet, ShortPlaces};

use heads::head::Head;

// Sheet `number` of an accepted book, whose rows begin at byte `begin`.
#[derive(Clone, Copy)]
pub struct Sheet<'a> {
    pub book: &'a [u8],
    pub number: usize,
    pub begin: usize,
    ghost at: { AtSheet book.now begin number },
}

impl<'a> Sheet<'a> {
    // The head of its book.
    pub fn head(&self) -> Head<'a>
        ensures { result.bytes.now ≡ self.now.book.now }
    {
        Head::of(self.book)
    }

    // The number of its columns.
    pub fn width(&self) -> usize
        ensures { (result ≡ width_of self.now.book.now self.now.number) × (result ≤ 4) }
    {
        self.head().width(self.number)
    }

    // The column of place j.
    pub fn column(&self, j: usize) -> usize
        requires { j < 4 }
        ensures { (result ≡ column_of self.now.book.now self.now.number j) × (result < 256) × (j < width_of self.now.book.now self.now.number → result < 16) }
    {
        self.head().column(self.number, j)
    }

    // Whether it forbids its rows.
    pub fn forbids(&self) -> bool
        ensures { result ≡ forbids_of self.now.book.now self.now.number }
    {
        self.head().forbids(self.number)
    }
}

// A sheet and where it has 255: bit 8 j + 7 of `shorts` is set for each place j at which some row has one, laid out once a book.
#[derive(Clone, Copy)]
pub struct LaidSheet<'a> {
    pub sheet: Sheet<'a>,
    pub shorts: u32,
    ghost any: { ShortPlaces sheet.book.now sheet.number shorts },
}
