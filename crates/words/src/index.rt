// The rows that are set, in eight words for each sheet, and the index of a sheet's words: which of the eight are not zero.
//
//     position   0   1   2 | 3   4   5   6   7        nonzero 3: positions 0 to 2 are at or below the limit
//     index      5   0   2 | 7   1   6   3   4        words 5, 0 and 2 have a row that is set, the others are zero
ghost use Rattle.std.specs.Prelude.{◌≡◌, ◌+◌, ◌-◌, ◌*◌, ◌<◌, ◌≤◌, get_or, set};
ghost use Rattle.model.specs.States.{of_sheet};
ghost use Rattle.words.specs.Sheets.{IndexOf, rows_to, swapped};

// The words of all sheets, the numbers of each sheet's words in the order of its index, and how many of them are not zero.
//
// Eight entries a sheet in one array, not an array of sheets: `of_sheet` (model, States), of which the theorems speak, reads entry 8 s + i.
#[derive(Clone, Copy)]
pub struct Rows {
    pub valid: [u64; 64],
    pub index: [u8; 64],
    pub nonzero: [u8; 8],
}

impl Rows {
    // How many words of sheet s are not zero.
    pub fn nonzero_words(&self, s: usize) -> usize
        requires { s < 8 }
        ensures { (result ≡ get_or self.now.nonzero s 0) × (result < 256) }
    {
        usize::from(self.nonzero[s])
    }

    // The word number at position p of the index of sheet s, be its word zero or not.
    pub fn word_number(&self, s: usize, p: usize) -> usize
        requires { (s < 8) × (p < 8) × (of_sheet self.now.index s p < 8) }
        ensures { (result ≡ of_sheet self.now.index s p) × (result < 8) }
    {
        usize::from(self.index[8 * s + p])
    }

    // The word at position p of the index of sheet s: its number, and its rows.
    pub fn word(&self, s: usize, p: usize) -> (usize, u64)
        requires { (s < 8) × IndexOf s self.now.valid self.now.index self.now.nonzero × (p < get_or self.now.nonzero s 0) }
        ensures { (result.0 ≡ of_sheet self.now.index s p) × (result.1 ≡ of_sheet self.now.valid s result.0) × (result.0 < 8) }
    {
        let w = self.word_number(s, p);
        (w, self.valid[8 * s + w])
    }

    // How many rows of sheet s are set in the n words of its index that are not zero.
    pub fn set_rows(&self, s: usize, n: usize) -> u32
        requires { (s < 8) × IndexOf s self.now.valid self.now.index self.now.nonzero × (n ≤ get_or self.now.nonzero s 0) }
        ensures { result ≡ rows_to self.now.valid self.now.index s n }
    {
        let mut rows: u32 = 0;
        for p in 0..n {
            let (_, word) = self.word(s, p);
            rows += word.count_ones();
        }
        rows
    }

    // Position p of the index of sheet s, whose word became zero, goes past the limit: it changes places with the last one at or below it.
    pub fn drop_word(&mut self, s: usize, p: usize)
        requires { (s < 8) × (p < get_or self.old.nonzero s 0) × (get_or self.old.nonzero s 0 ≤ 8) }
        ensures { (self.new.index ≡ swapped self.old.index (8 * s + p) (8 * s + (get_or self.old.nonzero s 0 - 1))) × (self.new.nonzero ≡ set self.old.nonzero s (get_or self.old.nonzero s 0 - 1)) × (self.new.valid ≡ self.old.valid) }
    {
        let n = self.nonzero[s] - 1;
        let last = 8 * s + usize::from(n);
        self.index.swap(8 * s + p, last);
        self.nonzero[s] = n;
    }
}
