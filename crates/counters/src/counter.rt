// The counters of a walk over a sheet's rows. No row is found by a division: the counters are set at a word's first row, row and bit go along together from
// there, and where the rows of a block end the next block begins.
//
//     row r     ..   63   64  ..  126 | 127  128  ..  253 | 254  255  256  ..        a block has 127 rows of 4 bytes, and 4 bytes more:
//     block     ..    0    0  ..    0 |   1    1  ..    1 |   2    2    2  ..        r / 127        row r stands 4 (r + block) bytes
//     row       ..   63   64  ..  126 |   0    1  ..  126 |   0    1    2  ..        r % 127        after the sheet's first
//     word      ..    0    1  ..    1     1    2  ..    3     3    3    4  ..        r / 64
//     bit       ..   63    0  ..   62    63    0  ..   61    62   63    0  ..        r % 64
ghost use Rattle.std.specs.Prelude.{◌≡◌, ◌+◌, ◌*◌, ◌/◌, ◌^◌, ◌<◌, ◌≤◌};
ghost use Rattle.counters.specs.Counters.{AtRow, FirstRows, PastRows, cell_place, near_place};

// Where a walk stands, over the rows of a sheet that begin at byte `begin`: its row stands at byte `at`.
#[derive(Clone, Copy)]
pub struct Counters {
    pub begin: usize,
    pub block: usize,
    pub row: usize,
    pub word: usize,
    pub bit: usize,
    pub at: usize,
    pub ghost stands: { AtRow (64 * word + bit) begin block row word bit at },
}

impl Counters {
    // At the first row of word w. Two words are a block and one row more.
    pub fn at_word(begin: usize, w: usize) -> Counters
        requires { (w < 8) × (near_place begin w < 2 ^ 64) }
        ensures { (result.begin ≡ begin) × (result.word ≡ w) × (result.bit ≡ 0) }
    {
        let block = w / 2;
        Counters {
            begin,
            block,
            row: block + 64 * (w % 2),
            word: w,
            bit: 0,
            at: begin + 4 * (64 * w + block),
        }
    }

    // i rows on, in the same word and the same block.
    pub fn at_near(self, i: usize) -> Counters
        requires { (self.bit + i < 64) × (self.row + i < 127) × (cell_place self.begin (64 * self.word + self.bit + i) 0 < 2 ^ 64) }
        ensures { (result.begin ≡ self.begin) × (result.word ≡ self.word) × (result.bit ≡ self.bit + i) }
    {
        Counters {
            begin: self.begin,
            block: self.block,
            row: self.row + i,
            word: self.word,
            bit: self.bit + i,
            at: self.at + 4 * i,
        }
    }

    // i rows on in the same word, in the same block or in the next.
    pub fn at_bit(self, i: usize) -> Counters
        requires { (self.bit + i < 64) × (cell_place self.begin (64 * self.word + self.bit + i) 0 < 2 ^ 64) }
        ensures { (result.begin ≡ self.begin) × (result.word ≡ self.word) × (result.bit ≡ self.bit + i) }
    {
        let row = self.row + i;
        let more = ended(row);
        Counters {
            begin: self.begin,
            block: self.block + more,
            row: row - 127 * more,
            word: self.word,
            bit: self.bit + i,
            at: self.at + 4 * (i + more),
        }
    }
}

// How many blocks end before the row that would be row `row` of this one.
fn ended(row: usize) -> usize
    requires { row < 254 }
    ensures { result ≡ row / 127 }
{
    if row < 127 { 0 } else { 1 }
}

// The first n rows of a word.
pub fn first_rows(word: u64, n: usize) -> u64
    requires { (0 < n) × (n ≤ 64) }
    ensures { FirstRows word n result }
{
    word & (u64::MAX >> (64 - n))
}

// Its other rows.
pub fn past_rows(word: u64, n: usize) -> u64
    requires { (0 < n) × (n ≤ 64) }
    ensures { PastRows word n result }
{
    word & !(u64::MAX >> (64 - n))
}
