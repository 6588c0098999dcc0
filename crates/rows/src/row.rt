// The rows of the sheets: how many blocks they need, the bounds of their bytes, and the rows of a block that are over them.
//
// Every byte of a row has a bound that it must be below: V at the place of a value, 1 at a byte that must be zero. Rows are looked at as
// 32-bit numbers. First all are joined by `|`: where that is below the bounds, every row is. A byte of 128 or more in it is not below its bound.
// Otherwise 128 less its bound is added to each byte, and one that is not below its bound shows in its highest bit:
//
//     row     x0      x1      x2      x3          each below 128, so none carries into the next
//     slack   128-w   128-x   128-y   128-z
//     sum     a highest bit is set exactly where the byte is not below its bound
//
// "Refusal 5 lets 255 pass.": where that leaves a doubt, each row is turned first. Its values go up by one, 255 to 0, and so do their bounds.
//
//     row     3       255     0       0           two values, V = 4 and 7
//     turned  4       0       0       0           one of 128 or more is over its bound; where none is, the sum is as above
//     slack   128-5   128-8   128-1   128-1
ghost use Rattle.std.specs.Prelude.{◌≡◌, ℕ, ◌+◌, ◌*◌, ◌%◌, ◌^◌, ◌<◌, ◌≤◌, bit_or, nat_lt};
ghost use Rattle.model.specs.Tests.{Finds, NoneIn};
ghost use Rattle.fields.specs.Bytes.{byte_at};
ghost use Rattle.heads.specs.Blocks.{RightLength, block_count, word};
ghost use Rattle.heads.specs.Heads.{sheets_of, RightHead};
ghost use Rattle.rows.specs.Rows.{any_places, blocks_of, first_block, blocks_needed, over_at};
ghost use Rattle.rows.specs.Bounds.{fourth, place_bound, used_rows, over_bounds, RowBounds, SmallBounds, joined, Joins, below_bounds, any_high, raised_row, slack_of, SmallTurn, turn_of, turned, turned_row};

use fields::word_at;
use heads::block::Block;
use heads::head::Head;

// The blocks of sheet s.
#[tactic(auto, unfolding(crate::specs::Rows::blocks_of))]
pub fn blocks_of(h: &Head<'_>, s: usize) -> usize
    requires { s < 8 }
    ensures { (result ≡ blocks_of h.now.bytes.now s) × (result ≤ 517) }
{
    h.rows(s).div_ceil(127)
}

// The block in which the rows of sheet s begin.
#[tactic(auto, using(crate::proofs::Rows::first_block_zero, crate::proofs::Rows::first_block_more))]
pub fn first_block(h: &Head<'_>, s: usize) -> usize
    requires { s ≤ 8 }
    ensures { (result ≡ first_block h.now.bytes.now s) × (result < 65536) }
{
    let mut n: usize = 1;
    for t in 0..s {
        n += blocks_of(h, t);
    }
    n
}

// The blocks that the head and the sheets need; there are at most eight sheets.
#[tactic(auto, unfolding(crate::specs::Rows::blocks_needed))]
pub fn blocks_needed(h: &Head<'_>) -> usize
    requires { sheets_of h.now.bytes.now ≤ 8 }
    ensures { (result ≡ blocks_needed h.now.bytes.now) × (result < 65536) }
{
    first_block(h, h.sheets())
}

// How many rows of block q are used where the sheet has n; some are.
pub fn used_rows(n: usize, q: usize) -> usize
    requires { 127 * q < n }
    ensures { (result ≡ used_rows n q) × (result ≤ 127) }
{
    (n - 127 * q).min(127)
}

// A book whose length and head are right, and whose blocks are those that they need.
#[derive(Clone, Copy)]
pub struct Whole<'a> {
    pub bytes: &'a [u8],
    ghost length: { RightLength bytes.now },
    ghost right: { RightHead bytes.now },
    ghost blocks: { blocks_needed bytes.now ≡ block_count bytes.now },
}

impl<'a> Whole<'a> {
    #[tactic(auto, using(crate::proofs::Rows::head_there))]
    pub fn head(&self) -> Head<'a>
        ensures { result.bytes.now ≡ self.now.bytes.now }
    {
        Head::of(self.bytes)
    }
}

// ---- the bounds of a sheet's rows

// What the four bytes of a used row have to be below; at the first k of them 255 passes.
#[derive(Clone, Copy)]
pub struct Bounds {
    // Not an array: `RowBounds`, `over_bounds` and `wrong_in` (specs/Bounds.antt) take the four one by one.
    pub w: u8,
    pub x: u8,
    pub y: u8,
    pub z: u8,
    pub k: usize,
    ghost small: { SmallBounds w x y z },
}

// What byte j of a used row of sheet s, one of the S, has to be below.
#[tactic(auto, using(heads::proofs::Heads::sheets_most), unfolding(crate::specs::Bounds::place_bound))]
fn place_bound(h: &Head<'_>, s: usize, j: usize) -> u8
    requires { RightHead h.now.bytes.now × (s < sheets_of h.now.bytes.now) × (j < 4) }
    ensures { (result ≡ place_bound h.now.bytes.now s j) × (1 ≤ result) × (result ≤ 127) }
{
    if j < h.width(s) {
        h.bytes[8 + h.column(s, j)]
    } else {
        1
    }
}

// At how many places of a row 255 passes: at all of the width, but at none in a forbidden sheet.
#[tactic(auto, unfolding(crate::specs::Rows::any_places))]
fn any_places(h: &Head<'_>, s: usize) -> usize
    requires { s < 8 }
    ensures { result ≡ any_places h.now.bytes.now s }
{
    if h.forbids(s) { 0 } else { h.width(s) }
}

// The bounds of sheet s, one of the S.
#[tactic(auto, using(heads::proofs::Heads::sheets_most))]
pub fn bounds_of(h: &Head<'_>, s: usize) -> Bounds
    requires { RightHead h.now.bytes.now × (s < sheets_of h.now.bytes.now) }
    ensures { RowBounds h.now.bytes.now s result.w result.x result.y result.z result.k }
{
    Bounds {
        w: place_bound(h, s, 0),
        x: place_bound(h, s, 1),
        y: place_bound(h, s, 2),
        z: place_bound(h, s, 3),
        k: any_places(h, s),
    }
}

impl Bounds {
    // Bound number j of them.
    fn bound(self, j: usize) -> u8
        ensures { result ≡ fourth self.w self.x self.y self.z j }
    {
        match j {
            0 => self.w,
            1 => self.x,
            2 => self.y,
            _ => self.z,
        }
    }

    // Whether byte x is over that bound, and not a 255 that passes.
    pub fn over_bound(self, j: usize, x: u8) -> bool
        ensures { result ≡ over_at (nat_lt j self.k) (fourth self.w self.x self.y self.z j) x }
    {
        self.bound(j) <= x && !(j < self.k && x == 255)
    }

    // What is added to a row: 128 less its bounds.
    fn slack(self) -> u32
        ensures { result ≡ slack_of self.w self.x self.y self.z }
    {
        u32::from_le_bytes([128 - self.w, 128 - self.x, 128 - self.y, 128 - self.z])
    }

    // What the turning of a row adds at each place: 1 at one of the first k, 0 elsewhere.
    fn turn(self) -> u32
        ensures { result ≡ turn_of self.k }
    {
        u32::from_le_bytes([0, 1, 2, 3].map(|j| u8::from(j < self.k)))
    }

    // Whether each byte of v is below its bound.
    #[tactic(auto, using(crate::proofs::Words::below_all))]
    fn below_bounds(self, v: u32) -> bool
        ensures { result ≡ below_bounds self.w self.x self.y self.z v }
    {
        let [p, q, r, s] = v.to_le_bytes();
        (p < self.w) & (q < self.x) & (r < self.y) & (s < self.z)
    }
}

// ---- rows over their bounds

// That the numbers of a list are bytes: the prover knows it only of a list that is an argument itself. No code.
fn are_bytes(bytes: &[u8])
    ensures { (i : ℕ) → byte_at bytes.now i < 256 }
{}

// f of each row of a block, joined by `|`. The loop takes all 127 rows and uses each once, so that the compiler reads four of them at a time.
#[tactic(auto, using(crate::proofs::Words::joins_none, crate::proofs::Words::joins_more))]
fn joined<F: Fn(u32) -> u32>(b: &Block<'_>, f: F) -> u32
    requires { F.IsAlwaysCallable f }
    ensures { Joins (λ r. F.post f (word b.now.bytes.now r)) 127 result }
{
    let mut seen: u32 = 0;
    for i in 0..127 {
        seen |= f(word_at(b.bytes, 4 * i));
    }
    seen
}

// The rows of a block joined by `|`.
pub fn joined_rows(b: &Block<'_>) -> u32
    ensures { result ≡ joined (word b.now.bytes.now) 127 }
{
    joined(b, |v| v)
}

// Whether one of the four bytes of v is 128 or more.
#[tactic(auto, using(crate::proofs::Words::high_mask))]
fn any_high(v: u32) -> bool
    ensures { result ≡ any_high v }
{
    v & 0x8080_8080 != 0
}

// Whether a row of a block has a byte that is 128 or more once k is added.
fn any_raised(b: &Block<'_>, k: u32) -> bool
    ensures { Finds (raised_row k b.now.bytes.now) 0 127 result }
{
    any_high(joined(b, |v| v.wrapping_add(k)))
}

// Whether a row of a block has a byte that is not below its bound, 255 in place of a value too. Of a right block without 255 whose V are all powers of
// two the first test is enough.
pub fn any_not_below(b: &Block<'_>, m: Bounds) -> bool
    ensures { Finds (over_bounds m.w m.x m.y m.z 0 b.now.bytes.now) 0 127 result }
{
    are_bytes(b.bytes);
    let v = joined_rows(b);
    !m.below_bounds(v) && (any_high(v) || any_raised(b, m.slack()))
}

// ---- rows turned

// Row v turned by o. The highest bit of each byte is left out of the sum, so that nothing is carried into the next, and put right after it.
fn turn(v: u32, o: u32) -> u32
    requires { SmallTurn o }
    ensures { result ≡ turned o v }
{
    ((v & 0x7f7f_7f7f) + o) ^ (v & 0x8080_8080)
}

// Row v turned by o, joined with the same once `slack` is added: a byte of it is 128 or more where one of the two has such a byte.
fn turned_twice(v: u32, o: u32, slack: u32) -> u32
    requires { SmallTurn o }
    ensures { result ≡ bit_or (turned o v) ((turned o v + slack) % 2 ^ 32) }
{
    let t = turn(v, o);
    t | t.wrapping_add(slack)
}

// Whether a row of a block, turned by o, has a byte that is 128 or more, or has one once `slack` is added.
fn any_turned(b: &Block<'_>, o: u32, slack: u32) -> bool
    requires { SmallTurn o }
    ensures { Finds (turned_row o slack b.now.bytes.now) 0 127 result }
{
    any_high(joined(b, |v| turned_twice(v, o, slack)))
}

// Whether a row of a block has a byte that is over its bound: 255 in place of a value is not. Where 255 passes nowhere, nothing has to be turned.
pub fn any_over(b: &Block<'_>, m: Bounds) -> bool
    ensures { Finds (over_bounds m.w m.x m.y m.z m.k b.now.bytes.now) 0 127 result }
{
    if m.k == 0 {
        return any_not_below(b, m);
    }
    are_bytes(b.bytes);
    let o = m.turn();
    any_turned(b, o, m.slack() - o)
}

// How many of the first n rows of a block, from its first on, have no such byte.
pub fn rows_under(b: &Block<'_>, m: Bounds, n: usize) -> usize
    requires { n ≤ 127 }
    ensures { (result ≤ n) × NoneIn (over_bounds m.w m.x m.y m.z m.k b.now.bytes.now) 0 result }
{
    are_bytes(b.bytes);
    let o = m.turn();
    let slack = m.slack() - o;
    (0..n)
        .find(|r| any_high(turned_twice(word_at(b.bytes, 4 * *r), o, slack)))
        .unwrap_or(n)
}
