// Masks as machine words: their lowest place, and a mask without it.
ghost use Rattle.std.specs.Prelude.{◌≡◌, true, ◌-◌, ◌/◌, ◌%◌, ◌^◌, ◌<◌, ltb};
ghost use Rattle.std.specs.Int.Count.{count_trailing_zeros};
ghost use Rattle.std.specs.Iterator.{at_most};
ghost use Rattle.model.specs.Masks.{bit, size, Cleared};
ghost use Rattle.cells.specs.Places.{TakesLowest};

// The lowest place of x.
pub fn lowest(x: u64) -> u32
    requires { 0 < x }
    ensures { (result ≡ count_trailing_zeros 64 x) × (result < 64) × (bit result x ≡ true) }
{
    u64::trailing_zeros(x)
}

// x without its lowest place.
pub fn without_lowest(x: u64) -> u64
    requires { 0 < x }
    ensures { Cleared x result (count_trailing_zeros 64 x) × (result < x) }
{
    x & (x - 1)
}

// The places of a mask, lowest first: those that are left.
#[derive(Clone, Copy)]
pub struct Places {
    pub left: u64,
}

impl Places {
    pub fn of(x: u64) -> Places
        ensures { result.left ≡ x }
    {
        Places { left: x }
    }
}

impl Iterator for Places {
    type Item = u32;

    ghost next_gives = { λ s r t. TakesLowest s.left r t.left };

    ghost remaining = { λ s. at_most s.left };

    fn next(&mut self) -> Option<u32> {
        if self.left == 0 {
            return None;
        }
        let i = lowest(self.left);
        self.left = without_lowest(self.left);
        Some(i)
    }
}

// A mask of 32 places without its lowest.
pub fn others(x: u32) -> u32
    requires { 0 < x }
    ensures { Cleared x result (count_trailing_zeros 32 x) × (result < x) }
{
    x & (x - 1)
}

// Whether place v of x is set, as 0 or 1.
pub fn has(x: u64, v: u32) -> u64
    requires { v < 64 }
    ensures { (result ≡ x / 2 ^ v % 2) × (result < 2) }
{
    (x >> v) % 2
}

// The value v alone.
pub fn only(v: u32) -> u32
    requires { v < 32 }
    ensures { result ≡ 2 ^ v }
{
    1u32 << v
}

// Whether d has two values or more.
pub fn two_or_more(d: u32) -> bool
    ensures { result ≡ ltb 1 (size d) }
{
    if d == 0 {
        return false;
    }
    d & (d - 1) != 0
}
