// What a field must not be: out of its range, or not zero.
ghost use Rattle.std.specs.Prelude.{◌≡◌, ◌<◌, ◌≤◌, length};
ghost use Rattle.model.specs.Tests.{FirstOf, Finds};
ghost use Rattle.heads.specs.Limits.{set_at, out_of_range};

// Whether x is not one of the numbers from lo to hi.
pub fn out_of_range(x: usize, lo: usize, hi: usize) -> bool
    ensures { result ≡ out_of_range lo hi x }
{
    !(lo..=hi).contains(&x)
}

// Whether byte i is not zero.
pub fn set_at(b: &[u8], i: usize) -> bool
    requires { i < length b.now }
    ensures { result ≡ set_at b.now i }
{
    b[i] != 0
}

// Whether a byte from a on and below e is not zero. It looks at all of them, so that the compiler takes many at once.
pub fn any_set(b: &[u8], a: usize, e: usize) -> bool
    requires { (a ≤ e) × (e ≤ length b.now) }
    ensures { Finds (set_at b.now) a e result }
{
    let mut x: u8 = 0;
    for i in a..e {
        x |= b[i];
    }
    x != 0
}

// The first byte from a on and below e that is not zero: looked for only where there is one.
pub fn first_set(b: &[u8], a: usize, e: usize) -> Option<usize>
    requires { (a ≤ e) × (e ≤ length b.now) }
    ensures { FirstOf (set_at b.now) a e result }
{
    if any_set(b, a, e) {
        (a..e).find(|i| set_at(b, *i))
    } else {
        None
    }
}
