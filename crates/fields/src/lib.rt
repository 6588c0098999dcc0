// fields: the bytes of a list, and the numbers that they make, the lowest byte first. Every format of the service stands on this crate.
//
// Promise: each function reads or writes what its definition says (specs/Bytes.antt), whatever the list.
#![tactic(auto)]

ghost use Rattle.std.specs.Prelude.{◌≡◌, ◌+◌, ◌<◌, ◌≤◌, length};
ghost use Rattle.fields.specs.Bytes.{half_at, half_bytes, over, word_at, word_bytes};

// ---- reading

// The number in bytes i and i + 1.
pub fn half_at(b: &[u8], i: usize) -> usize
    requires { i + 2 ≤ length b.now }
    ensures { (result ≡ half_at b.now i) × (result < 65536) }
{
    usize::from(u16::from_le_bytes([b[i], b[i + 1]]))
}

// The number in bytes i to i + 3.
pub fn word_at(b: &[u8], i: usize) -> u32
    requires { i + 4 ≤ length b.now }
    ensures { result ≡ word_at b.now i }
{
    u32::from_le_bytes([b[i], b[i + 1], b[i + 2], b[i + 3]])
}

// ---- writing: each size is one line of the library's, so a function of the size would be no plainer

// A number of 16 bits as two bytes, from byte i on.
pub fn put_half(out: &mut [u8], i: usize, n: u32)
    requires { i + 2 ≤ length out.old }
    ensures { out.new ≡ over out.old i (half_bytes n) }
{
    out[i..i + 2].copy_from_slice(&n.to_le_bytes()[..2]);
}

// A number of 32 bits as four bytes, from byte i on.
pub fn put_word(out: &mut [u8], i: usize, x: u32)
    requires { i + 4 ≤ length out.old }
    ensures { out.new ≡ over out.old i (word_bytes x) }
{
    out[i..i + 4].copy_from_slice(&x.to_le_bytes());
}
