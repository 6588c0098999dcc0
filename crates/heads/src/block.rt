// The blocks of a book and their checks.
//
//     block n:  0 … 507              508 … 511
//               127 words of u32     their wrapping sum + n + 1
ghost use Rattle.std.specs.Prelude.{◌≡◌, ◌+◌, ◌*◌, ◌%◌, ◌^◌, ◌<◌, ◌≤◌, length};
ghost use Rattle.model.specs.Tests.{sum, FirstOf};
ghost use Rattle.fields.specs.Bytes.{word_at};
ghost use Rattle.heads.specs.Blocks.{block_at, word, wrong_check, wrong_length};

use crate::limit::*;
use fields::word_at;

// Whether the length is no book's.
#[tactic(auto, unfolding(crate::specs::Blocks::wrong_length))]
pub fn wrong_length(book: &[u8]) -> bool
    ensures { result ≡ wrong_length book.now }
{
    let len = book.len();
    len % 512 != 0 || out_of_range(len, 512, 16896)
}

// A block of a book.
#[derive(Clone, Copy)]
pub struct Block<'a> {
    pub bytes: &'a [u8],
    ghost whole: { length bytes.now ≡ 512 },
}

impl<'a> Block<'a> {
    // Block n of a book that has it.
    pub fn of(book: &'a [u8], n: usize) -> Block<'a>
        requires { 512 * n + 512 ≤ length book.now }
        ensures { result.bytes.now ≡ block_at book.now n }
    {
        let a = 512 * n;
        Block {
            bytes: &book[a..a + 512],
        }
    }

    // The sum of the 128 words, the check among them, without the carries past 32 bits. 128 words leave the compiler none over.
    fn full_sum(&self) -> u32
        ensures { result ≡ sum 128 (word self.now.bytes.now) % 2 ^ 32 }
    {
        let mut total: u32 = 0;
        for i in 0..128 {
            total = total.wrapping_add(word_at(self.bytes, 4 * i));
        }
        total
    }
}

// Whether the check of block n is wrong. The full sum has the check in it, so it is added on the other side too.
fn wrong_check(book: &[u8], n: usize) -> bool
    requires { (n < 65536) × (512 * n + 512 ≤ length book.now) }
    ensures { result ≡ wrong_check book.now n }
{
    let b = Block::of(book, n);
    let check = word_at(b.bytes, 508);
    check.wrapping_add(check) != b.full_sum().wrapping_add(n as u32 + 1)
}

// The first block whose check is wrong.
pub fn first_wrong_check(book: &[u8], blocks: usize) -> Option<usize>
    requires { (blocks < 65536) × (512 * blocks ≤ length book.now) }
    ensures { FirstOf (wrong_check book.now) 0 blocks result }
{
    (0..blocks).find(|n| wrong_check(book, *n))
}
