// The first wrong block of a sheet, and the first wrong byte of a block.
ghost use Rattle.std.specs.Prelude.{◌≡◌, ◌*◌, ◌<◌, ◌≤◌};
ghost use Rattle.model.specs.Tests.{FirstOf, Finds};
ghost use Rattle.heads.specs.Heads.{sheets_of, RightHead};
ghost use Rattle.rows.specs.Rows.{blocks_of, wrong_block};
ghost use Rattle.rows.specs.Bounds.{over_block, wrong_in};

use crate::sheet::SheetBlocks;
use heads::block::Block;
use heads::limit::*;
use rows::row::*;

// ---- the first wrong block

// Whether a block has a byte that is wrong by these bounds; its first n rows are used. Unused rows are zero, and so below every bound.
fn any_wrong(b: &Block<'_>, m: Bounds, n: usize) -> bool
    requires { n ≤ 127 }
    ensures { Finds (wrong_in m.w m.x m.y m.z m.k b.now.bytes.now (4 * n)) 0 508 result }
{
    any_set(b.bytes, 4 * n, 508) || any_over(b, m)
}

// Whether block q of a sheet has a byte that is wrong by these bounds.
#[tactic(auto, using(rows::proofs::Bounds::block_over))]
fn over_block(sheet: &SheetBlocks<'_>, m: Bounds, q: usize) -> bool
    requires { q < blocks_of sheet.now.book.now sheet.now.number }
    ensures { result ≡ over_block sheet.now.book.now sheet.now.number m.w m.x m.y m.z m.k q }
{
    any_wrong(&sheet.block(q), m, used_rows(sheet.rows(), q))
}

// The first block of a sheet that has one, counted from its first. Put into each of its two places: the first look is without the turning then.
#[inline(always)]
pub(crate) fn first_over(sheet: &SheetBlocks<'_>, m: Bounds) -> Option<usize>
    ensures { FirstOf (over_block sheet.now.book.now sheet.now.number m.w m.x m.y m.z m.k) 0 (blocks_of sheet.now.book.now sheet.now.number) result }
{
    (0..blocks_of(&sheet.head(), sheet.number)).find(|q| over_block(sheet, m, *q))
}

// The first wrong block of a sheet, counted from its first. One without rows needs no bounds.
pub fn first_in_sheet(sheet: &SheetBlocks<'_>) -> Option<usize>
    requires { RightHead sheet.now.book.now × (sheet.now.number < sheets_of sheet.now.book.now) }
    ensures { FirstOf (wrong_block sheet.now.book.now sheet.now.number) 0 (blocks_of sheet.now.book.now sheet.now.number) result }
{
    if sheet.rows() == 0 {
        return None;
    }
    first_over(sheet, bounds_of(&sheet.head(), sheet.number))
}

// ---- the first wrong byte of a block

// Whether byte i of a block is wrong; its first n rows are used.
#[tactic(auto, using(rows::proofs::Bounds::in_used, rows::proofs::Bounds::past_used))]
fn wrong_in(b: &Block<'_>, m: Bounds, n: usize, i: usize) -> bool
    requires { (n ≤ 127) × (i < 508) }
    ensures { result ≡ wrong_in m.w m.x m.y m.z m.k b.now.bytes.now (4 * n) i }
{
    if i < 4 * n {
        m.over_bound(i % 4, b.bytes[i])
    } else {
        set_at(b.bytes, i)
    }
}

// The first wrong byte of a block. Used rows are passed over as long as none of their bytes is wrong.
pub fn seek_wrong(b: &Block<'_>, m: Bounds, n: usize) -> Option<usize>
    requires { n ≤ 127 }
    ensures { FirstOf (wrong_in m.w m.x m.y m.z m.k b.now.bytes.now (4 * n)) 0 508 result }
{
    (4 * rows_under(b, m, n)..508).find(|i| wrong_in(b, m, n, *i))
}
