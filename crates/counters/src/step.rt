// The two ways on from a word's first row to another of its rows. A walk that is generic in the way has no test for a block's end where none is needed.
ghost use Rattle.std.specs.Prelude.{◌≡◌, ◌+◌, ◌*◌, ◌^◌, ◌<◌, ℕ};
ghost use Rattle.counters.specs.Counters.{cell_place};
ghost use Rattle.counters.specs.declared.counter.Counters.{Counters};
ghost use Rattle.counters.specs.Steps.{any_block, same_block};

use crate::counter::*;

// A way i rows on from p, in the same word.
pub trait Step {
    // The rows to which it may go on.
    ghost may: { Counters → ℕ → Type 0 };

    fn on(p: Counters, i: usize) -> Counters
        requires { may p i × (p.bit + i < 64) × (cell_place p.begin (64 * p.word + p.bit + i) 0 < 2 ^ 64) }
        ensures { (result.begin ≡ p.begin) × (result.word ≡ p.word) × (result.bit ≡ p.bit + i) };
}

// In the same block.
pub struct Near;

// In the same block or in the next.
pub struct Far;

impl Step for Near {
    ghost may = { same_block };

    fn on(p: Counters, i: usize) -> Counters {
        p.at_near(i)
    }
}

impl Step for Far {
    ghost may = { any_block };

    fn on(p: Counters, i: usize) -> Counters {
        p.at_bit(i)
    }
}
