// service_c: the calls of service for programs in C, as a static library. host/fitting/include/fitting.h declares them.
//
// Promise: each export has the clauses of the call of service that it makes. Nothing is asked of the bytes; a caller in C hands over, for each
// slice, a pointer and a length: `len` bytes that can be read, and for the answers also written.
#![tactic(auto)]

ghost use Rattle.std.specs.Prelude.{◌≡◌, length};
ghost use Rattle.book.specs.Verdicts.{check_result};
ghost use Rattle.runs.specs.Results.{run_result, run_space};

#[unsafe(no_mangle)]
pub extern "C" fn fitting_check(book: &[u8]) -> u64
    ensures { result ≡ check_result book.now }
{
    service::fitting_check(book)
}

#[unsafe(no_mangle)]
pub extern "C" fn fitting_run(book: &[u8], orders: &[u8], answers: &mut [u8]) -> u64
    ensures value { result ≡ run_result book.now orders.now (length answers.old) }
    ensures answers_after { answers.new ≡ run_space book.now orders.now answers.old }
{
    service::fitting_run(book, orders, answers)
}
