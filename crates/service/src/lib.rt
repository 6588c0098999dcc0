// service: the calls that a customer's program makes.
//
// Promise: each contract gives the number returned and all that is written as equations with the definitions, for bytes of every length.
// In a contract `result` is the number returned, `x.old` the bytes of x when the call begins, `x.new` those when it ends, and `x.now` those of an
// x that is only read. Nothing is asked of the bytes. The crate service_c exports both calls to C, under the same names and clauses.
//
//   fitting_check    checks a book: refusal × 65,536 + place, or C × 16 + S
//   fitting_run      runs a list of orders over a book: refusal × 65,536 + place, or the number of accepted orders; the answers, 72 bytes
//                    each, in front of the answer space
#![tactic(auto)]

ghost use Rattle.std.specs.Prelude.{◌≡◌, length};
ghost use Rattle.book.specs.Verdicts.{check_result};
ghost use Rattle.runs.specs.Results.{run_result, run_space};

pub fn fitting_check(book: &[u8]) -> u64
    ensures { result ≡ check_result book.now }
{
    match book::check(book) {
        Ok(book) => book.number(),
        Err(refused) => refused.number(),
    }
}

pub fn fitting_run(book: &[u8], orders: &[u8], answers: &mut [u8]) -> u64
    ensures value { result ≡ run_result book.now orders.now (length answers.old) }
    ensures answers_after { answers.new ≡ run_space book.now orders.now answers.old }
{
    match runs::run::run(book, orders, answers) {
        Ok(accepted) => accepted,
        Err(refusal) => refusal.number(),
    }
}
