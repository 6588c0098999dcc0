// The run of a list: any bytes as book and orders, any answer space.
ghost use Rattle.std.specs.Prelude.{◌≡◌, ◌/◌, length};
ghost use Rattle.runs.specs.Results.{RightInput, run_number, run_refusal_number, run_result, run_space, wrong_list};
ghost use Rattle.runs.specs.Runs.{RanTo};
ghost use Rattle.runs.specs.declared.run.RunRefusal.TheVariants as refusal;

use book::{Book, Refusal};
use engine::layout::*;
use sessions::orders::{Order, read};
use sessions::session::*;
use shown::*;

// Why a run is refused: as its book is, for its list, or for a space shorter than as many bytes.
#[derive(Clone, Copy, Debug, PartialEq, Eq)]
pub enum RunRefusal {
    Book(Refusal),
    List,
    Space(u16),
}

impl From<Refusal> for RunRefusal {
    ghost from_gives = { λ r s. s ≡ refusal.Book r };

    fn from(refusal: Refusal) -> RunRefusal {
        RunRefusal::Book(refusal)
    }
}

impl RunRefusal {
    // Refusal and place as the one number that the call returns.
    pub fn number(self) -> u64
        ensures { result ≡ run_refusal_number self }
    {
        match self {
            RunRefusal::Book(refusal) => refusal.number(),
            RunRefusal::List => 10 * 65536,
            RunRefusal::Space(needed) => 11 * 65536 + u64::from(needed),
        }
    }
}

// What is left when every order has been run: how many were accepted, and the session.
#[derive(Clone, Copy)]
pub struct Ran {
    pub accepted: u64,
    pub session: Session,
}

// Every order run in turn, from the opening, and answered. A narrow, a mark and a back take the session and give it back; any other order, and a
// refused one, leaves it alone.
pub fn run_orders(book: &Book<'_>, orders: &[u8], answers: &mut [u8]) -> Ran
    requires { RightInput book.now.bytes.now orders.now (length answers.old) }
    ensures { RanTo book.now.bytes.now orders.now answers.old (length orders.now / 8) result.session result.accepted answers.new }
{
    let layout = lay_out(book);
    let mut session = open(&layout);
    // The state is copied before it is lent: lent from within the session, that would be copied whole at each order.
    let state = session.now;
    let mut told = show_opening(answers, &layout.sheets, &state);
    let mut accepted: u64 = 0;
    let (orders, _) = orders.as_chunks::<8>();
    for (i, bytes) in orders.iter().enumerate() {
        let order = read(book, session.depth, bytes);
        if let Ok(order) = order {
            accepted += 1;
            match order {
                Order::Narrow { column, mask } => session = session.narrow(&layout, column, mask),
                Order::Mark => session = session.mark(),
                Order::Back { mark } => session = session.back(mark),
                Order::Finish { .. } => {}
            }
        }
        let state = session.now;
        told = show_order(answers, i + 1, &layout, order, session.depth, told, &state);
    }
    Ran { accepted, session }
}

// Whether the bytes are no list of at most 256 orders.
fn wrong_list(orders: &[u8]) -> bool
    ensures { result ≡ wrong_list orders.now }
{
    2048 < orders.len() || orders.len() % 8 != 0
}

// The number of orders that are accepted, and the answers, or why the run is refused.
pub fn run(book: &[u8], orders: &[u8], answers: &mut [u8]) -> Result<u64, RunRefusal>
    ensures { (run_number result ≡ run_result book.now orders.now (length answers.old)) × (answers.new ≡ run_space book.now orders.now answers.old) }
{
    let book = book::check(book)?;
    if wrong_list(orders) {
        return Err(RunRefusal::List);
    }
    let needed = 72 * (orders.len() / 8 + 1);
    if answers.len() < needed {
        return Err(RunRefusal::Space(needed as u16));
    }
    let ran = run_orders(&book, orders, answers);
    Ok(ran.accepted)
}
