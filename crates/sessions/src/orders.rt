// One order of 8 bytes: what it asks for, or why it is refused.
ghost use Rattle.std.specs.Prelude.{◌≡◌, ◌<◌, IfOk};
ghost use Rattle.model.specs.Orders.{back_causes, finish_causes, kind, mark_causes, mask, narrow_causes, outside, try_limit};
ghost use Rattle.book.specs.Decoding.{book_of};
ghost use Rattle.heads.specs.Heads.{columns_of};
ghost use Rattle.sessions.specs.Holds.{RefusesAt};
ghost use Rattle.sessions.specs.Readings.{order_is, refusal_with, refused_in, refused_number};

use book::Book;
use engine::state::places_below;
use heads::limit::any_set;

// Why an order is refused; answers show its number.
#[derive(Clone, Copy, Debug, PartialEq, Eq)]
pub enum Refused {
    Kind,
    Column,
    Mask,
    Marks,
    Back,
    Bytes,
    Limit,
}

impl From<Refused> for u8 {
    ghost from_gives = { λ r n. n ≡ refused_number r };

    fn from(refused: Refused) -> u8 {
        match refused {
            Refused::Kind => 20,
            Refused::Column => 21,
            Refused::Mask => 22,
            Refused::Marks => 23,
            Refused::Back => 24,
            Refused::Bytes => 25,
            Refused::Limit => 27,
        }
    }
}

// An order that is accepted.
#[derive(Clone, Copy, Debug, PartialEq, Eq)]
pub enum Order {
    Narrow { column: usize, mask: u32 },
    Mark,
    Back { mark: usize },
    Finish { limit: u32 },
}

// The mask of an order.
pub fn mask_of(order: &[u8; 8]) -> u32
    ensures { result ≡ mask order.now }
{
    fields::word_at(order, 4)
}

// The limit of a finish, in the bytes of a mask: the tries that it may make.
pub fn limit_of(order: &[u8; 8]) -> u32
    ensures { result ≡ try_limit order.now }
{
    match mask_of(order) {
        0 => 65535,
        n => n,
    }
}

// Whether m has a value at or above the V of column c.
fn outside_column(book: &Book<'_>, c: usize, m: u32) -> bool
    requires { c < columns_of book.now.bytes.now }
    ensures { result ≡ outside (book_of book.now.bytes.now) c m }
{
    m & !places_below(book.head().values(c)) != 0
}

// ---- an order of each kind: which of its bytes must be zero, and its own causes

fn read_narrow(book: &Book<'_>, order: &[u8; 8]) -> Result<Order, Refused>
    requires { kind order.now ≡ 1 }
    ensures refusal { refused_in result ≡ refusal_with order.now (narrow_causes (book_of book.now.bytes.now) order.now) }
    ensures order { IfOk result (order_is order.now) }
{
    if any_set(order, 2, 4) {
        return Err(Refused::Bytes);
    }
    let column = usize::from(order[1]);
    if book.head().columns() <= column {
        return Err(Refused::Column);
    }
    let mask = mask_of(order);
    if outside_column(book, column, mask) {
        return Err(Refused::Mask);
    }
    Ok(Order::Narrow { column, mask })
}

fn read_mark(depth: usize, order: &[u8; 8]) -> Result<Order, Refused>
    requires { kind order.now ≡ 2 }
    ensures refusal { refused_in result ≡ refusal_with order.now (mark_causes depth) }
    ensures order { IfOk result (order_is order.now) }
{
    if any_set(order, 1, 8) {
        return Err(Refused::Bytes);
    }
    if depth == 16 {
        return Err(Refused::Marks);
    }
    Ok(Order::Mark)
}

fn read_back(depth: usize, order: &[u8; 8]) -> Result<Order, Refused>
    requires { kind order.now ≡ 3 }
    ensures refusal { refused_in result ≡ refusal_with order.now (back_causes depth order.now) }
    ensures order { IfOk result (order_is order.now) }
{
    if any_set(order, 2, 8) {
        return Err(Refused::Bytes);
    }
    let mark = usize::from(order[1]);
    if mark == 0 || depth < mark {
        return Err(Refused::Back);
    }
    Ok(Order::Back { mark })
}

fn read_finish(order: &[u8; 8]) -> Result<Order, Refused>
    requires { kind order.now ≡ 4 }
    ensures refusal { refused_in result ≡ refusal_with order.now (finish_causes order.now) }
    ensures order { IfOk result (order_is order.now) }
{
    if any_set(order, 1, 4) {
        return Err(Refused::Bytes);
    }
    let limit = limit_of(order);
    if 65535 < limit {
        return Err(Refused::Limit);
    }
    Ok(Order::Finish { limit })
}

// What an order asks for, or why it is refused. Of the session its depth is enough.
pub fn read(book: &Book<'_>, depth: usize, order: &[u8; 8]) -> Result<Order, Refused>
    ensures refusal { RefusesAt book.now.bytes.now depth order.now (refused_in result) }
    ensures order { IfOk result (order_is order.now) }
{
    match order[0] {
        1 => read_narrow(book, order),
        2 => read_mark(depth, order),
        3 => read_back(depth, order),
        4 => read_finish(order),
        _ => Err(Refused::Kind),
    }
}
