// Why a book is refused, and where: the papers' refusals 1 to 7, each with its place.
ghost use Rattle.std.specs.Prelude.{◌≡◌, ◌<◌};
ghost use Rattle.book.specs.Refusals.{refusal_number};
ghost use Rattle.book.specs.Verdicts.{refused};

use std::error::Error;
use std::fmt;

// The verdicts that refuse (specs/Verdicts.antt; `verdict_of` of specs/Refusals.antt has each). A place is below 65,536, so that it fits the call's number.
#[derive(Clone, Copy, Debug, PartialEq, Eq)]
pub enum Refusal {
    Length,
    Check(u16),
    Field(u16),
    Blocks(u16),
    Value(u16),
    Filler(u16),
    Order(u16),
}

impl Refusal {
    // Refusal and place as the one number that a call returns.
    pub fn number(self) -> u64
        ensures { result ≡ refusal_number self }
    {
        match self {
            Refusal::Length => refused(1, 0),
            Refusal::Check(block) => refused(2, block),
            Refusal::Field(offset) => refused(3, offset),
            Refusal::Blocks(needed) => refused(4, needed),
            Refusal::Value(place) => refused(5, place),
            Refusal::Filler(place) => refused(6, place),
            Refusal::Order(place) => refused(7, place),
        }
    }
}

// Refusal n and its place as one number.
fn refused(n: u64, place: u16) -> u64
    requires { n < 65536 }
    ensures { result ≡ refused n place }
{
    n * 65536 + u64::from(place)
}

impl fmt::Display for Refusal {
    fn fmt<W: fmt::Write>(&self, f: &mut fmt::Formatter<W>) -> fmt::Result {
        match self {
            Refusal::Length => write!(f, "the length is no book's"),
            Refusal::Check(block) => write!(f, "block {block} has a wrong check"),
            Refusal::Field(offset) => write!(f, "byte {offset} of the head is wrong"),
            Refusal::Blocks(needed) => write!(f, "the book needs {needed} blocks"),
            Refusal::Value(place) => write!(
                f,
                "the row at place {place} has a value that is too large"
            ),
            Refusal::Filler(place) => write!(
                f,
                "the row at place {place} has filler that is not zero"
            ),
            Refusal::Order(place) => write!(
                f,
                "the row at place {place} is not above the one before it"
            ),
        }
    }
}

impl Error for Refusal {}
