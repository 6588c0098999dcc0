// An accepted book.
ghost use Rattle.std.specs.Prelude.{◌≡◌};
ghost use Rattle.book.specs.Verdicts.{Accepted, check_result};

use heads::head::Head;

// The bytes of a book that the check accepted: whoever has one has the proof of it.
#[derive(Clone, Copy)]
pub struct Book<'a> {
    pub bytes: &'a [u8],
    ghost accepted: { Accepted bytes.now },
}

impl<'a> Book<'a> {
    // Its head.
    #[tactic(auto, using(crate::proofs::Verdicts::later_length, rows::proofs::Rows::head_there))]
    pub fn head(&self) -> Head<'a>
        ensures { result.bytes.now ≡ self.now.bytes.now }
    {
        Head::of(self.bytes)
    }

    // The accepted figure, C × 16 + S.
    #[tactic(auto, using(crate::proofs::Decoding::accepted_figure))]
    pub fn number(&self) -> u64
        ensures { result ≡ check_result self.now.bytes.now }
    {
        let head = self.head();
        (head.columns() * 16 + head.sheets()) as u64
    }
}
