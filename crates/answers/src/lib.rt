// answers: an answer as its 72 bytes, and its place in the answer space. What the answer says is not decided here.
//
// Promise: `write` ensures an equation for the whole space: the 72 bytes of answer i stand in their part, and every other byte is as it was. The
// layout is drawn in the model's specs/Answers.antt.
//
//     0          72         144             72 i       72 i + 72
//     | answer 0 | answer 1 | ..            | answer i | untouched
#![tactic(auto)]

ghost use Rattle.std.specs.Prelude.{◌≡◌, ◌∷◌, ◌*◌, ◌+◌, ◌≤◌, length};
ghost use Rattle.fields.specs.Bytes.{half_bytes, over};
ghost use Rattle.model.specs.Answers.{answer_bytes, domain_bytes};
ghost use Rattle.answers.specs.Answers.{answer_in};

use fields::{put_half, put_word};

// The fields of the model's `Answer`.
#[derive(Clone, Copy)]
pub struct Answer {
    pub refused: u8,
    pub status: u8,
    pub depth: u8,
    pub outcome: u8,
    pub done: u8,
    pub tries: u32,
    pub shown: [u32; 16],
}

// The sixteen masks, from byte 8 on.
fn put_domains(out: &mut [u8], shown: &[u32; 16])
    requires { length out.old ≡ 72 }
    ensures { out.new ≡ over out.old 8 (domain_bytes shown.now 16) }
{
    for (c, mask) in shown.iter().enumerate() {
        put_word(out, 8 + 4 * c, *mask);
    }
}

// The eight bytes before them.
fn put_head(out: &mut [u8], a: Answer)
    requires { length out.old ≡ 72 }
    ensures { out.new ≡ over out.old 0 (a.refused ∷ a.status ∷ a.depth ∷ a.outcome ∷ a.done ∷ 0 ∷ half_bytes a.tries) }
{
    out[0] = a.refused;
    out[1] = a.status;
    out[2] = a.depth;
    out[3] = a.outcome;
    out[4] = a.done;
    out[5] = 0;
    put_half(out, 6, a.tries);
}

// A whole answer.
fn put_answer(out: &mut [u8], a: Answer)
    requires { length out.old ≡ 72 }
    ensures { out.new ≡ answer_bytes (answer_in a) }
{
    put_head(out, a);
    put_domains(out, &a.shown);
}

// Answer i of the space: its 72 bytes are lent to the writer. "A list has 0 to 256 orders", and answer 0 is the opening.
pub fn write(answers: &mut [u8], i: usize, a: Answer)
    requires { (i ≤ 256) × (72 * i + 72 ≤ length answers.old) }
    ensures { answers.new ≡ over answers.old (72 * i) (answer_bytes (answer_in a)) }
{
    let from = 72 * i;
    let to = from + 72;
    put_answer(&mut answers[from..to], a);
}
