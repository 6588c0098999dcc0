// lines: the text of a run, put into a buffer. No input or output belongs to this crate: a program hands it the run's number and the answers, and
// writes the buffer out. The kit's crate itoa gives the figures of a number.
//
// Promise: `print` puts `printed` (specs/Texts.antt) at the front of the buffer: the paper's line for each answer and its last line, or the one
// line of a refused run.
#![tactic(auto)]

ghost use Rattle.std.specs.Prelude.{◌≡◌, [], ◌∷◌, ◌++◌, ◌+◌, ◌*◌, ◌≤◌, length, take};
ghost use Rattle.lines.specs.Texts.{accepted_line, answer_head, answer_line, answer_lines, domain_fields, printed, refused_line};
ghost use Rattle.lines.specs.Written.{HasRoom, Written};

use fields::word_at;
use itoa::{Buffer, Integer};

// A text that is being put into a buffer: its next byte goes to place `at`.
#[derive(Drop)]
struct Text<'a> {
    out: &'a mut [u8],
    at: usize,
}

impl Text<'_> {
    fn put_byte(&mut self, x: u8)
        requires { HasRoom 1 self.old }
        ensures { Written 1 self.old self.new (x ∷ []) }
    {
        self.out[self.at] = x;
        self.at += 1;
    }

    fn put(&mut self, bytes: &[u8])
        requires { HasRoom (length bytes.now) self.old }
        ensures { Written (length bytes.now) self.old self.new bytes.now }
    {
        let end = self.at + bytes.len();
        self.out[self.at..end].copy_from_slice(bytes);
        self.at = end;
    }

    fn put_number<I: Integer>(&mut self, x: I)
        requires { HasRoom I.MAX_STR_LEN self.old }
        ensures { Written I.MAX_STR_LEN self.old self.new (I.text x) }
    {
        self.put(Buffer::new().format(x).as_bytes());
    }

    // A space and a number.
    fn put_field<I: Integer>(&mut self, x: I)
        requires { HasRoom (I.MAX_STR_LEN + 1) self.old }
        ensures { Written (1 + I.MAX_STR_LEN) self.old self.new (32 ∷ I.text x) }
    {
        self.put_byte(b' ');
        self.put_number(x);
    }

    // The domains of an answer, from its byte 8 on.
    fn put_domains(&mut self, answer: &[u8], columns: usize)
        requires { (columns ≤ 16) × (length answer.now ≡ 72) × HasRoom 192 self.old }
        ensures { Written (11 * columns) self.old self.new (domain_fields answer.now columns) }
    {
        for c in 0..columns {
            self.put_field(word_at(answer, 8 + 4 * c));
        }
    }

    // The line of answer i up to its domains.
    fn put_head(&mut self, answer: &[u8], i: usize)
        requires { (length answer.now ≡ 72) × HasRoom 64 self.old }
        ensures { Written 40 self.old self.new (answer_head i answer.now) }
    {
        self.put_number(i);
        self.put_field(answer[0]);
        self.put_field(answer[1]);
        self.put_field(answer[2]);
        self.put_field(answer[4]);
        self.put_field(answer[3]);
    }

    // The line of answer i: at most 40 bytes before the domains, 11 for each of sixteen domains, and the newline.
    fn put_line(&mut self, answer: &[u8], i: usize, columns: usize)
        requires { (columns ≤ 16) × (length answer.now ≡ 72) × HasRoom 256 self.old }
        ensures { Written 217 self.old self.new (answer_line columns i answer.now) }
    {
        self.put_head(answer, i);
        self.put_domains(answer, columns);
        self.put_byte(b'\n');
    }

    // The lines of answers 0 to n.
    fn put_lines(&mut self, answers: &[u8], n: usize, columns: usize)
        requires { (columns ≤ 16) × (n ≤ 256) × (72 * n + 72 ≤ length answers.now) × HasRoom 65536 self.old }
        ensures { Written (217 * (n + 1)) self.old self.new (answer_lines columns answers.now (n + 1)) }
    {
        for i in 0..n + 1 {
            self.put_line(&answers[72 * i..72 * i + 72], i, columns);
        }
    }

    fn put_accepted(&mut self, count: u64)
        requires { HasRoom 64 self.old }
        ensures { Written 30 self.old self.new (accepted_line count) }
    {
        self.put(b"accepted");
        self.put_field(count);
        self.put_byte(b'\n');
    }

    fn put_refused(&mut self, number: u64)
        requires { HasRoom 64 self.old }
        ensures { Written 50 self.old self.new (refused_line number) }
    {
        self.put(b"refused");
        self.put_field(number / 65536);
        self.put_field(number % 65536);
        self.put_byte(b'\n');
    }

    // The text of a run that returned `number`, on a book of so many columns, with n orders.
    fn put_run(&mut self, number: u64, columns: usize, n: usize, answers: &[u8])
        requires { (columns ≤ 16) × (n ≤ 256) × (72 * n + 72 ≤ length answers.now) × HasRoom 65536 self.old }
        ensures { Written 65536 self.old self.new (printed number columns n answers.now) }
    {
        if 65536 <= number {
            self.put_refused(number);
            return;
        }
        self.put_lines(answers, n, columns);
        self.put_accepted(number);
    }
}

// Puts the text of a run at the start of the buffer, and returns how many bytes it has.
pub fn print(number: u64, columns: usize, n: usize, answers: &[u8], out: &mut [u8]) -> usize
    requires { (columns ≤ 16) × (n ≤ 256) × (72 * n + 72 ≤ length answers.now) × (65536 ≤ length out.old) }
    ensures { (take result out.new ≡ printed number columns n answers.now) × (result ≤ length out.new) × (length out.new ≡ length out.old) }
{
    let mut text = Text { out, at: 0 };
    text.put_run(number, columns, n, answers);
    text.at
}
