// fit: the program. Reads book.bin and a list of orders from standard input, runs the list over the book, and prints the answers.
//
// Promise: `put_run` puts `run_text` (specs/Prints.antt) of the bytes read, for any book and orders. The rest reads and writes by std, of which no
// contract says what bytes come in or go out.
#![tactic(auto)]

ghost use Rattle.std.specs.Prelude.{◌≡◌, ◌≤◌, length, take};
ghost use Rattle.fit.specs.Prints.{columns_shown, run_text};

use std::io::Read;
use std::rt::Files;
use std::{fs, io};

// How many domains each line shows.
#[tactic(auto, using(crate::proofs::Prints::shown_short, crate::proofs::Prints::shown_none, crate::proofs::Prints::shown_all))]
fn columns(book: &[u8]) -> usize
    ensures { (result ≡ columns_shown book.now) × (result ≤ 16) }
{
    match book.get(4) {
        Some(&c) if c <= 16 => usize::from(c),
        _ => 0,
    }
}

// Runs the list, and puts the text of the run at the start of `out`. The opening and 256 orders have 257 answers of 72 bytes, 18,504 in all.
fn put_run(book: &[u8], orders: &[u8], answers: &mut [u8], out: &mut [u8]) -> usize
    requires { (length orders.now ≤ 2049) × (18504 ≤ length answers.old) × (65536 ≤ length out.old) }
    ensures { (take result out.new ≡ run_text book.now orders.now answers.old) × (result ≤ length out.new) }
{
    let number = service::fitting_run(book, orders, answers);
    lines::print(number, columns(book), orders.len() / 8, answers, out)
}

// Runs the list and writes the text out. An error is the write's, and leaves some of the text, or none, written.
fn run(rt: &impl Print, book: &[u8], orders: &[u8]) -> io::Result<()>
    requires { length orders.now ≤ 2049 }
{
    let mut answers = [0u8; 65536];
    let mut out = [0u8; 65536];
    let n = put_run(book, orders, &mut answers, &mut out);
    rt.write_all(&out[..n])
}

// Reads into the first `most` bytes of `space`, until they are full, the input ends or a read fails, and returns how many bytes came.
fn read_most(input: &mut impl Read, space: &mut [u8], most: usize) -> usize
    requires { most ≤ length space.old }
    ensures { result ≤ most }
{
    let mut done = 0;
    while done < most {
        match input.read(&mut space[done..most]) {
            Ok(n) if 0 < n => done += n,
            _ => break,
        }
    }
    done
}

// Reads the book, and returns its length; 0 where it cannot be opened. One byte more is read than the longest book has, so that a longer
// file is seen to be too long.
fn read_book(rt: &impl Files, space: &mut [u8]) -> usize
    requires { 16897 ≤ length space.old }
    ensures { result ≤ 16897 }
{
    match fs::open(rt, "book.bin") {
        Ok(mut file) => read_most(&mut file, space, 16897),
        Err(_) => 0,
    }
}

// Reads the book and the orders, and runs the list. Of the orders, too, one byte more is read than the longest list has.
fn main(rt: HostRuntime) -> io::Result<()> {
    let mut space = [0u8; 65536];
    let mut list = [0u8; 4096];
    let b = read_book(&rt, &mut space);
    let m = read_most(&mut rt.reader(), &mut list, 2049);
    run(&rt, &space[..b], &list[..m])
}
