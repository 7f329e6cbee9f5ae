// Program `hits`: reads a pattern and a text as two lines of characters 0 and 1, and prints a line for each of the five
// methods. `report` is equated with what is printed for each input; `run` reads, calls it and writes, whatever reads and
// writes; `main` gives it the standard streams.
#![tactic(auto)]

mod report;

ghost use Rattle.std.specs.Prelude.{◌≡◌, ◌≤◌, OnOk, IfOk, IfSome, length, take};
ghost use Rattle.std.specs.Io.KnownBytes.{Appends};
ghost use Rattle.hits.specs.Printed.{printed};

use report::Page;
use std::io;
use std::io::{Read, Write};

// One byte more than the longest good input: longer input fills the buffer, and is bad.
const INPUT: usize = 6147;

// What fails but the search itself.
#[derive(Drop)]
enum Failure {
    Reading(io::Error),
    Writing(io::Error),
}

// Reads until the buffer is full or the input ends, and tells how many bytes there are.
fn read_front<R: Read>(input: &mut R, buf: &mut [u8]) -> io::Result<usize>
    ensures within { IfOk result (λ n. n ≤ length buf.new) }
    ensures front { IfOk result (λ n. IfSome (R.remaining input.old) (λ s. take n buf.new ≡ take (length buf.new) s)) }
{
    let mut at = 0;
    // A read gives as many bytes as it likes, and `read_to_end` needs the heap.
    while at < buf.len() {
        let n = input.read(&mut buf[at..])?;
        if n == 0 {
            return Ok(at);
        }
        at += n;
    }
    Ok(at)
}

// Reads the input and writes what is printed for it.
fn run<R: Read, W: Write>(input: &mut R, out: &mut W) -> Result<(), Failure>
    ensures { OnOk result (IfSome (R.remaining input.old) (λ s. Appends (W.contents out.old) (W.contents out.new) (printed s))) }
{
    let mut bytes = [0u8; INPUT];
    let n = read_front(input, &mut bytes).map_err(Failure::Reading)?;
    let mut page = Page::new();
    report::report(&bytes[..n], &mut page);
    out.write_all(page.as_slice()).map_err(Failure::Writing)
}

// The text of an error, without its number.
fn reason(text: &str) -> &str {
    text.split_once(" (os error")
        .map_or(text, |(front, _)| front)
}

// Says on standard error that the output cannot be written, and why.
fn cannot_write(rt: &(impl Eprint + Alloc), error: &io::Error) -> io::Result<()> {
    let text = format!(in rt.alloc(); "{error}")?;
    eprintln!(rt; "hits: cannot write: {}", reason(&text))
}

fn main(rt: HostRuntime) -> io::Result<()> {
    match run(&mut rt.reader(), &mut io::writer(&rt)) {
        Ok(()) => Ok(()),
        Err(Failure::Reading(error)) => Err(error),
        Err(Failure::Writing(error)) => {
            let _ = cannot_write(&rt, &error);
            Ok(())
        }
    }
}
