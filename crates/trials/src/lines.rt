//! The lines of an input, each of which asks for a call.
//!
//! A line is the name of a call and what the call takes, with one space between words. For each line one is
//! printed: what the call gives, or why it gives nothing.

ghost use Rattle.std.specs.Prelude.{◌≤◌};

use crate::input::parted;
use crate::stop::{Stop, status_of};
use std::alloc::Global;
use std::io::{BufRead, BufReader, BufWriter, Read, Write};

/// The calls of a program.
pub trait Calls {
    /// Makes the call of that name on what it takes, and prints what it gives.
    fn make<W: Write>(
        &self,
        alloc: Global,
        call: &str,
        words: &str,
        out: &mut W,
    ) -> Result<(), Stop>;
}

/// Makes the call that a line asks for, and prints what it gives.
fn answer<C: Calls, W: Write>(
    alloc: Global,
    calls: &C,
    line: &str,
    out: &mut W,
) -> Result<(), Stop> {
    let (call, words) = parted(line)?;
    calls.make(alloc, call, words, out)
}

/// Makes the call that each line of an input asks for, and prints what it gives, one line for each.
fn answer_lines<C: Calls, R: Read, W: Write>(
    alloc: Global,
    calls: &C,
    input: &mut R,
    out: &mut W,
) -> Result<(), Stop> {
    let mut out = BufWriter::new(alloc, out)?;
    for line in BufReader::new(alloc, input)?.lines(alloc) {
        answer(alloc, calls, &line?, &mut out)?;
    }
    out.flush()?;
    Ok(())
}

/// Answers the lines of an input, and returns the exit status: 0; or 1 where a line asks for no call, memory ran
/// out, the input can't be read or the output can't be written. The reason goes to `err`.
pub fn play_lines<C: Calls, R: Read, W: Write, E: Write>(
    alloc: Global,
    calls: &C,
    usage: &str,
    input: &mut R,
    out: &mut W,
    err: &mut E,
) -> u8
    ensures { result ≤ 2 }
{
    status_of(answer_lines(alloc, calls, input, out), usage, err)
}
