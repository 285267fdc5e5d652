//! Schedules in the lines of an input.
//!
//! A schedule begins with the line `server MESSAGE PARTIALS CAPACITY SHARE TOTAL`: the limits of the server's
//! connections, how many outcomes it keeps, in all and of each client, and the counter's total. Each line
//! `client ID VERSION MESSAGE PARTIALS` adds a client, and each of these a step; K is the place of a client, counted
//! from 0, and NOW a moment. The line `end` ends the schedule.
//!
//! - `call K NOW KEY OPERATION EXPIRATION` and `call K NOW KEY OPERATION EXPIRATION LONG`
//! - `recall K NUMBER NOW KEY OPERATION EXPIRATION`, or with `LONG`, and `skip K NUMBER`
//! - `connect K NOW`, `resend K NOW`, `cut K`, `shut K`
//! - `up K COUNT NOW`, `down K COUNT`
//! - `cancel K ID`, `tick K NOW`
//! - `keep K 1`, `keep K 0`: whether TRANSIENT leaves calls pending
//! - `forwards K 1`, `forwards K 0`: whether a forward does
//! - `redirect K ID KEY`: a call that is led elsewhere is asked for under another object key
//!
//! The counter's key is `c`, and each call under the key `f` is forwarded. There is one space between words, numbers are
//! in decimal digits, and KEY and OPERATION are the octets of the word.

ghost use Rattle.std.specs.Prelude.{OnOk};
ghost use Rattle.std.specs.List.{AllByRecursion};
ghost use Rattle.ft_ends.specs.Playing.{IsCallable};

use crate::playing::{play, print_played};
use crate::schedule::{Schedule, Terms};
use std::alloc::Global;
use std::hash::RandomState;
use std::io::{BufRead, BufReader, BufWriter, Read, Write};
use trials::Stop;

/// Plays a schedule that was read, prints what comes of it, and leaves it without lines.
fn play_out<W: Write>(
    alloc: Global,
    hasher: RandomState,
    terms: Terms,
    schedule: &mut Schedule,
    out: &mut W,
) -> Result<(), Stop>
    requires { AllByRecursion IsCallable schedule.old.steps.items }
    ensures { OnOk result (AllByRecursion IsCallable schedule.new.steps.items) }
{
    let played = play(alloc, hasher, terms, &mut schedule.clients, &schedule.steps)?;
    schedule.clear();
    Ok(print_played(&played, out)?)
}

/// Takes a line: the schedule that is being read begins, is extended, or ends and is played.
fn take_line<W: Write>(
    alloc: Global,
    hasher: RandomState,
    line: &str,
    reading: &mut Schedule,
    out: &mut W,
) -> Result<(), Stop>
    requires { AllByRecursion IsCallable reading.old.steps.items }
    ensures { OnOk result (AllByRecursion IsCallable reading.new.steps.items) }
{
    match reading.take_line(alloc, line)? {
        None => Ok(()),
        Some(terms) => play_out(alloc, hasher, terms, reading, out),
    }
}

/// Takes the lines of an input.
fn take_lines<B: BufRead + Drop, W: Write>(
    alloc: Global,
    hasher: RandomState,
    input: B,
    reading: &mut Schedule,
    out: &mut W,
) -> Result<(), Stop>
    requires { AllByRecursion IsCallable reading.old.steps.items }
{
    for line in input.lines(alloc) {
        take_line(alloc, hasher, &line?, reading, out)?;
    }
    Ok(())
}

/// Takes the lines that a reader gives, and returns whether the last schedule has ended.
fn take_all<R: Read, W: Write>(
    alloc: Global,
    hasher: RandomState,
    input: &mut R,
    out: &mut W,
) -> Result<bool, Stop> {
    let input = BufReader::new(alloc, input)?;
    let mut reading = Schedule::new(alloc);
    take_lines(alloc, hasher, input, &mut reading, out)?;
    Ok(reading.terms.is_none())
}

/// Plays the schedules of an input, and prints what completes.
pub(crate) fn play_lines<R: Read, W: Write>(
    alloc: Global,
    hasher: RandomState,
    input: &mut R,
    out: &mut W,
) -> Result<(), Stop> {
    let mut out = BufWriter::new(alloc, out)?;
    let has_ended = take_all(alloc, hasher, input, &mut out)?;
    out.flush()?;
    if has_ended {
        Ok(())
    } else {
        Err(Stop::BadLine)
    }
}
