//! The program over a reader and two writers.

use crate::lines::play_lines;
use std::alloc::Global;
use std::hash::RandomState;
use std::io::{Read, Write};
use trials::status_of;

/// Plays the schedules of an input, and returns the exit status: 0; or 1 where a line is none, memory ran out outside
/// of a play, the input can't be read or the output can't be written. The reason goes to `err`.
pub(crate) fn run<R: Read, W: Write, E: Write>(
    alloc: Global,
    hasher: RandomState,
    input: &mut R,
    out: &mut W,
    err: &mut E,
) -> u8 {
    let usage = "schedule_player <LINES";
    status_of(play_lines(alloc, hasher, input, out), usage, err)
}
