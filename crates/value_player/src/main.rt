//! The program `value_player`: makes the calls of `cdr_core` that the lines of its input ask for, on octets and values
//! that stand there, and prints what each gives.
//!
//! tests/readings.py runs it on the rows of tests/readings, tests/bounded_allocations.py on hostile octets.
#![tactic(auto)]

mod calls;
mod judging;
mod reading;
mod values;
mod writing;

use calls::OfValues;
use std::process::ExitCode;
use trials::play_lines;

fn main(rt: HostRuntime) -> ExitCode {
    let usage = "value_player <LINES";
    let (mut input, mut out, mut err) = (rt.stdin(), rt.stdout(), rt.stderr());
    let status = play_lines(rt.alloc(), &OfValues, usage, &mut input, &mut out, &mut err);
    ExitCode::from(status)
}
