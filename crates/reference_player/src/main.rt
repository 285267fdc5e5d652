//! The program `reference_player`: makes the calls of `ior_core`, `corbaloc` and `giop_core` that the lines of its
//! input ask for, on octets, texts and references that stand there, and prints what each gives.
//!
//! tests/readings.py runs it on the rows of tests/readings, tests/bounded_allocations.py on hostile octets.
#![tactic(auto)]

mod calls;
mod locations;
mod messages;
mod profiles;
mod references;
mod tagged;

use calls::OfReferences;
use std::process::ExitCode;
use trials::play_lines;

fn main(rt: HostRuntime) -> ExitCode {
    let usage = "reference_player <LINES";
    let (mut input, mut out, mut err) = (rt.stdin(), rt.stdout(), rt.stderr());
    let status = play_lines(
        rt.alloc(),
        &OfReferences,
        usage,
        &mut input,
        &mut out,
        &mut err,
    );
    ExitCode::from(status)
}
