//! The program `schedule_player`: plays schedules of clients and a server, and prints what completes.
//!
//! Standard input has schedules, one after another, and `lines` says what a line is. Each is played on a new server
//! of the counter and an object that forwards, and on new clients by `ft_ends::both_ends`. For each completion a line is printed: the client's
//! place, the number of its call, and how it ended, with the body in hexadecimal digits; then the total of the
//! counter, or after how many steps memory ran out; and then `end`.
//! tests/schedules.py compares these lines with those of a model.
#![tactic(auto)]

mod lines;
mod playing;
mod run;
mod schedule;
mod steps;
mod words;

use std::hash::RandomState;
use std::io;
use std::process::ExitCode;

/// Runs the program over its handles.
fn status_of(rt: &HostRuntime) -> io::Result<u8> {
    let hasher = RandomState::new(rt)?;
    Ok(run::run(
        rt.alloc(),
        hasher,
        &mut rt.stdin(),
        &mut rt.stdout(),
        &mut rt.stderr(),
    ))
}

fn main(rt: HostRuntime) -> ExitCode {
    trials::exit_code(&rt, status_of(&rt))
}
