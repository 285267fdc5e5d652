//! The program `giop_trials`: calls of `giop_core` and `giop_frames` that take memory, each made by name.
//!
//! A case is one call on fixed inputs. Where an allocation of it is refused, the program checks what is left, and makes
//! the same call again. What the calls give is compared with octets and texts written out in `message_samples` and
//! `stream_samples`.
//! tests/refused_allocations.py runs it under a `malloc` that refuses one allocation.
#![tactic(auto)]

mod calls;
mod clients;
mod cutting;
mod feeding;
mod message_samples;
mod messages;
mod misses;
mod stream_samples;
mod suites;

use std::process::ExitCode;
use suites::SUITES;

fn main(rt: HostRuntime) -> ExitCode {
    let usage = "giop_trials list | giop_trials CASE";
    let (mut out, mut err) = (rt.stdout(), rt.stderr());
    let status = trials::run(&rt, (), &SUITES, usage, &mut out, &mut err);
    trials::exit_code(&rt, status)
}
