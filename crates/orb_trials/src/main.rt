//! The program `orb_trials`: calls of `ft_log` and `ft_orb` that take memory, each made by name.
//!
//! A case is one call on fixed inputs. Where an allocation of it is refused, the program checks what is left, and makes
//! the same call again. What the calls give is compared with octets and texts written out in `log_samples` and
//! `server_samples`.
//! tests/refused_allocations.py runs it under a `malloc` that refuses one allocation.
#![tactic(auto)]

mod asking;
mod calls;
mod keeping;
mod keys;
mod log_samples;
mod misses;
mod outcomes;
mod server_samples;
mod servers;
mod suites;

use std::hash::RandomState;
use std::io;
use std::process::ExitCode;
use suites::SUITES;

/// Runs the case that the first word names.
fn status_of(rt: &HostRuntime) -> io::Result<u8> {
    let hasher = RandomState::new(rt)?;
    let usage = "orb_trials list | orb_trials CASE";
    let (mut out, mut err) = (rt.stdout(), rt.stderr());
    trials::run(rt, hasher, &SUITES, usage, &mut out, &mut err)
}

fn main(rt: HostRuntime) -> ExitCode {
    trials::exit_code(&rt, status_of(&rt))
}
