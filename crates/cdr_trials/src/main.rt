//! The program `cdr_trials`: calls of `cdr_core` and `ior_core` that take memory, each made by name.
//!
//! A case is one call on fixed inputs. Where an allocation of it is refused, the program checks that nothing changed,
//! and makes the same call again. What the calls give is compared with octets and texts written out in `samples`.
//! tests/refused_allocations.py runs it under a `malloc` that refuses one allocation.
#![tactic(auto)]

mod calls;
mod copying;
mod misses;
mod profiles;
mod reading;
mod references;
mod samples;
mod suites;
mod writing;

use std::process::ExitCode;
use suites::SUITES;

fn main(rt: HostRuntime) -> ExitCode {
    let usage = "cdr_trials list | cdr_trials CASE";
    let (mut out, mut err) = (rt.stdout(), rt.stderr());
    let status = trials::run(&rt, (), &SUITES, usage, &mut out, &mut err);
    trials::exit_code(&rt, status)
}
