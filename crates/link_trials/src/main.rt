//! The program `link_trials`: calls of `giop_link` and `ft_client` that take memory, each made by name.
//!
//! A case is one call on fixed inputs. Where an allocation of it is refused, the program checks what is left, and makes
//! the same call again. What the calls give is compared with octets and texts written out in `link_samples` and
//! `call_samples`.
//! tests/refused_allocations.py runs it under a `malloc` that refuses one allocation.
#![tactic(auto)]

mod attending;
mod call_samples;
mod calling;
mod calls;
mod closing;
mod hearing;
mod limits;
mod link_samples;
mod misses;
mod sending;
mod suites;

use std::process::ExitCode;
use suites::SUITES;

fn main(rt: HostRuntime) -> ExitCode {
    let usage = "link_trials list | link_trials CASE";
    let (mut out, mut err) = (rt.stdout(), rt.stderr());
    let status = trials::run(&rt, (), &SUITES, usage, &mut out, &mut err);
    trials::exit_code(&rt, status)
}
