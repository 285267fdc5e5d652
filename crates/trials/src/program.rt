//! A program of trials over its words and two writers.

ghost use Rattle.std.specs.Prelude.{◌≤◌, IfOk};

use crate::cases::{Case, Samples, Suite, print_names};
use crate::sample::Sample;
use crate::stop::{Stop, status_of};
use crate::trial::{Ending, Miss};
use std::alloc::Global;
use std::env::Env;
use std::io::Write;
use std::{env, io};

/// A call that takes memory, made on a sample with what the program gives it besides.
pub trait Call<G>: Copy {
    /// Makes the call on a sample, and once more where an allocation of it was refused. At `Memory` the call was not
    /// made, since an allocation for its inputs was refused.
    fn run(self, alloc: Global, given: G, sample: &'static Sample) -> Result<Ending, Miss>;
}

/// Prints the names of the cases, or runs the case of that name and prints how it ended.
fn answer<G: Drop, C: Call<G>, S: Samples, W: Write>(
    alloc: Global,
    given: G,
    suites: &[Suite<C, S>],
    word: &str,
    out: &mut W,
) -> Result<(), Stop> {
    if word == "list" {
        return Ok(print_names(suites, out)?);
    }
    let case = Case::named(suites, word).ok_or(Stop::Unknown)?;
    let ending = case.call.run(alloc, given, case.sample)?;
    Ok(writeln!(out, "{ending}")?)
}

/// Runs the case that the program's word names, or lists the cases, and returns the exit status: 0; or 1 where the call
/// is wrong, memory ran out before it or the output can't be written; or 2 where no case has that name. The reason goes
/// to `err`.
pub fn run<G: Drop, C: Call<G>, S: Samples, W: Write, E: Write>(
    rt: &(impl Env + AllocGlobal),
    given: G,
    suites: &[Suite<C, S>],
    usage: &str,
    out: &mut W,
    err: &mut E,
) -> io::Result<u8>
    ensures { IfOk result (λ status. status ≤ 2) }
{
    let alloc = rt.alloc();
    let words: Vec<String> = env::args(rt)?.collect(alloc)?;
    let word = words.get(1).map_or("", |word| word.as_str());
    Ok(status_of(answer(alloc, given, suites, word, out), usage, err))
}
