//! The cases by their names, SUITE/SAMPLE.

ghost use Rattle.std.specs.Prelude.{◌≡◌, ◌++◌, codes, IfSome};

use crate::sample::Sample;
use std::io;
use std::io::Write;

/// A set of samples.
pub trait Samples {
    /// The samples of this set.
    fn samples(&self) -> &'static [Sample];
}

/// A name, a call, and the samples on which it is made. The name ends in `without_allocation` where the
/// call may take no memory.
pub struct Suite<C, S>(pub &'static str, pub C, pub S);

/// Prints the names of the cases of a suite, one a line.
fn print_suite<C, S: Samples, W: Write>(suite: &Suite<C, S>, out: &mut W) -> io::Result<()> {
    let first = suite.0;
    for sample in suite.2.samples() {
        let second = sample.name;
        writeln!(out, "{first}/{second}")?;
    }
    Ok(())
}

/// Prints the names of all cases, one a line.
pub fn print_names<C, S: Samples, W: Write>(suites: &[Suite<C, S>], out: &mut W) -> io::Result<()> {
    for suite in suites {
        print_suite(suite, out)?;
    }
    Ok(())
}

/// The suite of that name.
fn suite_named<'a, C, S>(suites: &'a [Suite<C, S>], name: &str) -> Option<&'a Suite<C, S>>
    ensures { IfSome result (λ suite. suite.now.0.now ≡ name.now) }
{
    for suite in suites {
        if suite.0 == name {
            return Some(suite);
        }
    }
    None
}

/// The sample of that name.
fn sample_named(samples: &'static [Sample], name: &str) -> Option<&'static Sample>
    ensures { IfSome result (λ sample. sample.now.name.now ≡ name.now) }
{
    samples.iter().find(|sample| sample.name == name)
}

/// A call on a sample.
#[derive(Drop)]
pub struct Case<C> {
    /// The name of its suite.
    pub suite: &'static str,
    /// The call.
    pub call: C,
    /// The sample.
    pub sample: &'static Sample,
}

impl<C: Copy> Case<C> {
    /// The case of that name.
    pub fn named<S: Samples>(suites: &[Suite<C, S>], name: &str) -> Option<Case<C>>
        ensures { IfSome result (λ c. name.now ≡ c.suite.now ++ codes "/" ++ c.sample.now.name.now) }
    {
        let (first, second) = name.split_once('/')?;
        let suite = suite_named(suites, first)?;
        let sample = sample_named(suite.2.samples(), second)?;
        Some(Case {
            suite: suite.0,
            call: suite.1,
            sample,
        })
    }
}
