//! `giop trace`: what is asked of it, and what it does.

use giop_run::{DONE, FAILED, Hint, Input, REFUSED};
use giop_trace::{Failure, Options, Stop, trace};
use giop_types::{Table, TypesError};
use std::env::VarError;
use std::io::IsTerminal;
use std::{env, fs, io};

/// When lines have colours.
#[derive(Clone, Copy)]
pub(crate) enum Colouring {
    /// Where they are printed on a terminal that has colours, unless the environment asks for none.
    Terminal,
    Always,
    Never,
}

/// Whether a variable of the environment is there, and not empty.
fn is_set(rt: &HostRuntime, name: &str) -> bool {
    match env::var(rt, name) {
        Ok(value) => !value.is_empty(),
        Err(VarError::NotUnicode) => true,
        Err(_) => false,
    }
}

/// Whether the terminal is one without colours.
fn is_dumb(rt: &HostRuntime) -> bool {
    matches!(env::var(rt, "TERM"), Ok(name) if name.as_str() == "dumb")
}

/// Whether lines on standard output have colours (no-color.org: a NO_COLOR that is not empty asks for none).
fn is_coloured(rt: &HostRuntime, colouring: Colouring) -> bool {
    match colouring {
        Colouring::Always => true,
        Colouring::Never => false,
        Colouring::Terminal => {
            rt.stdout().is_terminal() && !is_set(rt, "NO_COLOR") && !is_dumb(rt)
        }
    }
}

/// What is asked of a trace, and of which input.
#[derive(Clone, Copy)]
pub(crate) struct Tracing<'a> {
    pub(crate) input: Input<'a>,
    /// The file of a table of types.
    pub(crate) types: Option<&'a str>,
    pub(crate) colouring: Colouring,
    pub(crate) options: Options<'a>,
}

/// Says that input is waited for, where it is read from a terminal and one sits before it.
fn print_waiting(rt: &HostRuntime, input: &Input) -> io::Result<()> {
    if input.file.is_none() && rt.stdin().is_terminal() && rt.stderr().is_terminal() {
        eprintln!(rt; "{}", Hint::Waiting)?;
    }
    Ok(())
}

/// The exit status of a trace, and why it was not printed.
fn status_of(rt: &HostRuntime, came: Result<bool, Failure>) -> u8 {
    match came {
        Ok(true) => DONE,
        Ok(false) => FAILED,
        // no error of the program
        Err(failure) if failure.is_reader_gone() => DONE,
        Err(failure) => {
            let _ = eprintln!(rt; "{failure}");
            FAILED
        }
    }
}

/// Traces the file of a name, and returns the exit status.
fn trace_file(rt: &HostRuntime, options: &Options, types: Table, name: &str) -> u8 {
    match fs::open(rt, name) {
        Ok(mut file) => match trace(rt.alloc(), options, types, &mut file, &mut rt.stdout()) {
            Err(Failure::Input(error)) => refuse(rt, name, &error),
            came => status_of(rt, came),
        },
        Err(error) => refuse(rt, name, &error),
    }
}

/// Says that the file of a name can't be read.
fn refuse(rt: &HostRuntime, name: &str, error: &io::Error) -> u8 {
    let _ = eprintln!(rt; "input: {name}: {error}");
    REFUSED
}

/// The table of types that is asked for, or the exit status, where it is not one.
fn types_of(rt: &HostRuntime, file: Option<&str>) -> Result<Table, u8> {
    let Some(name) = file else {
        return Ok(Table::none(rt.alloc()));
    };
    let text = fs::read(rt, name).map_err(|error| refuse(rt, name, &error))?;
    match Table::read(rt.alloc(), &text) {
        Ok(types) => Ok(types),
        Err(TypesError::Memory) => Err(status_of(rt, Err(Failure::Stop(Stop::Memory)))),
        Err(error) => {
            let _ = eprintln!(rt; "giop: {name} {error}");
            Err(FAILED)
        }
    }
}

/// Traces standard input, and returns the exit status.
fn trace_input(rt: &HostRuntime, options: &Options, types: Table) -> u8 {
    let (mut input, mut out) = (rt.stdin(), rt.stdout());
    match trace(rt.alloc(), options, types, &mut input, &mut out) {
        Err(Failure::Input(_)) => status_of(rt, Err(Failure::Stop(Stop::Unreadable))),
        came => status_of(rt, came),
    }
}

/// Does what `giop trace` is asked for, and returns the exit status: 0, or 1 where a direction doesn't end after a
/// message, the input or the table of types is refused, the output can't be written or an allocation fails, or 2 where a
/// file can't be read.
pub(crate) fn run_trace(rt: &HostRuntime, tracing: &Tracing) -> u8 {
    let types = match types_of(rt, tracing.types) {
        Ok(types) => types,
        Err(status) => return status,
    };
    let _ = print_waiting(rt, &tracing.input);
    let mut options = tracing.options;
    options.is_coloured = is_coloured(rt, tracing.colouring);
    match tracing.input.file {
        Some(name) => trace_file(rt, &options, types, name),
        None => trace_input(rt, &options, types),
    }
}
