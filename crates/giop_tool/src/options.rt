//! The options of subcommands, in one table.

use clap::builder::ValueParser;
use clap::{Arg, ArgAction, Command};
use giop_run::{
    CAPACITY, JOINED, LEAST_LIMIT, LIMIT, MOST_CONNECTIONS, MOST_LIMIT, MOST_OUTCOMES,
    MOST_PARTIALS, MOST_PLACES, PARKED, PARTIALS, START,
};
use giop_trace::KEYS;
use std::alloc::{AllocError, Global};

/// What is given with an option.
#[derive(Clone, Copy)]
pub(crate) enum Value {
    /// Nothing.
    Flag,
    /// A word that stands alone, without an option.
    Place,
    /// A word, which help calls so.
    Word(&'static str),
    /// One of these words, which help calls so.
    Choice(&'static str, &'static [&'static str]),
    /// A number from the first one to the second. Of the range help says what the row says.
    Number(u64, u64),
    /// The same; help goes on with the range.
    Ranged(u64, u64),
    /// The same of an option that has to be there.
    Required(u64, u64),
    /// The same; help goes on with the range, and with the number that is taken without the option.
    Usual(u64, u64, u64),
}

/// An option.
pub(crate) struct Row {
    /// The subcommands that have it.
    pub(crate) of: &'static [&'static str],
    pub(crate) name: &'static str,
    pub(crate) value: Value,
    /// What help says of it.
    pub(crate) help: &'static str,
}

/// The subcommands that read a stream.
const STREAMS: &[&str] = &["show", "check", "trace"];

/// The subcommands that have a server of one counter.
const SERVERS: &[&str] = &["play", "serve"];

const PLAY: &[&str] = &["play"];

const TRACE: &[&str] = &["trace"];

const IOR: &[&str] = &["ior"];

const SERVE: &[&str] = &["serve"];

/// The options that mean something with `--engine` alone.
const OF_ENGINE: &[&str] = &["parked", "joined", "asks"];

/// When lines may have colours.
const WHENS: &[&str] = &["auto", "always", "never"];

/// Where messages of 1.1 may be cut that are joined.
const PLACES: &[&str] = &["aligned", "anywhere"];

/// The greatest number of 32 bits.
const MOST: u64 = u32::MAX as u64;

/// All options, those of a subcommand in the order in which its help has them.
pub(crate) static ROWS: [Row; 33] = [
    Row {
        of: STREAMS,
        name: "FILE",
        value: Value::Place,
        help: "The file that has the stream, or - for standard input [default: -]",
    },
    Row {
        of: STREAMS,
        name: "raw",
        value: Value::Flag,
        help: "Takes the octets as they are, and not as hexadecimal digits",
    },
    Row {
        of: TRACE,
        name: "resume",
        value: Value::Flag,
        help: "After a fault goes on at the next header of a plausible message",
    },
    Row {
        of: TRACE,
        name: "cuts",
        value: Value::Choice("WHERE", PLACES),
        help: "Where messages of GIOP 1.1 may be cut to be joined: aligned is behind a frame whose octets leave 4 modulo 8 [default: aligned]",
    },
    Row {
        of: TRACE,
        name: "json",
        value: Value::Flag,
        help: "Prints an object of JSON a line",
    },
    Row {
        of: TRACE,
        name: "bodies",
        value: Value::Flag,
        help: "Of packets prints the octets of bodies and contexts too",
    },
    Row {
        of: TRACE,
        name: "clock",
        value: Value::Flag,
        help: "Of packets prints the time of UTC, and not that since the first",
    },
    Row {
        of: TRACE,
        name: "color",
        value: Value::Choice("WHEN", WHENS),
        help: "When lines have colours: auto is on a terminal, unless NO_COLOR is set or TERM is dumb [default: auto]",
    },
    Row {
        of: TRACE,
        name: "keys",
        value: Value::Usual(1, MOST, KEYS as u64),
        help: "How many keys of FT_REQUEST are remembered at least",
    },
    Row {
        of: TRACE,
        name: "types",
        value: Value::Word("FILE"),
        help: "Prints arguments and results by the table of types in this file",
    },
    Row {
        of: TRACE,
        name: "operation",
        value: Value::Word("TEXT"),
        help: "Only requests of this operation, and what answers or cancels them",
    },
    Row {
        of: TRACE,
        name: "object",
        value: Value::Word("KEY"),
        help: "Only requests for the object of this key, as it is or in hexadecimal digits",
    },
    Row {
        of: TRACE,
        name: "client",
        value: Value::Word("TEXT"),
        help: "Only requests of this client of FT_REQUEST",
    },
    Row {
        of: TRACE,
        name: "call",
        value: Value::Number(1, u64::MAX),
        help: "Only the request of this number, and those that repeat it",
    },
    Row {
        of: TRACE,
        name: "slower",
        value: Value::Number(0, MOST),
        help: "Only requests that were answered so many milliseconds later, or more",
    },
    Row {
        of: TRACE,
        name: "unanswered",
        value: Value::Flag,
        help: "Only requests that nothing answered",
    },
    Row {
        of: TRACE,
        name: "faults",
        value: Value::Flag,
        help: "Only requests that a system exception answered, and what is wrong with octets",
    },
    Row {
        of: TRACE,
        name: "summary",
        value: Value::Flag,
        help: "Prints counts and latencies of calls, and no messages",
    },
    Row {
        of: SERVE,
        name: "port",
        value: Value::Required(1, u16::MAX as u64),
        help: "The TCP port to listen on",
    },
    Row {
        of: SERVE,
        name: "connections",
        value: Value::Required(1, MOST_CONNECTIONS as u64),
        help: "How many connections are served, one after another",
    },
    Row {
        of: SERVERS,
        name: "capacity",
        value: Value::Usual(1, MOST_OUTCOMES as u64, CAPACITY as u64),
        help: "How many outcomes of requests are kept at a time",
    },
    Row {
        of: SERVERS,
        name: "share",
        value: Value::Number(0, MOST),
        help: "How many of them are kept of one client, 1 to the capacity [default: the capacity]",
    },
    Row {
        of: SERVERS,
        name: "start",
        value: Value::Usual(0, i64::MAX as u64, START as u64),
        help: "The counter's total at the beginning",
    },
    Row {
        of: SERVERS,
        name: "limit",
        value: Value::Usual(LEAST_LIMIT as u64, MOST_LIMIT as u64, LIMIT as u64),
        help: "How many octets a message may have",
    },
    Row {
        of: SERVERS,
        name: "partials",
        value: Value::Usual(1, MOST_PARTIALS as u64, PARTIALS as u64),
        help: "How many messages may be partial at a time on a connection",
    },
    Row {
        of: PLAY,
        name: "engine",
        value: Value::Flag,
        help: "Plays on an engine, which asks an owner that keeps the counter, and may answer later",
    },
    Row {
        of: PLAY,
        name: "parked",
        value: Value::Usual(0, MOST_PLACES as u64, PARKED as u64),
        help: "With --engine: how many requests may be parked at a time",
    },
    Row {
        of: PLAY,
        name: "joined",
        value: Value::Usual(0, MOST_PLACES as u64, JOINED as u64),
        help: "With --engine: how many repeats may wait for the outcome of one, beside the first",
    },
    Row {
        of: PLAY,
        name: "asks",
        value: Value::Flag,
        help: "Prints a line for each request that the engine asks for",
    },
    Row {
        of: SERVE,
        name: "timeout",
        value: Value::Ranged(1, MOST),
        help: "After how many seconds a read or a write fails, and with it its connection",
    },
    Row {
        of: SERVE,
        name: "log",
        value: Value::Flag,
        help: "Writes a line for each request on standard error",
    },
    Row {
        of: IOR,
        name: "TEXT",
        value: Value::Place,
        help: "IOR: and hexadecimal digits, or a URL corbaloc:, or - for standard input [default: -]",
    },
    Row {
        of: IOR,
        name: "names",
        value: Value::Flag,
        help: "Shows it to a person: names of components, and the code sets, ORB and addresses in them",
    },
];

/// An option with its help.
#[derive(Drop)]
pub(crate) struct Told {
    row: &'static Row,
    help: String,
}

/// What help says of an option.
fn help_of(alloc: Global, row: &Row) -> Result<String, AllocError> {
    let what = row.help;
    match row.value {
        Value::Ranged(least, most) | Value::Required(least, most) => {
            format!(in alloc; "{what}, {least} to {most}")
        }
        Value::Usual(least, most, default) => {
            format!(in alloc; "{what}, {least} to {most} [default: {default}]")
        }
        _ => String::from_str(alloc, what),
    }
}

/// All options with their help.
pub(crate) fn told_options(alloc: Global) -> Result<Vec<Told>, AllocError> {
    let mut all = Vec::new(alloc);
    for row in &ROWS {
        let help = help_of(alloc, row)?;
        if all.push(Told { row, help }).is_err() {
            return Err(AllocError);
        }
    }
    Ok(all)
}

/// With a word, which help calls so.
fn with_word<'a>(arg: Arg<'a>, name: &'a str) -> Arg<'a> {
    arg.value_name(name).action(ArgAction::Set)
}

/// With a number in this range.
fn with_number<'a>(arg: Arg<'a>, least: u64, most: u64) -> Arg<'a> {
    with_word(arg, "N").value_parser(ValueParser::unsigned(least, most))
}

/// With what is given with it.
fn with_value<'a>(arg: Arg<'a>, row: &Row) -> Arg<'a> {
    if let Value::Place = row.value {
        return arg.action(ArgAction::Set);
    }
    let option = arg.long(row.name);
    match row.value {
        Value::Flag | Value::Place => option.action(ArgAction::SetTrue),
        Value::Word(name) => with_word(option, name),
        Value::Choice(name, words) => with_word(option, name).value_parser(ValueParser::from(
            words,
        )),
        Value::Number(least, most) | Value::Ranged(least, most) | Value::Usual(least, most, _) => {
            with_number(option, least, most)
        }
        Value::Required(least, most) => with_number(option, least, most).required(true),
    }
}

/// An option, or a word that stands alone, as `clap` takes it.
fn option_of<'a>(alloc: Global, told: &'a Told) -> Result<Arg<'a>, AllocError> {
    let row = told.row;
    let option = with_value(Arg::new(alloc, row.name).help(&told.help), row);
    if OF_ENGINE.contains(&row.name) {
        return option.requires_arg("engine");
    }
    Ok(option)
}

/// A subcommand with an option, if it has it.
fn with_option<'a>(
    alloc: Global,
    told: &'a Told,
    name: &str,
    command: Command<'a>,
) -> Result<Command<'a>, AllocError> {
    if !told.row.of.contains(&name) {
        return Ok(command);
    }
    let option = option_of(alloc, told)?;
    command.arg(option)
}

/// A subcommand with its options.
pub(crate) fn with_options<'a>(
    alloc: Global,
    all: &'a [Told],
    name: &str,
    command: Command<'a>,
) -> Result<Command<'a>, AllocError> {
    let mut command = command;
    for told in all {
        command = with_option(alloc, told, name, command)?;
    }
    Ok(command)
}
