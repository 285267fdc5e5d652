//! The program `benches`: does a kind of work again and again, to be timed, and prints a line.
//!
//! The first word is `frames`, `values`, `server`, `engine`, `later`, `log` or `script`, and the modules of these names say what
//! the others are (of `engine` and `later` that of `server`, of `log` `keeping`). The word `all` does each of the first six once,
//! on a small input, and a script. Where the words are wrong the program says in a line on standard error how they go, and ends with
//! status 2.
#![tactic(auto)]

mod expiry;
mod frames;
mod keeping;
mod messages;
mod report;
mod script;
mod server;
mod serving;
mod stop;
mod values;
mod words;

use report::Report;
use std::env;
use std::hash::RandomState;
use std::process::ExitCode;
use stop::Stop;
use words::texts_of;

/// How the words go.
const USAGE: &str = "usage: benches frames|values|server|engine|later|log|script WORD.. | all";

/// What `all` does.
const ALL: [(&str, &[&str]); 7] = [
    ("frames", &["10000", "84"]),
    ("values", &["read", "structs", "1"]),
    ("server", &["1000", "4096", "add"]),
    ("engine", &["1000", "4096", "add"]),
    ("later", &["1", "1000", "4096", "add"]),
    ("log", &["2000", "1024", "1024", "rising"]),
    (
        "script",
        &[
            "1",
            "1",
            "7",
            "4096",
            "1",
            "open 1",
            "bytes 1 50 47494f50010200000000002800000005030000000000000000000001630000000000000461646400000000000000000000000007",
        ],
    ),
];

/// Does the work of a name that the words ask for.
fn work(rt: &HostRuntime, name: &str, words: &[&str]) -> Result<Report, Stop> {
    match name {
        "frames" => frames::run(rt.alloc(), words),
        "values" => values::run(rt.alloc(), words),
        "server" => server::run(rt, RandomState::new(rt)?, words),
        "engine" => server::run_owned(rt, RandomState::new(rt)?, words),
        "later" => server::run_later(rt, RandomState::new(rt)?, words),
        "log" => keeping::run(rt.alloc(), RandomState::new(rt)?, words),
        _ => Err(Stop::Words(USAGE)),
    }
}

/// Does the work of a name, and prints what it gave.
fn print_work(rt: &HostRuntime, name: &str, words: &[&str]) -> Result<(), Stop> {
    if name == "script" {
        return script::run(rt, RandomState::new(rt)?, words);
    }
    work(rt, name, words)?.print(rt)?;
    Ok(())
}

/// Does what `all` does.
fn print_all(rt: &HostRuntime) -> Result<(), Stop> {
    for (name, words) in ALL {
        print_work(rt, name, words)?;
    }
    Ok(())
}

/// Does what the words ask for. The first is the program's name.
fn run(rt: &HostRuntime, words: &[&str]) -> Result<(), Stop> {
    match words {
        [_, "all"] => print_all(rt),
        [_, name, others @ ..] => print_work(rt, name, others),
        _ => Err(Stop::Words(USAGE)),
    }
}

/// Does what the words of the command line ask for.
fn run_words(rt: &HostRuntime) -> Result<(), Stop> {
    let words: Vec<String> = env::args(rt)?.collect(rt.alloc())?;
    let texts = texts_of(rt.alloc(), words.as_slice())?;
    run(rt, texts.as_slice())
}

fn main(rt: HostRuntime) -> ExitCode {
    match run_words(&rt) {
        Ok(()) => ExitCode::from(0),
        Err(stop) => {
            let _ = eprintln!(&rt; "{}", stop.text());
            ExitCode::from(stop.status())
        }
    }
}
