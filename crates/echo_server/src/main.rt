//! The program `echo_server`: an example of an engine over TCP, whose owner reads and writes the bodies itself.
//!
//! Its words are `PORT CONNECTIONS`. It listens on 127.0.0.1 and serves so many connections, one after another. Its
//! one object has the key `echo`, and its every operation is raw: what it returns is how many calls it has performed,
//! an unsigned long long, and then the octets of the request's body, in the request's byte order. So a call that is
//! sent again after its connection was lost returns the same number. tests/echo.py is a client of it.
#![tactic(auto)]

mod echo;
mod serve;

use std::process::ExitCode;
use std::{env, io};

/// The number that a word is.
fn number(word: &str) -> io::Result<u32> {
    word.parse()
        .map_err(|_| io::Error::from(io::ErrorKind::InvalidInput))
}

/// Serves as the words ask for. The first is the program's name.
fn run(rt: &HostRuntime) -> io::Result<()> {
    let words: Vec<String> = env::args(rt)?.collect(rt.alloc())?;
    let [_, port, connections] = words.as_slice() else {
        return Err(io::Error::from(io::ErrorKind::InvalidInput));
    };
    let port = u16::try_from(number(port)?).map_err(|_| io::Error::from(
        io::ErrorKind::InvalidInput,
    ))?;
    serve::serve(rt, port, number(connections)?)
}

fn main(rt: HostRuntime) -> ExitCode {
    match run(&rt) {
        Ok(()) => ExitCode::from(0),
        Err(_) => {
            let _ = eprintln!(&rt; "usage: echo_server PORT CONNECTIONS, on a port that is free");
            ExitCode::from(1)
        }
    }
}
