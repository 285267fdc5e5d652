//! What the program reads: standard input, or a file.

use crate::setting::Input;
use crate::stop::Stop;
use std::alloc::Global;
use std::io::{ErrorKind, Read};
use std::rt::Files;
use std::{fs, io};

/// All that a reader gives. A reader that hasn't ended after 4,294,967,295 reads is unreadable.
fn read_all<R: Read>(alloc: Global, input: &mut R) -> io::Result<Vec<u8>> {
    let mut all = Vec::new(alloc);
    let mut buffer = [0u8; 8192];
    for _ in 0..u32::MAX {
        match input.read(&mut buffer) {
            Ok(0) => return Ok(all),
            Ok(n) => all.extend_from_slice(&buffer[..n])?,
            Err(error) if error.kind() == ErrorKind::Interrupted => {}
            Err(error) => return Err(error),
        }
    }
    Err(io::Error::from(ErrorKind::FileTooLarge))
}

/// Why standard input wasn't read.
fn unreadable(error: io::Error) -> Stop {
    match error.kind() {
        ErrorKind::OutOfMemory => Stop::Memory,
        _ => Stop::Unreadable,
    }
}

/// Why a file wasn't read, by its name.
fn unreadable_file(alloc: Global, name: &str, error: io::Error) -> Stop {
    if error.kind() == ErrorKind::OutOfMemory {
        return Stop::Memory;
    }
    match String::from_str(alloc, name) {
        Ok(name) => Stop::File(name, error),
        Err(_) => Stop::Memory,
    }
}

/// All octets of a file.
fn read_file<F: Files>(alloc: Global, rt: &F, name: &str) -> io::Result<Vec<u8>> {
    read_all(alloc, &mut fs::open(rt, name)?)
}

/// All octets of standard input.
pub(crate) fn read_input<R: Read>(alloc: Global, input: &mut R) -> Result<Vec<u8>, Stop> {
    read_all(alloc, input).map_err(unreadable)
}

/// All octets of an input, as they are: of its file, or of standard input where it has none. Each subcommand that
/// reads a stream reads it here.
pub fn read_octets<F: Files, R: Read>(
    alloc: Global,
    rt: &F,
    input: &Input,
    stdin: &mut R,
) -> Result<Vec<u8>, Stop> {
    let Some(name) = input.file else {
        return read_input(alloc, stdin);
    };
    match read_file(alloc, rt, name) {
        Ok(octets) => Ok(octets),
        Err(error) => Err(unreadable_file(alloc, name, error)),
    }
}
