//! Where lines are printed, and where octets are read.

use crate::stop::{Failure, Stop};
use std::io;
use std::io::{ErrorKind, Read, Write};

/// A writer, and why it failed.
#[derive(Drop)]
pub(crate) struct Sink<W> {
    writer: W,
    error: Option<io::Error>,
}

/// Why a writer or a reader stopped: its buffer may have failed to grow.
fn stop_of(error: &io::Error, stop: Stop) -> Stop {
    match error.kind() {
        ErrorKind::OutOfMemory => Stop::Memory,
        _ => stop,
    }
}

impl<W: Write> Sink<W> {
    /// A writer that has not failed.
    pub fn new(writer: W) -> Sink<W> {
        Sink {
            writer,
            error: None,
        }
    }

    /// Keeps why it failed.
    fn keep(&mut self, came: io::Result<()>) -> Result<(), Stop> {
        let Err(error) = came else {
            return Ok(());
        };
        let stop = stop_of(&error, Stop::Unwritable);
        self.error = Some(error);
        Err(stop)
    }

    /// Prints a text.
    pub fn print(&mut self, text: &str) -> Result<(), Stop> {
        let came = self.writer.write_all(text.as_bytes());
        self.keep(came)
    }

    /// Prints all that was not yet.
    pub fn flush(&mut self) -> Result<(), Stop> {
        let came = self.writer.flush();
        self.keep(came)
    }

    /// The failure of a trace that stopped.
    pub fn failure(&mut self, stop: Stop) -> Failure {
        match self.error.take() {
            Some(error) if stop == Stop::Unwritable => Failure::Output(error),
            _ => Failure::Stop(stop),
        }
    }
}

/// A reader, and why it failed.
#[derive(Drop)]
pub(crate) struct Source<'r, R> {
    pub input: &'r mut R,
    /// Whether its end has come: a terminal is not read again then.
    pub is_ended: bool,
    pub error: Option<io::Error>,
}

impl<R: Read> Source<'_, R> {
    /// Reads octets; none at the end.
    pub fn read(&mut self, buffer: &mut [u8]) -> Result<usize, Stop> {
        if self.is_ended {
            return Ok(0);
        }
        for _ in 0..u32::MAX {
            match self.input.read(buffer) {
                Ok(count) => {
                    self.is_ended = count == 0;
                    return Ok(count);
                }
                Err(error) if error.kind() == ErrorKind::Interrupted => {}
                Err(error) => {
                    let stop = stop_of(&error, Stop::Unreadable);
                    self.error = Some(error);
                    return Err(stop);
                }
            }
        }
        Err(Stop::Unreadable)
    }

    /// The failure of a trace that stopped here.
    pub fn failure(&mut self) -> Option<Failure> {
        Some(Failure::Input(self.error.take()?))
    }
}
