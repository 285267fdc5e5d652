//! Why a trace stops before its work is done.

use std::alloc::{AllocError, AllocFailed};
use std::io;
use std::io::ErrorKind;
use thiserror::Error;

/// Why a trace stops before its work is done.
#[derive(Clone, Copy, Debug, PartialEq, Eq, Error)]
pub enum Stop {
    /// An allocation failed.
    #[error("memory")]
    Memory,
    /// The input can't be read.
    #[error("input: unreadable")]
    Unreadable,
    /// The input is a file of packets.
    #[error("input: a file of packets; give what `tshark -r FILE -q -z follow,tcp,raw,N` prints, with N from 0 for each connection")]
    Packets,
    /// The input is octets, and not their digits.
    #[error("input: octets that are no text; give --raw for those of one direction")]
    Octets,
    /// The line of that number has an odd number of digits.
    #[error("line {0}: odd digits")]
    OddDigits(u64),
    /// The line of that number has colons between its digits.
    #[error("line {0}: colons between digits; give what `tshark -q -z follow,tcp,raw,N` prints")]
    Colons(u64),
    /// The line of that number begins a connection whose octets don't stand there as plain digits.
    #[error("line {0}: octets that are not raw; give what `tshark -r FILE -q -z follow,tcp,raw,N` prints")]
    Form(u64),
    /// The connection that ends before the line of that number is not in the capture.
    #[error("line {0}: the stream before it is not in the capture; `tshark -r FILE -q -z conv,tcp` lists those that are")]
    NoStream(u64),
    /// The line of that number is not one that `tshark -q -z follow,tcp,yaml,N` prints, or is not where it does.
    #[error("line {0}: not as `tshark -q -z follow,tcp,yaml,N` and giop-capture print it")]
    Yaml(u64),
    /// The octets of the packet that begins in the line of that number are cut, or no digits of base 64.
    #[error("line {0}: a packet whose octets are not base 64, or are cut")]
    Base64(u64),
    /// With the connection in the line of that number too many have begun and not ended.
    #[error("line {0}: more than 65536 connections at a time")]
    Connections(u64),
    /// A stream is not in the capture.
    #[error("input: a stream that is not in the capture; `tshark -r FILE -q -z conv,tcp` lists those that are")]
    Absent,
    /// The input is a dump of packets.
    #[error("input: a dump of packets, as of `tshark -x`; give what `tshark -r FILE -q -z follow,tcp,raw,N` prints")]
    Dump,
    /// The input is text, and has no octets.
    #[error("input: text without a line of digits; give what `tshark -r FILE -q -z follow,tcp,raw,N` prints")]
    Text,
    /// The output can't be written.
    #[error("output: unwritable")]
    Unwritable,
}

impl From<AllocError> for Stop {
    fn from(_e: AllocError) -> Stop {
        Stop::Memory
    }
}

impl<T> From<AllocFailed<T>> for Stop
where
    T: Drop,
{
    fn from(_e: AllocFailed<T>) -> Stop {
        Stop::Memory
    }
}

/// Why nothing is traced any more, with the system's reason where there is one.
#[derive(Debug, Drop, Error)]
pub enum Failure {
    #[error("{0}")]
    Stop(Stop),
    /// The input can't be read.
    #[error("input: {0}")]
    Input(io::Error),
    /// The output can't be written.
    #[error("output: {0}")]
    Output(io::Error),
}

impl Failure {
    /// Whether the one who reads the output has gone away, which is no error of the trace.
    pub fn is_reader_gone(&self) -> bool {
        match self {
            Failure::Output(error) => error.kind() == ErrorKind::BrokenPipe,
            Failure::Stop(_) | Failure::Input(_) => false,
        }
    }
}
