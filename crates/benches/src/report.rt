//! What the program prints of its work.

use std::io;

/// A checksum with one number more.
pub(crate) fn mixed(sum: u64, number: u64) -> u64 {
    sum.wrapping_mul(31).wrapping_add(number)
}

/// What a kind of work gave.
#[derive(Clone, Copy)]
pub(crate) enum Report {
    /// A stream of so many octets was made, and nothing else.
    Stream {
        octets: usize,
    },
    /// So many messages or references were read.
    Messages {
        count: u64,
        sum: u64,
    },
    /// A value of so many octets was read or written.
    Value {
        octets: usize,
        sum: u64,
    },
    /// A server wrote so many octets, and its counter has that total.
    Answers {
        octets: u64,
        sum: u64,
        total: i64,
    },
    /// The same, and how many nanoseconds the last message took.
    Timed {
        octets: u64,
        sum: u64,
        total: i64,
        last: u128,
    },
}

impl Report {
    /// Prints its line.
    pub(crate) fn print(self, rt: &HostRuntime) -> io::Result<()> {
        match self {
            Report::Stream { octets } => println!(rt; "octets {octets}"),
            Report::Messages { count, sum } => println!(rt; "messages {count} sum {sum}"),
            Report::Value { octets, sum } => println!(rt; "octets {octets} sum {sum}"),
            Report::Answers { octets, sum, total } => {
                println!(rt; "octets {octets} sum {sum} total {total}")
            }
            Report::Timed {
                octets,
                sum,
                total,
                last,
            } => println!(rt; "octets {octets} sum {sum} total {total} last {last}"),
        }
    }
}
