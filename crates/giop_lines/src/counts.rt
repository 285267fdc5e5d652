//! What is said at the end of all connections.

use std::alloc::{AllocError, Global};

/// So many numbers are listed at most.
const MOST_LISTED: usize = 65_536;

/// Messages that are named by their numbers: the first ones; the others are counted.
#[derive(Drop)]
pub struct Listed {
    pub numbers: Vec<u64>,
    pub others: u64,
}

impl Listed {
    /// None.
    fn new(alloc: Global) -> Listed {
        Listed {
            numbers: Vec::new(alloc),
            others: 0,
        }
    }

    /// Adds one.
    pub fn add(&mut self, number: u64) -> Result<(), AllocError> {
        if self.numbers.len() >= MOST_LISTED {
            self.others = self.others.saturating_add(1);
            return Ok(());
        }
        self.numbers.push(number)?;
        Ok(())
    }
}

/// What is counted over all connections. Messages are named by their numbers.
#[derive(Drop)]
pub struct Counts {
    pub messages: u64,
    pub connections: u64,
    /// Requests without a reply, cancelled ones among them.
    pub unanswered: Vec<u64>,
    /// Those of them that were cancelled.
    pub cancelled: Vec<u64>,
    /// Replies without a request.
    pub strays: Listed,
    /// Requests that repeat an earlier one.
    pub repeats: Listed,
    pub faults: u64,
    pub passed: u64,
    /// Octets that the capture missed.
    pub missing: u64,
    /// The message at which keys of requests were forgotten first, if some were.
    pub forgot: Option<u64>,
}

impl Counts {
    /// That of nothing.
    pub fn new(alloc: Global) -> Counts {
        Counts {
            messages: 0,
            connections: 0,
            unanswered: Vec::new(alloc),
            cancelled: Vec::new(alloc),
            strays: Listed::new(alloc),
            repeats: Listed::new(alloc),
            faults: 0,
            passed: 0,
            missing: 0,
            forgot: None,
        }
    }

    /// Counts what a fault passed over.
    pub fn pass(&mut self, octets: u64) {
        self.passed = self.passed.saturating_add(octets);
    }

    /// Counts octets that the capture missed.
    pub fn miss(&mut self, octets: u64) {
        self.missing = self.missing.saturating_add(octets);
    }
}
