//! What is kept of the requests that wait for an answer, for the lines of their answers, by the numbers of the messages.

use crate::choice::key_in;
use giop_core::{Content, ReplyWish};
use std::alloc::{AllocError, Global};
use std::collections::BTreeMap;

/// A request that waits.
#[derive(Drop)]
pub(crate) struct Request {
    /// The key of its object, where it names one by that.
    key: Option<Vec<u8>>,
    /// The operation that it asks for; none of a LocateRequest.
    operation: Option<Vec<u8>>,
    /// How many operations of that name it is not of, as far as is known: its body has no arguments of theirs.
    others: usize,
    /// When its last octet came, where that is known.
    time: Option<u64>,
    is_cancelled: bool,
    /// Whether it is asked for, as far as is known before its answer, and the lines that are printed if it is then.
    is_chosen: bool,
    lines: String,
}

impl Request {
    /// The key of its object, where it names one by that.
    pub fn key(&self) -> Option<&[u8]> {
        match &self.key {
            Some(key) => Some(key),
            None => None,
        }
    }

    /// The operation that it asks for, if it asks for one.
    pub fn operation(&self) -> Option<&[u8]> {
        match &self.operation {
            Some(name) => Some(name),
            None => None,
        }
    }

    /// How many operations of that name it is not of, as far as is known.
    pub fn others(&self) -> usize {
        self.others
    }
}

/// The requests that wait.
#[derive(Drop)]
pub(crate) struct Asked {
    alloc: Global,
    requests: BTreeMap<u64, Request>,
}

/// Whether a message waits for an answer.
fn waits(content: &Content) -> bool {
    match content {
        Content::Request(request) => !matches!(request.reply, ReplyWish::None),
        Content::LocateRequest(_) => true,
        _ => false,
    }
}

/// The operation that a message asks for, if it asks for one.
fn operation_in<'m>(content: &Content<'m>) -> Option<&'m [u8]> {
    match content {
        Content::Request(request) => Some(request.operation),
        _ => None,
    }
}

/// A copy of octets, if there are some.
fn copied(alloc: Global, octets: Option<&[u8]>) -> Result<Option<Vec<u8>>, AllocError> {
    match octets {
        Some(octets) => Ok(Some(Vec::from_slice(alloc, octets)?)),
        None => Ok(None),
    }
}

impl Asked {
    /// None.
    pub fn new(alloc: Global) -> Asked {
        Asked {
            alloc,
            requests: BTreeMap::new(alloc),
        }
    }

    /// Takes the message of a number, and keeps it where it waits for an answer.
    pub fn take(
        &mut self,
        number: u64,
        content: &Content,
        time: Option<u64>,
        is_chosen: bool,
    ) -> Result<(), AllocError> {
        if !waits(content) {
            return Ok(());
        }
        let request = Request {
            key: copied(self.alloc, key_in(content))?,
            operation: copied(self.alloc, operation_in(content))?,
            others: 0,
            time,
            is_cancelled: false,
            is_chosen,
            lines: String::new(self.alloc),
        };
        self.requests.insert(number, request)?;
        Ok(())
    }

    /// Marks the request of a number as cancelled.
    pub fn cancel(&mut self, number: u64) {
        if let Some(request) = self.requests.get_mut(&number) {
            request.is_cancelled = true;
        }
    }

    /// Lets the request of a number go, which is answered.
    pub fn forget(&mut self, number: u64) {
        self.requests.remove(&number);
    }

    /// The operation that the request of a number asks for, if it asks for one.
    pub fn operation(&self, number: u64) -> Option<&[u8]> {
        self.requests.get(&number)?.operation()
    }

    /// Notes that so many operations of its name are not that of the request of a number.
    pub fn pass_over(&mut self, number: u64, others: usize) {
        if let Some(request) = self.requests.get_mut(&number) {
            request.others = others;
        }
    }

    /// The request of a number.
    pub fn request(&self, number: u64) -> Option<&Request> {
        self.requests.get(&number)
    }

    /// Whether the request of a number waits.
    pub fn waits(&self, number: u64) -> bool {
        self.requests.contains_key(&number)
    }

    /// Whether the request of a number is asked for.
    pub fn is_chosen(&self, number: u64) -> bool {
        match self.requests.get(&number) {
            Some(request) => request.is_chosen,
            None => false,
        }
    }

    /// Keeps lines at the request of a number.
    pub fn keep(&mut self, number: u64, lines: &str) -> Result<(), AllocError> {
        match self.requests.get_mut(&number) {
            Some(request) => request.lines.push_str(lines),
            None => Ok(()),
        }
    }

    /// The lines that are kept at the request of a number.
    pub fn kept(&self, number: u64) -> &str {
        match self.requests.get(&number) {
            Some(request) => &request.lines,
            None => "",
        }
    }

    /// When the request of a number came, where that is known.
    pub fn time(&self, number: u64) -> Option<u64> {
        self.requests.get(&number)?.time
    }

    /// Those of these requests that were cancelled.
    pub fn cancelled_of(&self, alloc: Global, numbers: &[u64]) -> Result<Vec<u64>, AllocError> {
        let mut cancelled = Vec::new(alloc);
        for number in numbers {
            match self.requests.get(number) {
                Some(request) if request.is_cancelled => cancelled.push(*number)?,
                _ => {}
            }
        }
        Ok(cancelled)
    }
}
