//! A connection that is traced.

use crate::direction::{Direction, Reading};
use crate::frames::Came;
use crate::steps::Step;
use crate::stop::Stop;
use giop_core::Content;
use giop_lines::{Caught, Closing, Ending, Endpoints, Left, Stamp, later_time};
use giop_tap::{Sender, Trace};
use std::alloc::{AllocError, Global};

/// A connection that is traced: its number, its ends, and how far each side has been read.
#[derive(Drop)]
pub(crate) struct Open {
    /// From 1; 0 of none.
    pub number: u64,
    stream: Option<u64>,
    opener_address: Vec<u8>,
    acceptor_address: Vec<u8>,
    opener: Direction,
    acceptor: Direction,
    /// The packet of what came last of each side, with the latest time so far; none where packets are not known.
    opener_stamp: Option<Stamp>,
    acceptor_stamp: Option<Stamp>,
    /// How it ends, as far as is known: a message says more than TCP does.
    pub ending: Ending,
}

/// A stamp after an earlier one of the same side: octets count as come when all before them have.
fn stamp_after(earlier: Option<Stamp>, stamp: Stamp) -> Stamp {
    let time = match earlier {
        Some(earlier) => later_time(earlier.time, stamp.time),
        None => stamp.time,
    };
    Stamp {
        frame: stamp.frame,
        time,
    }
}

impl Open {
    /// None.
    pub fn none(alloc: Global) -> Open {
        Open {
            number: 0,
            stream: None,
            opener_address: Vec::new(alloc),
            acceptor_address: Vec::new(alloc),
            opener: Direction::new(alloc),
            acceptor: Direction::new(alloc),
            opener_stamp: None,
            acceptor_stamp: None,
            ending: Ending::Open,
        }
    }

    /// One of which nothing has come.
    pub fn new(alloc: Global, number: u64, ends: &Endpoints) -> Result<Open, AllocError> {
        Ok(Open {
            number,
            stream: ends.stream,
            opener_address: Vec::from_slice(alloc, ends.opener)?,
            acceptor_address: Vec::from_slice(alloc, ends.acceptor)?,
            opener: Direction::new(alloc),
            acceptor: Direction::new(alloc),
            opener_stamp: None,
            acceptor_stamp: None,
            ending: Ending::Open,
        })
    }

    /// Takes note of the packet in which what comes next of a side stands.
    pub fn set_stamp(&mut self, sender: Sender, stamp: Stamp) {
        match sender {
            Sender::Opener => self.opener_stamp = Some(stamp_after(self.opener_stamp, stamp)),
            Sender::Acceptor => self.acceptor_stamp = Some(stamp_after(self.acceptor_stamp, stamp)),
        }
    }

    /// Takes a step with octets of a side, and returns how many of them it took.
    pub fn step(
        &mut self,
        sender: Sender,
        reading: Reading,
        octets: &[u8],
        trace: &mut Trace,
    ) -> Result<(Step, usize), Stop> {
        match sender {
            Sender::Opener => self.opener.step(sender, reading, octets, trace),
            Sender::Acceptor => self.acceptor.step(sender, reading, octets, trace),
        }
    }

    /// Goes on behind octets of a side that the capture missed.
    pub fn miss(&mut self, sender: Sender, octets: u64, trace: &mut Trace) {
        match sender {
            Sender::Opener => self.opener.miss(sender, octets, trace),
            Sender::Acceptor => self.acceptor.miss(sender, octets, trace),
        }
    }

    /// What is left of a side at its end.
    pub fn left(&self, sender: Sender, trace: &mut Trace) -> Left {
        match sender {
            Sender::Opener => self.opener.left(sender, trace),
            Sender::Acceptor => self.acceptor.left(sender, trace),
        }
    }

    /// Whether a step of a side is due before more octets come.
    pub fn is_due(&self, sender: Sender) -> bool {
        match sender {
            Sender::Opener => self.opener.is_due(),
            Sender::Acceptor => self.acceptor.is_due(),
        }
    }

    /// How the last message of a side came.
    pub fn came(&self, sender: Sender) -> Came {
        match sender {
            Sender::Opener => self.opener.frames.last(),
            Sender::Acceptor => self.acceptor.frames.last(),
        }
    }

    /// How many octets of a side have come, those that the capture missed among them.
    pub fn end(&self, sender: Sender) -> u64 {
        match sender {
            Sender::Opener => self.opener.taken(),
            Sender::Acceptor => self.acceptor.taken(),
        }
    }

    /// Takes note of a message that ends it.
    pub fn hear(&mut self, content: &Content) {
        match content {
            Content::Close => self.ending = Ending::Close,
            Content::Error => self.ending = Ending::Error,
            _ => {}
        }
    }

    /// Takes note of a side that closes it.
    pub fn close(&mut self, closing: Closing) {
        self.ending = match (self.ending, closing) {
            (Ending::Open | Ending::Fin, Closing::Reset) => Ending::Reset,
            (Ending::Open, Closing::Fin) => Ending::Fin,
            (ending, _) => ending,
        };
    }

    /// The packet of what came last of a side.
    pub fn stamp(&self, sender: Sender) -> Option<Stamp> {
        match sender {
            Sender::Opener => self.opener_stamp,
            Sender::Acceptor => self.acceptor_stamp,
        }
    }

    /// When what came last of a side came, where that is known.
    pub fn time(&self, sender: Sender) -> Option<u64> {
        self.stamp(sender)?.time
    }

    /// What a capture tells of what came last of a side.
    pub fn caught(
        &self,
        sender: Sender,
        beginning: Option<u64>,
        latency: Option<u64>,
    ) -> Option<Caught<'_>> {
        let stamp = self.stamp(sender)?;
        Some(Caught {
            stamp,
            beginning,
            ends: Endpoints {
                stream: self.stream,
                opener: &self.opener_address,
                acceptor: &self.acceptor_address,
            },
            latency,
        })
    }
}
