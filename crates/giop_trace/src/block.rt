//! A connection as the input tells of it: its stream, its two ends, and what was held of its octets.

use crate::opening::Asking;
use giop_lines::{Closing, Stamp};
use giop_tap::Sender;
use std::alloc::{AllocError, Global};

/// What a line gives of a side.
#[derive(Drop)]
pub(crate) enum Piece {
    /// These octets.
    Octets(Vec<u8>),
    /// So many octets that the capture missed.
    Missing(u64),
    /// The end of all octets: the side closed the connection.
    Closed(Closing),
}

/// A connection as the input tells of it.
#[derive(Drop)]
pub(crate) struct Block {
    alloc: Global,
    /// The number of its stream in the capture.
    pub stream: Option<u64>,
    /// The address of the one whose lines have no tab; empty where none stands there.
    pub first: Vec<u8>,
    /// That of the other.
    pub second: Vec<u8>,
    /// What is held of it, with the packets that it came in where they are known.
    pub pieces: Vec<(Sender, Option<Stamp>, Piece)>,
    /// Whether its line was printed, and what comes is traced at once.
    pub is_traced: bool,
    /// Whether the sides were turned round.
    pub is_turned: bool,
    /// How many octets of memory it takes, about.
    pub held: u64,
    asking: Asking,
    asked: Asking,
}

/// So many octets of memory are taken at most until it is known which side opened the connection.
const MOST_HELD: u64 = 4_194_304;

/// So many octets of memory a connection takes of which nothing is held, about.
const EMPTY: u64 = 512;

/// So many octets of memory what a line gives takes beside its octets, about.
const APART: u64 = 64;

impl Piece {
    /// How many octets of memory it takes, about.
    pub fn size(&self) -> u64 {
        match self {
            Piece::Octets(octets) => APART.saturating_add(octets.len() as u64),
            Piece::Missing(_) | Piece::Closed(_) => APART,
        }
    }
}

/// Takes what a line gives of a side, to know whether it asks.
fn hear_piece(side: &mut Asking, piece: &Piece) -> Result<(), AllocError> {
    match piece {
        Piece::Octets(octets) => side.hear(octets),
        Piece::Missing(octets) => {
            side.miss(*octets);
            Ok(())
        }
        Piece::Closed(_) => Ok(()),
    }
}

impl Block {
    /// One of which nothing is known.
    pub fn new(alloc: Global) -> Block {
        Block {
            alloc,
            stream: None,
            first: Vec::new(alloc),
            second: Vec::new(alloc),
            pieces: Vec::new(alloc),
            is_traced: false,
            is_turned: false,
            held: EMPTY,
            asking: Asking::new(alloc),
            asked: Asking::new(alloc),
        }
    }

    /// Takes the address of an end.
    pub fn set_node(&mut self, is_second: bool, address: &[u8]) -> Result<(), AllocError> {
        let address = Vec::from_slice(self.alloc, address)?;
        match is_second {
            true => self.second = address,
            false => self.first = address,
        }
        Ok(())
    }

    /// Appends a part of the address of an end: the host, or behind a colon the port. A host that has colons stands in
    /// brackets.
    pub fn add_to_node(
        &mut self,
        end: Sender,
        is_port: bool,
        part: &[u8],
    ) -> Result<(), AllocError> {
        let address = match end {
            Sender::Opener => &mut self.first,
            Sender::Acceptor => &mut self.second,
        };
        let (before, after): (&[u8], &[u8]) = match is_port {
            true => (b":", b""),
            false if part.contains(&b':') => (b"[", b"]"),
            false => (b"", b""),
        };
        address.extend_from_slice(before)?;
        address.extend_from_slice(part)?;
        address.extend_from_slice(after)
    }

    /// The packet of what is held that came first.
    pub fn first_stamp(&self) -> Option<Stamp> {
        match self.pieces.first() {
            Some((_, stamp, _)) => *stamp,
            None => None,
        }
    }

    /// Whether tshark says that the capture has no such stream.
    pub fn is_absent(&self) -> bool {
        self.pieces.is_empty()
            && !self.is_traced
            && self.first.as_slice() == b":0".as_slice()
            && self.second.as_slice() == b":0".as_slice()
    }

    /// Takes the number of its stream, before it is traced.
    pub fn set_stream(&mut self, stream: u64) {
        if !self.is_traced {
            self.stream = Some(stream);
        }
    }

    /// Whether others come before it.
    pub fn is_behind(&self, next: u64) -> bool {
        match self.stream {
            Some(stream) => stream > next && !self.is_traced,
            None => false,
        }
    }

    /// Takes note of who asks.
    fn hear(&mut self, sender: Sender, piece: &Piece) -> Result<(), AllocError> {
        match sender {
            Sender::Opener => hear_piece(&mut self.asking, piece),
            Sender::Acceptor => hear_piece(&mut self.asked, piece),
        }
    }

    /// Holds what a line gives.
    pub fn hold(
        &mut self,
        sender: Sender,
        stamp: Option<Stamp>,
        piece: Piece,
    ) -> Result<(), AllocError> {
        self.hear(sender, &piece)?;
        self.held = self.held.saturating_add(piece.size());
        self.pieces.push((sender, stamp, piece))?;
        Ok(())
    }

    /// Whether it is known which side opened it: the first, unless both ends are named and it asks nothing as far as
    /// the octets are held.
    pub fn is_known(&self) -> bool {
        self.asking.asks || !self.has_ends() || self.held > MOST_HELD
    }

    /// Whether both ends are named.
    fn has_ends(&self) -> bool {
        !self.first.is_empty() && !self.second.is_empty()
    }

    /// Decides which side opened it: the second, where it alone asks as far as is known, since it is the client then
    /// and the capture begins amid the connection.
    pub fn decide(&mut self) {
        self.is_turned = self.has_ends() && self.asked.asks && !self.asking.asks;
    }

    /// The side that sent what stands in lines of this one.
    pub fn side_of(&self, sender: Sender) -> Sender {
        if self.is_turned {
            sender.peer()
        } else {
            sender
        }
    }

    /// The addresses of the side that opened it and of the other.
    pub fn ends(&self) -> (&[u8], &[u8]) {
        match self.is_turned {
            true => (&self.second, &self.first),
            false => (&self.first, &self.second),
        }
    }
}
