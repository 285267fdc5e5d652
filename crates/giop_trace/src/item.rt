//! A packet, by its lines.

use crate::block::Piece;
use crate::notes::missing_in;
use crate::stop::Stop;
use crate::yaml::octets_in;
use base64::DecodeAllocError;
use giop_lines::{Closing, Stamp};
use giop_tap::Sender;
use std::alloc::Global;

/// A packet, as far as its lines have come.
#[derive(Drop)]
pub(crate) struct Item {
    number: u64,
    /// The key of its connection.
    pub key: u64,
    /// The number of its first line.
    pub line: u64,
    pub sender: Option<Sender>,
    pub time: Option<u64>,
    pub missing: Option<u64>,
    pub closing: Option<Closing>,
    /// The digits of its octets.
    pub digits: Vec<u8>,
}

/// What a packet gives of a side of a connection.
#[derive(Drop)]
pub(crate) struct Given {
    pub key: u64,
    pub sender: Sender,
    pub stamp: Stamp,
    pub piece: Piece,
}

impl Item {
    /// A packet of which nothing is known but its number.
    pub fn new(alloc: Global, number: u64, key: u64, line: u64) -> Item {
        Item {
            number,
            key,
            line,
            sender: None,
            time: None,
            missing: None,
            closing: None,
            digits: Vec::new(alloc),
        }
    }

    /// What its octets are: those that the capture missed, where tshark says so in their place.
    fn octets(&self, alloc: Global) -> Result<Piece, Stop> {
        match octets_in(alloc, &self.digits) {
            Ok(octets) => match missing_in(&octets) {
                Some(count) => Ok(Piece::Missing(count)),
                None => Ok(Piece::Octets(octets)),
            },
            Err(DecodeAllocError::OutOfMemory) => Err(Stop::Memory),
            Err(_) => Err(Stop::Base64(self.line)),
        }
    }

    /// What it gives.
    fn piece(&self, alloc: Global) -> Result<Piece, Stop> {
        if let Some(octets) = self.missing {
            return Ok(Piece::Missing(octets));
        }
        match self.closing {
            Some(closing) => Ok(Piece::Closed(closing)),
            None => self.octets(alloc),
        }
    }

    /// What it gives of which side.
    pub fn given(&self, alloc: Global) -> Result<Given, Stop> {
        let Some(sender) = self.sender else {
            return Err(Stop::Yaml(self.line));
        };
        Ok(Given {
            key: self.key,
            sender,
            stamp: Stamp {
                frame: self.number,
                time: self.time,
            },
            piece: self.piece(alloc)?,
        })
    }
}
