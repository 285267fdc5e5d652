//! Which side opened a connection whose beginning the capture may lack.

use crate::headers::header_in;
use giop_core::{Header, MessageKind};
use std::alloc::{AllocError, Global};

/// Whether a side asked so far, by the headers in its octets.
#[derive(Drop)]
pub(crate) struct Asking {
    /// How many octets of a frame are still to come.
    left: u64,
    /// Those that may be a header, and wait for the rest of it.
    head: Vec<u8>,
    /// Whether a Request or a LocateRequest came.
    pub asks: bool,
}

/// Whether a frame asks.
fn is_asking(header: &Header) -> bool {
    matches!(
        header.kind,
        MessageKind::Request | MessageKind::LocateRequest
    )
}

impl Asking {
    /// A side of which nothing has come.
    pub fn new(alloc: Global) -> Asking {
        Asking {
            left: 0,
            head: Vec::new(alloc),
            asks: false,
        }
    }

    /// Takes the next octet.
    fn hear_octet(&mut self, octet: u8) -> Result<(), AllocError> {
        if self.head.len() >= Header::LEN {
            self.head.remove(0);
        }
        self.head.push(octet)?;
        if let Some(header) = header_in(&self.head) {
            self.left = u64::from(header.size);
            self.asks = self.asks || is_asking(&header);
            self.head.clear();
        }
        Ok(())
    }

    /// Takes octets, until it asks.
    pub fn hear(&mut self, octets: &[u8]) -> Result<(), AllocError> {
        for octet in octets {
            if self.left > 0 {
                self.left -= 1;
            } else if !self.asks {
                self.hear_octet(*octet)?;
            }
        }
        Ok(())
    }

    /// Leaves so many octets out, which the capture missed.
    pub fn miss(&mut self, octets: u64) {
        self.left = self.left.saturating_sub(octets);
        self.head.clear();
    }
}
