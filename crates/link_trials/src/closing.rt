//! `ServerLink::close`.

ghost use Rattle.std.specs.Prelude.{◌≡◌, ◌++◌};

use crate::limits::LEAST;
use crate::misses::link_miss;
use giop_link::ServerLink;
use std::alloc::Global;
use trials::{Miss, Output, Room, Sample, Trial, Wrong};

/// What has come of a message before the call.
const BEGUN: [u8; 5] = *b"GIOP\x01";

/// `close` of a link on which a part of a message has come. It writes the octets of a sample.
#[derive(Drop)]
pub struct Closing {
    sample: &'static Sample,
    link: ServerLink,
    output: Output,
}

impl Closing {
    /// The inputs.
    pub(crate) fn new(alloc: Global, sample: &'static Sample, room: Room) -> Result<Closing, Miss> {
        let mut link = ServerLink::new(alloc, LEAST);
        link.feed(&BEGUN).map_err(link_miss)?;
        Ok(Closing {
            sample,
            link,
            output: Output::new(alloc, room)?,
        })
    }
}

impl Trial for Closing {
    // The sample's octets stand after those from before.
    ghost is_right = { λ c. c.output.out.items ≡ c.output.before.now ++ c.sample.now.octets.now };

    fn call(&mut self, _alloc: Global) -> Result<(), Miss> {
        self.link.close(&mut self.output.out)?;
        if !self.link.is_closed() || self.link.held() > 0 {
            return Err(Wrong::Held.into());
        }
        if !self.output.has_gained(self.sample.octets) {
            return Err(Wrong::Octets.into());
        }
        Ok(())
    }

    fn is_unchanged(&self) -> bool {
        let is_open = !self.link.is_closed() && self.link.held() == BEGUN.len();
        is_open && self.output.has_gained(&[])
    }
}
