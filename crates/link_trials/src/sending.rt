//! The calls by which a client's link sends.

ghost use Rattle.std.specs.Prelude.{◌≡◌, ◌++◌};

use crate::limits::LEAST;
use crate::misses::send_miss;
use cdr_core::Val;
use giop_core::{ReplyWish, Target, Version};
use giop_link::ClientLink;
use std::alloc::Global;
use trials::{Miss, Output, Room, Sample, Trial, Wrong};

/// What a link sends.
#[derive(Clone, Copy)]
pub enum Sent {
    /// A request of key `c`, operation `add` and the octets 0 0 0 7, whose reply is wanted.
    Request,
    /// A locate of key `c`.
    Locate,
    /// A cancel of such a request.
    Cancel,
}

/// Sends such a request.
#[tactic(auto, using(crate::proofs::Asked::full_can_ask, crate::proofs::Asked::key_can_address))]
pub(crate) fn ask(link: &mut ClientLink, out: &mut Vec<u8>) -> Result<u32, Miss> {
    link.send_request(
        ReplyWish::Full,
        &Target::Key(b"c"),
        b"add",
        &[],
        &[Val::ULong(7)],
        out,
    )
    .map_err(send_miss)
}

/// Sends such a locate.
#[tactic(auto, using(crate::proofs::Asked::key_can_address))]
fn locate(link: &mut ClientLink, out: &mut Vec<u8>) -> Result<u32, Miss> {
    link.send_locate(&Target::Key(b"c"), out).map_err(send_miss)
}

/// A link on which a call is made. It writes the octets of a sample.
#[derive(Drop)]
pub struct Sending {
    sent: Sent,
    sample: &'static Sample,
    link: ClientLink,
    /// How many ids are outstanding before the call.
    before: usize,
    output: Output,
}

impl Sending {
    /// The inputs.
    pub(crate) fn new(
        alloc: Global,
        sample: &'static Sample,
        sent: Sent,
        room: Room,
    ) -> Result<Sending, Miss> {
        let mut link = ClientLink::new(alloc, LEAST, Version::V12, 2);
        if matches!(sent, Sent::Cancel) {
            ask(&mut link, &mut Vec::new(alloc))?;
        }
        Ok(Sending {
            sent,
            sample,
            before: link.outstanding(),
            link,
            output: Output::new(alloc, room)?,
        })
    }

    /// Makes the call. Whether it gives the first id, or that this id was outstanding.
    fn send(&mut self) -> Result<bool, Miss> {
        let out = &mut self.output.out;
        match self.sent {
            Sent::Request => Ok(ask(&mut self.link, out)? == 1),
            Sent::Locate => Ok(locate(&mut self.link, out)? == 1),
            Sent::Cancel => Ok(self.link.cancel(1, out)?),
        }
    }
}

impl Trial for Sending {
    // The sample's octets stand after those from before.
    ghost is_right = { λ s. s.output.out.items ≡ s.output.before.now ++ s.sample.now.octets.now };

    fn call(&mut self, _alloc: Global) -> Result<(), Miss> {
        if !self.send()? || self.link.outstanding() == self.before {
            return Err(Wrong::Value.into());
        }
        if !self.output.has_gained(self.sample.octets) {
            return Err(Wrong::Octets.into());
        }
        Ok(())
    }

    fn is_unchanged(&self) -> bool {
        let is_open = !self.link.is_closed() && self.link.outstanding() == self.before;
        is_open && self.output.has_gained(&[])
    }
}
