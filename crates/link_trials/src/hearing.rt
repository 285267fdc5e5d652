//! The server's end of a connection that is fed with the streams of samples.

ghost use Rattle.std.specs.Prelude.{◌<◌, ◌++◌, List, ℕ, OnOk};
ghost use Rattle.giop_frames.specs.declared.limits.Limits.{Limits};
ghost use Rattle.giop_link.specs.Linking.{LinkStands};

use crate::limits::LEAST;
use crate::misses::link_miss;
use giop_link::{Inbound, LinkFault, ServerLink};
use std::alloc::Global;
use trials::{Miss, Sample, Trial, check_printed};

/// What a link lends of a stream, and what it is after it, as samples print it.
#[derive(Clone, Copy, Debug)]
struct Heard {
    /// How many requests are lent.
    requests: u32,
    /// The id of the last, if there is one.
    id: Option<u32>,
    /// How many octets the link holds.
    held: usize,
    /// Whether it is closed.
    is_closed: bool,
}

impl Heard {
    /// Notes what a call of `feed` left.
    fn note(&mut self, link: &ServerLink) {
        self.held = link.held();
        self.is_closed = link.is_closed();
        if let Some(Inbound::Request(_, request)) = link.inbound() {
            self.requests = self.requests.saturating_add(1);
            self.id = Some(request.request_id);
        }
    }
}

/// Feeds octets in pieces of at most `size` octets.
fn feed_octets(
    link: &mut ServerLink,
    octets: &[u8],
    size: usize,
    heard: &mut Heard,
) -> Result<(), LinkFault>
    requires some { 0 < size }
    ensures stands { (limits : Limits) (s : List ℕ) → LinkStands limits link.old s → OnOk result (LinkStands limits link.new (s ++ octets.now)) }
{
    let mut taken = 0;
    while taken < octets.len() {
        let (_, left) = octets.split_at(taken);
        let (piece, _) = left.split_at(size.min(left.len()));
        taken += link.feed(piece)?;
        heard.note(link);
    }
    Ok(())
}

/// A new link that is fed the octets of a sample, in pieces of `size` octets.
#[derive(Drop)]
pub struct Hearing {
    sample: &'static Sample,
    size: usize,
    link: ServerLink,
    /// How many octets the link took of one more, after an allocation was refused.
    further: Option<usize>,
}

impl Hearing {
    /// The inputs.
    pub(crate) fn new(alloc: Global, sample: &'static Sample, size: usize) -> Hearing {
        Hearing {
            sample,
            size,
            link: ServerLink::new(alloc, LEAST),
            further: None,
        }
    }
}

impl Trial for Hearing {
    // The link stands for the octets of the sample.
    ghost is_right = { λ h. LinkStands h.link.limits h.link h.sample.now.octets.now };

    fn call(&mut self, alloc: Global) -> Result<(), Miss> {
        self.link = ServerLink::new(alloc, LEAST);
        let mut heard = Heard {
            requests: 0,
            id: None,
            held: 0,
            is_closed: false,
        };
        let octets = self.sample.octets;
        let end = feed_octets(&mut self.link, octets, self.size.max(1), &mut heard);
        if end.is_err() {
            self.further = self.link.feed(&[0]).ok();
        }
        end.map_err(link_miss)?;
        Ok(check_printed(self.sample, &heard)?)
    }

    /// What `feed` promises after an allocation was refused: the link is closed, takes all that comes, lends
    /// no message and holds nothing. The octets are lent, and can't change.
    fn is_unchanged(&self) -> bool {
        let is_closed = self.link.is_closed() && self.further == Some(1);
        is_closed && self.link.held() == 0 && self.link.inbound().is_none()
    }
}
