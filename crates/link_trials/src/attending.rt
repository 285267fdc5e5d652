//! The client's end of a connection that is fed with the streams of samples.

use crate::limits::LEAST;
use crate::misses::link_miss;
use crate::sending::ask;
use giop_core::Version;
use giop_link::{ClientLink, Delivery, LinkFault};
use std::alloc::Global;
use trials::{Miss, Sample, Trial, check_printed};

/// What a link lends of a stream, and what it is after it, as samples print it.
#[derive(Clone, Copy, Debug)]
struct Attended {
    /// How many replies are lent.
    replies: u32,
    /// The id of the last, if there is one.
    id: Option<u32>,
    /// How many ids are outstanding.
    outstanding: usize,
    /// How many octets the link holds.
    held: usize,
    /// Whether it has ended.
    is_closed: bool,
}

impl Attended {
    /// Notes what a call of `feed` left.
    fn note(&mut self, link: &ClientLink) {
        self.outstanding = link.outstanding();
        self.held = link.held();
        self.is_closed = link.is_closed();
        if let Some(Delivery::Reply(id, _, _)) = link.delivery() {
            self.replies = self.replies.saturating_add(1);
            self.id = Some(id);
        }
    }
}

/// Feeds a piece.
fn feed_piece(
    link: &mut ClientLink,
    piece: &[u8],
    attended: &mut Attended,
) -> Result<(), LinkFault> {
    let mut left = piece;
    for _ in 0..piece.len() {
        let taken = link.feed(left)?;
        attended.note(link);
        left = left.split_at(taken).1;
        if left.is_empty() {
            break;
        }
    }
    Ok(())
}

/// Feeds octets in pieces of at most `size` octets.
fn feed_octets(
    link: &mut ClientLink,
    octets: &[u8],
    size: usize,
    attended: &mut Attended,
) -> Result<(), LinkFault> {
    for piece in octets.chunks(size.max(1)) {
        feed_piece(link, piece, attended)?;
    }
    Ok(())
}

/// A new link, on which a request was sent, that is fed the octets of a sample, in pieces of `size` octets.
#[derive(Drop)]
pub struct Attending {
    sample: &'static Sample,
    size: usize,
    link: ClientLink,
    /// Whether a call of `feed` failed, and how many octets the link took of one more after it.
    further: Option<Option<usize>>,
}

impl Attending {
    /// The inputs.
    pub(crate) fn new(alloc: Global, sample: &'static Sample, size: usize) -> Attending {
        Attending {
            sample,
            size,
            link: ClientLink::new(alloc, LEAST, Version::V12, 2),
            further: None,
        }
    }
}

impl Trial for Attending {
    fn call(&mut self, alloc: Global) -> Result<(), Miss> {
        self.link = ClientLink::new(alloc, LEAST, Version::V12, 2);
        self.further = None;
        ask(&mut self.link, &mut Vec::new(alloc))?;
        let mut attended = Attended {
            replies: 0,
            id: None,
            outstanding: 0,
            held: 0,
            is_closed: false,
        };
        let octets = self.sample.octets;
        let end = feed_octets(&mut self.link, octets, self.size, &mut attended);
        if end.is_err() {
            self.further = Some(self.link.feed(&[0]).ok());
        }
        end.map_err(link_miss)?;
        Ok(check_printed(self.sample, &attended)?)
    }

    /// What is promised after an allocation was refused. Where the request was not sent, nothing has changed.
    /// Where `feed` failed, the link has ended: no id is outstanding, and it takes all that comes, lends nothing
    /// and holds nothing. The octets are lent, and can't change.
    fn is_unchanged(&self) -> bool {
        let is_idle = self.link.outstanding() == 0 && self.link.held() == 0;
        match self.further {
            None => is_idle && !self.link.is_closed(),
            Some(taken) => {
                let is_ended = self.link.is_closed() && taken == Some(1);
                is_idle && is_ended && self.link.delivery().is_none()
            }
        }
    }
}
