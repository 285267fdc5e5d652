//! An assembler that is fed with the streams of samples.

ghost use Rattle.std.specs.Prelude.{◌≡◌, ◌↔◌, ◌<◌, ◌≤◌, ◌++◌, length, List, None, ℕ, IsTrue, OnOk};
ghost use Rattle.giop_frames.specs.Standing.{StandsFor, octets_held};

use giop_core::{Content, Message};
use giop_frames::{Assembler, Cuts, Limits, StreamFault};
use std::alloc::Global;
use trials::{Miss, Sample, Trial, Wrong, check_printed};

/// The least limits.
const LEAST: Limits = Limits {
    message: 4096,
    partials: 1,
    cuts: Cuts::Aligned,
};

/// How many octets an assembler may hold under these limits: a message and a partial one.
const MOST: usize = 8192;

/// What was seen of the messages that octets complete.
#[derive(Clone, Copy)]
struct Seen {
    /// How many there are.
    messages: u32,
    /// The request id of the last, if it has one.
    id: Option<u32>,
    /// The most octets that were held after a call of `feed`.
    most: usize,
}

/// What a stream gives, as samples print it.
#[derive(Clone, Copy, Debug)]
struct Given {
    /// How many messages complete.
    messages: u32,
    /// The request id of the last, if it has one.
    id: Option<u32>,
    /// How many octets there are of the frame that is not whole.
    pending: usize,
    /// How many messages are partial.
    partial: usize,
    /// The fault after the messages, if there is one.
    fault: Option<StreamFault>,
}

/// The request id of a message, if it has one.
fn id_of(message: &Message) -> Option<u32> {
    match &message.content {
        Content::Request(request) => Some(request.request_id),
        Content::Reply(reply) => Some(reply.request_id),
        Content::Cancel(cancel) => Some(cancel.request_id),
        Content::LocateRequest(request) => Some(request.request_id),
        Content::LocateReply(reply) => Some(reply.request_id),
        Content::Close | Content::Error => None,
        Content::Fragment(fragment) => fragment.request_id,
    }
}

impl Seen {
    /// Notes what a call of `feed` left.
    fn note(&mut self, assembler: &Assembler) {
        self.most = self.most.max(assembler.held());
        if let Some(message) = assembler.message() {
            self.messages = self.messages.saturating_add(1);
            self.id = id_of(&message);
        }
    }
}

/// Feeds octets in pieces of at most `size` octets.
fn feed_octets(
    assembler: &mut Assembler,
    octets: &[u8],
    size: usize,
    seen: &mut Seen,
) -> Result<(), StreamFault>
    requires some { 0 < size }
    ensures stands { (s : List ℕ) → StandsFor assembler.old s → OnOk result (StandsFor assembler.new (s ++ octets.now)) }
{
    let mut taken = 0;
    while taken < octets.len() {
        let (_, left) = octets.split_at(taken);
        let (piece, _) = left.split_at(size.min(left.len()));
        taken += assembler.feed(piece)?;
        seen.note(assembler);
    }
    Ok(())
}

/// Feeds the octets of a sample in pieces of `size` octets, and compares what they give.
fn feed_sample(assembler: &mut Assembler, sample: &Sample, size: usize) -> Result<(), Miss> {
    let mut seen = Seen {
        messages: 0,
        id: None,
        most: 0,
    };
    let end = feed_octets(assembler, sample.octets, size.max(1), &mut seen);
    let given = Given {
        messages: seen.messages,
        id: seen.id,
        pending: assembler.pending(),
        partial: assembler.partial(),
        fault: end.err(),
    };
    if given.fault == Some(StreamFault::Memory) {
        return Err(Miss::Memory);
    }
    if seen.most > MOST {
        return Err(Wrong::Held.into());
    }
    Ok(check_printed(sample, &given)?)
}

/// Feeds the octets of a sample that many times, and compares what they give each time.
fn feed_again(
    assembler: &mut Assembler,
    sample: &Sample,
    times: u32,
    size: usize,
) -> Result<(), Miss> {
    for _ in 0..times {
        feed_sample(assembler, sample, size)?;
    }
    Ok(())
}

/// A new assembler that is fed the octets of a sample `times` times, in pieces of `size` octets.
#[derive(Drop)]
pub struct Feeding {
    sample: &'static Sample,
    times: u32,
    size: usize,
    assembler: Assembler,
    /// What the assembler answered to one octet more, after an allocation was refused.
    further: Option<StreamFault>,
}

impl Feeding {
    /// The inputs.
    pub(crate) fn new(alloc: Global, sample: &'static Sample, times: u32, size: usize) -> Feeding {
        Feeding {
            sample,
            times,
            size,
            assembler: Assembler::new(alloc, LEAST),
            further: None,
        }
    }
}

/// Whether an assembler holds no octet and no message, and lends none.
fn is_bare(assembler: &Assembler) -> bool
    ensures { IsTrue result ↔ ((octets_held assembler.now ≡ 0) × (length assembler.now.pending ≡ 0) × (length assembler.now.parts ≡ 0) × (assembler.now.message ≡ None)) }
{
    let is_empty = assembler.held() == 0 && assembler.pending() == 0 && assembler.partial() == 0;
    is_empty && assembler.message().is_none()
}

impl Trial for Feeding {
    // The assembler holds no more than two messages may have.
    ghost is_right = { λ f. octets_held f.assembler ≤ 8192 };

    fn call(&mut self, alloc: Global) -> Result<(), Miss> {
        self.assembler = Assembler::new(alloc, LEAST);
        let end = feed_again(&mut self.assembler, self.sample, self.times, self.size);
        if end == Err(Miss::Memory) {
            self.further = self.assembler.feed(&[0]).err();
        }
        end?;
        if self.assembler.held() > MOST {
            return Err(Wrong::Held.into());
        }
        Ok(())
    }

    /// What `feed` promises after an allocation was refused: each call answers `Failed`, and the assembler
    /// lends no message and holds nothing. The octets are lent, and can't change.
    fn is_unchanged(&self) -> bool {
        self.further == Some(StreamFault::Failed) && is_bare(&self.assembler)
    }
}
