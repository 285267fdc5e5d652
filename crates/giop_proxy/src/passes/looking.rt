//! What octets are that begin where a frame begins: how many of a frame are kept, and where these end.

ghost use Rattle.std.specs.Prelude.{◌≡◌, ◌<◌, ◌≤◌, ◌++◌, length, take, IfOk};
ghost use Rattle.giop_frames.specs.Frames.{frame_size};
ghost use Rattle.giop_proxy.specs.Passing.{is_long, kept_size, over_size, sight};
ghost use Rattle.giop_proxy.specs.PassingPrivate.{IsExact, Needs, NeedsAsSeen, sight_at};

use giop_core::Header;
use giop_frames::{Limits, StreamFault};
use std::alloc::AllocError;

/// How many octets are kept at most of a frame that is longer than a message may be.
pub(crate) const KEPT: usize = 65_536;

/// What octets are that begin where a frame begins.
pub enum Seen {
    /// Too few: this many more are needed before anything can be judged.
    Waiting(usize),
    /// All that is kept of a frame under this header.
    Kept(Header),
    /// No frame: the fault of its header.
    Refused(StreamFault),
}

/// How many octets of a piece were taken, and what the buffered octets are then.
pub struct Gathered {
    pub taken: usize,
    pub seen: Seen,
}

/// How many octets the frame under a header has, those of the header among them.
pub(crate) fn frame_size(header: &Header) -> usize
    ensures { result ≡ frame_size header.now }
{
    Header::LEN + header.size as usize
}

/// Whether a frame is longer than a message may be.
pub(crate) fn is_long(limits: &Limits, header: &Header) -> bool
    ensures { result ≡ is_long limits.now header.now }
{
    (limits.message as usize) < frame_size(header)
}

/// How many octets of a frame are kept.
fn kept_size(limits: &Limits, header: &Header) -> usize
    ensures { result ≡ kept_size limits.now header.now }
{
    if is_long(limits, header) {
        (limits.message as usize).min(KEPT)
    } else {
        frame_size(header)
    }
}

/// How many octets of a frame are passed over.
pub(crate) fn over_size(limits: &Limits, header: &Header) -> usize
    ensures { result ≡ over_size limits.now header.now }
{
    frame_size(header) - kept_size(limits, header)
}

/// What octets are that begin where a frame begins.
fn look(limits: &Limits, octets: &[u8]) -> Seen
    ensures seen { sight_at result octets.now ≡ sight limits.now octets.now }
    ensures needed { NeedsAsSeen result limits.now octets.now }
{
    let Some(head) = octets.first_chunk::<{ Header::LEN }>() else {
        return Seen::Waiting(Header::LEN - octets.len());
    };
    match Header::read(head) {
        Err(fault) => Seen::Refused(StreamFault::Header(fault)),
        Ok(header) => {
            let size = kept_size(limits, &header);
            if octets.len() < size {
                Seen::Waiting(size - octets.len())
            } else {
                Seen::Kept(header)
            }
        }
    }
}

/// Buffers octets of a piece up to the next place where something can be judged, for which `needed` more
/// octets are needed.
pub(crate) fn gather(
    limits: &Limits,
    frame: &mut Vec<u8>,
    needed: usize,
    piece: &[u8],
) -> Result<Gathered, AllocError>
    requires needed { Needs limits.now frame.old.items needed }
    requires some { 0 < length piece.now }
    ensures octets { IfOk result (λ g. frame.new.items ≡ frame.old.items ++ take g.taken piece.now) }
    ensures taken { IfOk result (λ g. (0 < g.taken) × (g.taken ≤ length piece.now)) }
    ensures seen { IfOk result (λ g. sight_at g.seen frame.new.items ≡ sight limits.now frame.new.items) }
    ensures exact { IfOk result (λ g. IsExact limits.now frame.new.items (sight_at g.seen frame.new.items)) }
    ensures needed { IfOk result (λ g. NeedsAsSeen g.seen limits.now frame.new.items) }
{
    if piece.len() < needed {
        frame.extend_from_slice(piece)?;
        return Ok(Gathered {
            taken: piece.len(),
            seen: Seen::Waiting(needed - piece.len()),
        });
    }
    let (front, _) = piece.split_at(needed);
    frame.extend_from_slice(front)?;
    let seen = look(limits, frame.as_slice());
    Ok(Gathered {
        taken: needed,
        seen,
    })
}
