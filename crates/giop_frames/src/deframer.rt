//! Octets to frames: octets are buffered up to the next place where something can be judged.

ghost use Rattle.std.specs.Prelude.{◌≡◌, ◌+◌, ◌<◌, ◌≤◌, ◌++◌, length, take, IfOk, []};
ghost use Rattle.giop_core.specs.Headers.{header_of};
ghost use Rattle.giop_frames.specs.Frames.{admitted, cut_place, frame_size, has_free_cuts, id_length, is_unaligned, judged_header, may_be_cut, sight};
ghost use Rattle.giop_frames.specs.Private.{Needs, IsExact, NeedsAsSeen, sight_at};

use crate::fault::StreamFault;
use crate::limits::{Cuts, Limits};
use giop_core::{Header, Version};
use std::alloc::AllocError;

/// What octets are that begin where a frame begins.
pub enum Seen {
    /// Too few: this many more are needed before anything can be judged.
    Waiting(usize),
    /// A whole frame under this header.
    Whole(Header),
    /// No frame: the fault of its header.
    Refused(StreamFault),
}

/// How many octets of a piece were taken, and what the buffered octets are then.
pub struct Gathered {
    pub taken: usize,
    pub seen: Seen,
}

/// How many octets the frame under a header has, those of the header among them.
pub(crate) fn frame_size(header: &Header) -> usize
    ensures { result ≡ frame_size header.now }
{
    Header::LEN + header.size as usize
}

/// How many octets a request id has.
pub(crate) const ID_LEN: usize = 4;

/// How many octets of a Fragment come before its payload.
pub(crate) fn id_length(version: Version) -> usize
    ensures { result ≡ id_length version }
{
    if version.has_id_first() { ID_LEN } else { 0 }
}

/// The length modulo 8 of each frame of a cut message but the last, with which the payload of a Fragment stands, modulo 8,
/// where it stands in the whole message: in 1.2 it is GIOP 9.4.9's, in 1.1 own rule.
fn cut_place(version: Version) -> usize
    ensures { result ≡ cut_place version }
{
    (Header::LEN + id_length(version)) % 8
}

/// Whether messages of a version may be cut after any octet: those of 1.1, where the limits say so.
fn has_free_cuts(cuts: Cuts, version: Version) -> bool
    ensures { result ≡ has_free_cuts cuts version }
{
    match cuts {
        Cuts::Aligned => false,
        Cuts::Anywhere => !version.has_id_first(),
    }
}

/// Whether a message may be cut after a frame of so many octets.
fn may_be_cut(cuts: Cuts, version: Version, size: usize) -> bool
    ensures { result ≡ may_be_cut cuts version size }
{
    has_free_cuts(cuts, version) || size % 8 == cut_place(version)
}

/// Whether more frames follow one after which a message must not be cut.
fn is_unaligned(cuts: Cuts, header: &Header) -> bool
    ensures { result ≡ is_unaligned cuts header.now }
{
    header.more && !may_be_cut(cuts, header.version, frame_size(header))
}

/// Judges a header by itself, in the order that this project sets.
fn admit(limits: &Limits, header: Header) -> Result<Header, StreamFault>
    ensures { result ≡ admitted limits.now header }
{
    if (limits.message as usize) < frame_size(&header) {
        return Err(StreamFault::TooLarge);
    }
    if is_unaligned(limits.cuts, &header) {
        return Err(StreamFault::UnalignedFragment);
    }
    Ok(header)
}

/// Judges the first twelve octets of a frame.
#[inline(always)]
pub(crate) fn judge(limits: &Limits, octets: &[u8; 12]) -> Result<Header, StreamFault>
    ensures { result ≡ judged_header limits.now (header_of octets.now) }
{
    let header = Header::read(octets)?;
    admit(limits, header)
}

/// What octets are that begin where a frame begins.
#[inline(never)]
fn look(limits: &Limits, octets: &[u8]) -> Seen
    ensures seen { sight_at result octets.now ≡ sight limits.now octets.now }
    ensures needed { NeedsAsSeen result limits.now octets.now }
{
    let Some(head) = octets.first_chunk::<{ Header::LEN }>() else {
        return Seen::Waiting(Header::LEN - octets.len());
    };
    match judge(limits, head) {
        Err(fault) => Seen::Refused(fault),
        Ok(header) => {
            let size = frame_size(&header);
            if octets.len() < size {
                Seen::Waiting(size - octets.len())
            } else {
                Seen::Whole(header)
            }
        }
    }
}

/// Buffers the octets of a frame that begins where a piece begins: up to the frame's end, or to that of its
/// header, where it is refused, or to the piece's. The header is judged in the piece, and the buffer grows
/// once.
#[inline(always)]
fn gather_first(
    limits: &Limits,
    frame: &mut Vec<u8>,
    head: &[u8; 12],
    piece: &[u8],
) -> Result<Gathered, AllocError>
    requires empty { frame.old.items ≡ [] }
    requires long { 12 ≤ length piece.now }
    requires head { head.now ≡ take 12 piece.now }
    ensures octets { IfOk result (λ g. frame.new.items ≡ take g.taken piece.now) }
    ensures taken { IfOk result (λ g. (0 < g.taken) × (g.taken ≤ length piece.now)) }
    ensures seen { IfOk result (λ g. sight_at g.seen frame.new.items ≡ sight limits.now frame.new.items) }
    ensures exact { IfOk result (λ g. IsExact frame.new.items (sight_at g.seen frame.new.items)) }
    ensures needed { IfOk result (λ g. NeedsAsSeen g.seen limits.now frame.new.items) }
{
    let header = match judge(limits, head) {
        Ok(header) => header,
        Err(fault) => {
            frame.extend_from_slice(head)?;
            return Ok(Gathered {
                taken: Header::LEN,
                seen: Seen::Refused(fault),
            });
        }
    };
    let size = frame_size(&header);
    if piece.len() < size {
        frame.extend_from_slice(piece)?;
        return Ok(Gathered {
            taken: piece.len(),
            seen: Seen::Waiting(size - piece.len()),
        });
    }
    let (front, _) = piece.split_at(size);
    frame.extend_from_slice(front)?;
    Ok(Gathered {
        taken: size,
        seen: Seen::Whole(header),
    })
}

/// Buffers octets of a piece up to the next place where something can be judged, for which `needed` more
/// octets are needed.
pub(crate) fn gather(
    limits: &Limits,
    frame: &mut Vec<u8>,
    needed: usize,
    piece: &[u8],
) -> Result<Gathered, AllocError>
    requires needed { Needs limits.now frame.old.items needed }
    requires some { 0 < length piece.now }
    ensures octets { IfOk result (λ g. frame.new.items ≡ frame.old.items ++ take g.taken piece.now) }
    ensures taken { IfOk result (λ g. (0 < g.taken) × (g.taken ≤ length piece.now)) }
    ensures seen { IfOk result (λ g. sight_at g.seen frame.new.items ≡ sight limits.now frame.new.items) }
    ensures exact { IfOk result (λ g. IsExact frame.new.items (sight_at g.seen frame.new.items)) }
    ensures needed { IfOk result (λ g. NeedsAsSeen g.seen limits.now frame.new.items) }
{
    if piece.len() < needed {
        frame.extend_from_slice(piece)?;
        return Ok(Gathered {
            taken: piece.len(),
            seen: Seen::Waiting(needed - piece.len()),
        });
    }
    if frame.is_empty() {
        if let Some(head) = piece.first_chunk::<{ Header::LEN }>() {
            return gather_first(limits, frame, head, piece);
        }
    }
    let (front, _) = piece.split_at(needed);
    frame.extend_from_slice(front)?;
    let seen = look(limits, frame.as_slice());
    Ok(Gathered {
        taken: needed,
        seen,
    })
}
