//! Where a message may be cut (GIOP 9.4.9).

ghost use Rattle.std.specs.Prelude.{◌≡◌};
ghost use Rattle.giop_frames.specs.Frames.{cut_place, has_free_cuts, id_length, is_unaligned, may_be_cut};

use crate::passes::looking::frame_size;
use giop_core::{Header, Version};
use giop_frames::Cuts;

/// How many octets a request id has.
pub(crate) const ID_LEN: usize = 4;

/// How many octets of a Fragment come before its payload.
pub(crate) fn id_length(version: Version) -> usize
    ensures { result ≡ id_length version }
{
    if version.has_id_first() { ID_LEN } else { 0 }
}

/// The length modulo 8 of each frame of a cut message but the last (GIOP 9.4.9).
fn cut_place(version: Version) -> usize
    ensures { result ≡ cut_place version }
{
    (Header::LEN + id_length(version)) % 8
}

/// Whether messages of a version may be cut after any octet: those of 1.1, where the limits say so.
fn has_free_cuts(cuts: Cuts, version: Version) -> bool
    ensures { result ≡ has_free_cuts cuts version }
{
    match cuts {
        Cuts::Aligned => false,
        Cuts::Anywhere => !version.has_id_first(),
    }
}

/// Whether a message may be cut after a frame of so many octets.
fn may_be_cut(cuts: Cuts, version: Version, size: usize) -> bool
    ensures { result ≡ may_be_cut cuts version size }
{
    has_free_cuts(cuts, version) || size % 8 == cut_place(version)
}

/// Whether more frames follow one after which a message must not be cut.
pub(crate) fn is_unaligned(cuts: Cuts, header: &Header) -> bool
    ensures { result ≡ is_unaligned cuts header.now }
{
    header.more && !may_be_cut(cuts, header.version, frame_size(header))
}
