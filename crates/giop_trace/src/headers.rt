//! The headers of frames, as far as reading goes on by them.

ghost use Rattle.std.specs.Prelude.{◌≡◌};
ghost use Rattle.giop_frames.specs.declared.limits.Cuts.TheVariants.{Aligned};
ghost use Rattle.giop_frames.specs.Frames.{cut_place, is_unaligned};

use giop_core::{Header, MessageKind, Version};

/// How many octets a header has.
pub(crate) const HEADER: u64 = Header::LEN as u64;

/// The header that octets are, if they are one.
pub(crate) fn header_in(octets: &[u8]) -> Option<Header> {
    let head = octets.first_chunk::<{ Header::LEN }>()?;
    Header::read(head).ok()
}

/// Whether octets are the header of a message that can come by itself: it is no Fragment, it is within the limit, and a
/// message that is its header alone has no more octets (own rule).
pub(crate) fn is_plausible(octets: &[u8], limit: u32) -> bool {
    let Some(header) = header_in(octets) else {
        return false;
    };
    match header.kind {
        MessageKind::Fragment => false,
        MessageKind::CloseConnection | MessageKind::MessageError => header.size == 0,
        _ => u64::from(header.size) + HEADER <= u64::from(limit),
    }
}

/// Whether a frame with this header is a Fragment.
pub(crate) fn is_fragment(octets: &[u8]) -> bool {
    matches!(
        header_in(octets),
        Some(Header {
            kind: MessageKind::Fragment,
            ..
        })
    )
}

/// What the octets of a frame leave, divided by 8, where more frames follow and the cut is aligned (GIOP 9.4.9; in 1.1 own
/// rule).
fn cut_place(version: Version) -> u64
    ensures { result ≡ cut_place version }
{
    match version {
        Version::V10 | Version::V11 => 4,
        Version::V12 => 0,
    }
}

/// Whether more frames follow one where an aligned cut would not let them.
pub(crate) fn is_unaligned(header: &Header) -> bool
    ensures { result ≡ is_unaligned Aligned header.now }
{
    header.more && (HEADER + u64::from(header.size)) % 8 != cut_place(header.version)
}

/// Whether a frame with this header begins a message of 1.1 that is cut. Where one is cut otherwise than is read here,
/// its frames are known all the same, up to and with the Fragment that is its last (GIOP 9.4.1).
pub(crate) fn is_cut(octets: &[u8]) -> bool {
    matches!(
        header_in(octets),
        Some(Header {
            version: Version::V11,
            more: true,
            ..
        })
    )
}
