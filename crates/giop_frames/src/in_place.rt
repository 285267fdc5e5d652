//! A message that lies whole where a piece begins, and stands alone: it is judged there, before it is copied.

ghost use Rattle.std.specs.Prelude.{◌≡◌, IfSome};
ghost use Rattle.giop_frames.specs.Fragments.{role_of};
ghost use Rattle.giop_frames.specs.Private.{LiesWhole, is_alone};

use crate::deframer::{ID_LEN, frame_size, judge};
use crate::limits::Limits;
use giop_core::{Header, MessageKind, Places};

/// Whether a whole frame under a header is judged by itself where no message is partial.
#[inline(always)]
fn is_alone(header: &Header) -> bool
    ensures { result ≡ is_alone (role_of header.now) }
{
    !header.more
        && !matches!(
            header.kind,
            MessageKind::Fragment | MessageKind::CancelRequest
        )
}

/// The header of the message that lies whole where a piece begins, if one does that is judged by itself; and in `places`
/// where its parts lie.
#[inline(always)]
pub(crate) fn find_whole(limits: &Limits, places: &mut Places, piece: &[u8]) -> Option<Header>
    ensures { IfSome result (λ h. LiesWhole limits.now piece.now h places.new) }
{
    let head = piece.first_chunk::<{ Header::LEN }>()?;
    let Ok(header) = judge(limits, head) else {
        return None;
    };
    let size = frame_size(&header);
    if piece.len() < size || size < Header::LEN + ID_LEN || !is_alone(&header) {
        return None;
    }
    let (front, _) = piece.split_at(size);
    let (_, octets) = front.split_at(Header::LEN);
    match places.find(&header, octets) {
        Ok(()) => Some(header),
        Err(_) => None,
    }
}
