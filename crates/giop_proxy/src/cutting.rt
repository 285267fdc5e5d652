//! A message of 1.1, cut at given places (GIOP 9.4.9).

ghost use Rattle.std.specs.Prelude.{◌≡◌, ◌+◌, ◌-◌, ◌<◌, ◌≤◌, ◌++◌, ◌^◌, [], ◌∷◌, false, length, take, drop, Ok, IsTrue, MatchOption, OnErr, OnOk};
ghost use Rattle.std.specs.List.{flat_map};
ghost use Rattle.giop_core.specs.declared.header.Header.{Header as GivenHeader};
ghost use Rattle.giop_core.specs.declared.header.MessageKind.TheVariants.{Fragment};
ghost use Rattle.giop_core.specs.declared.header.Version.TheVariants.{V11};
ghost use Rattle.giop_core.specs.Headers.{can_be_cut, header_of};
ghost use Rattle.giop_frames.specs.Cutting.{fragment_of, fragments_of, frame_octets, is_cuttable_11, is_cuttable_in};
ghost use Rattle.giop_frames.specs.Private.{IsAppended};
ghost use Rattle.giop_proxy.specs.Cuts.{chunks_at, cut_octets, in_message};

use giop_core::{Header, MessageKind, Version};
use std::alloc::AllocError;

/// The header of octets that are one whole message of 1.1 that can be cut.
fn cuttable(octets: &[u8]) -> Option<Header>
    ensures { MatchOption result (is_cuttable_in V11 octets.now ≡ false) (λ h. (header_of (take 12 octets.now) ≡ Ok h) × (12 + h.size ≡ length octets.now) × IsTrue (can_be_cut h.version h.kind) × IsTrue (can_be_cut h.version Fragment)) }
{
    let head = octets.first_chunk::<{ Header::LEN }>()?;
    let header = Header::read(head).ok()?;
    let whole = !header.more && Header::LEN + header.size as usize == octets.len();
    let is_cut = matches!(header.kind, MessageKind::Request | MessageKind::Reply);
    if matches!(header.version, Version::V11) && is_cut && whole {
        Some(header)
    } else {
        None
    }
}

/// Appends a frame: a header with the size of what follows, and that.
fn put_frame(header: &Header, octets: &[u8], out: &mut Vec<u8>) -> Result<(), AllocError>
    requires { IsTrue (can_be_cut header.now.version header.now.kind) }
    ensures ok { OnOk result (out.new.items ≡ out.old.items ++ frame_octets (record { header = header.now; octets = octets.now })) }
    ensures err { OnErr result (IsAppended out.old.items out.new.items) }
{
    out.extend_from_slice(&header.write())?;
    out.extend_from_slice(octets)
}

/// Appends a Fragment of these octets.
fn put_fragment(
    header: &Header,
    more: bool,
    octets: &[u8],
    out: &mut Vec<u8>,
) -> Result<(), AllocError>
    requires cuts { IsTrue (can_be_cut header.now.version Fragment) }
    requires small { length octets.now < 2 ^ 32 }
    ensures ok { OnOk result (out.new.items ≡ out.old.items ++ frame_octets (fragment_of header.now [] more octets.now)) }
    ensures err { OnErr result (IsAppended out.old.items out.new.items) }
{
    let fragment = Header {
        kind: MessageKind::Fragment,
        more,
        size: octets.len() as u32,
        ..*header
    };
    put_frame(&fragment, octets, out)
}

/// So many octets, and those behind them; all, where there are fewer.
fn split(octets: &[u8], size: u64) -> (&[u8], &[u8])
    ensures front { result.0.now ≡ take size octets.now }
    ensures back { result.1.now ≡ drop size octets.now }
{
    octets.split_at((size as usize).min(octets.len()))
}

/// How many octets stand before a cut of a body, which begins at `place`, from `start` on.
fn size_to(place: u32, at: u32, start: u64) -> u64
    ensures is { result ≡ (place + at) - start }
    ensures near { start < 2 ^ 34 → start + result < 2 ^ 34 }
{
    (u64::from(place) + u64::from(at)).saturating_sub(start)
}

/// Appends Fragments of octets of a message, the first of which stands at `start`, cut at these places of its body, which
/// begins at `place`.
fn put_fragments(
    header: &Header,
    start: u64,
    place: u32,
    cuts: &[u32],
    octets: &[u8],
    out: &mut Vec<u8>,
) -> Result<(), AllocError>
    requires cuts { IsTrue (can_be_cut header.now.version Fragment) }
    requires near { start < 2 ^ 34 }
    requires small { length octets.now < 2 ^ 32 }
    ensures ok { OnOk result (out.new.items ≡ out.old.items ++ flat_map frame_octets (fragments_of header.now [] (chunks_at start (in_message place cuts.now) octets.now))) }
    ensures err { OnErr result (IsAppended out.old.items out.new.items) }
{
    let mut from = start;
    let mut left = octets;
    for at in cuts {
        let size = size_to(place, *at, from);
        let (front, others) = split(left, size);
        put_fragment(header, true, front, out)?;
        from += size;
        left = others;
    }
    put_fragment(header, false, left, out)
}

/// Appends a message cut at these places of its body, and first at one. Where that fails `out` may keep a part of it at its end.
fn put_cut(
    header: &Header,
    message: &[u8],
    place: u32,
    first: u32,
    more: &[u32],
    out: &mut Vec<u8>,
) -> Result<(), AllocError>
    requires can { IsTrue (can_be_cut header.now.version header.now.kind) }
    requires cuts { IsTrue (can_be_cut header.now.version Fragment) }
    requires long { 12 ≤ length message.now }
    requires small { length message.now < 2 ^ 32 + 12 }
    ensures ok { OnOk result (out.new.items ≡ out.old.items ++ cut_octets place (first ∷ more.now) header.now message.now) }
    ensures err { OnErr result (IsAppended out.old.items out.new.items) }
{
    let (_, octets) = message.split_at(Header::LEN);
    let from = Header::LEN as u64;
    let size = size_to(place, first, from);
    let (front, others) = split(octets, size);
    let head = Header {
        more: true,
        size: front.len() as u32,
        ..*header
    };
    put_frame(&head, front, out)?;
    put_fragments(header, from + size, place, more, others, out)
}

/// Appends a whole message of 1.1, cut at these places of its body: a first frame and Fragments (GIOP 9.4.9), which have no
/// request id. Without a cut it is appended as it is.
///
/// The message must be one that can be cut (`giop_frames::is_cuttable_11`). Its body begins at `place`, and the places of the cuts
/// are counted from there: how many octets of the body stand before each. They rise; where one is no higher than that before it,
/// or than the body is long, a frame has no octets. Where an allocation fails, `out` is as it was.
pub fn cut(message: &[u8], place: u32, cuts: &[u32], out: &mut Vec<u8>) -> Result<(), AllocError>
    requires { IsTrue (is_cuttable_11 message.now) }
    ensures cut { (h : GivenHeader) → header_of (take 12 message.now) ≡ Ok h → OnOk result (out.new.items ≡ out.old.items ++ cut_octets place cuts.now h message.now) }
    ensures err { OnErr result (out.new.items ≡ out.old.items) }
{
    let Some((first, more)) = cuts.split_first() else {
        return out.extend_from_slice(message);
    };
    let Some(header) = cuttable(message) else {
        return Ok(());
    };
    let before = out.len();
    let result = put_cut(&header, message, place, *first, more, out);
    if result.is_err() {
        out.truncate(before);
    }
    result
}
