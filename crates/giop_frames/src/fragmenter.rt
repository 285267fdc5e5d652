//! Cuts a message into fragments (GIOP 9.4.9).

ghost use Rattle.std.specs.Prelude.{◌≡◌, ◌+◌, ◌%◌, ◌<◌, ◌≤◌, ◌++◌, ◌^◌, [], true, false, length, take, drop, Ok, IsTrue, MatchOption, OnErr, OnOk};
ghost use Rattle.std.specs.List.{flat_map};
ghost use Rattle.giop_core.specs.declared.header.Header.{Header as GivenHeader};
ghost use Rattle.giop_core.specs.declared.header.MessageKind.TheVariants.{Fragment};
ghost use Rattle.giop_core.specs.Headers.{can_be_cut, header_of};
ghost use Rattle.giop_frames.specs.Cutting.{cut_octets, fragment_of, fragments_of, frame_octets, is_cuttable, is_cuttable_11, is_cuttable_in, chunks_from};
ghost use Rattle.giop_frames.specs.Frames.{id_length};
ghost use Rattle.giop_frames.specs.Private.{IsAppended};

use crate::deframer::{frame_size, id_length};
use giop_core::{Header, MessageKind, Version};
use std::alloc::AllocError;

/// The header of octets that are one whole message of a version that can be cut.
fn cuttable(version: Version, octets: &[u8]) -> Option<Header>
    ensures { MatchOption result (is_cuttable_in version octets.now ≡ false) (λ h. (header_of (take 12 octets.now) ≡ Ok h) × (is_cuttable_in version octets.now ≡ true) × (12 + h.size ≡ length octets.now) × (h.version ≡ version) × IsTrue (can_be_cut h.version h.kind)) }
{
    let head = octets.first_chunk::<{ Header::LEN }>()?;
    let header = Header::read(head).ok()?;
    let whole = !header.more && frame_size(&header) == octets.len();
    let cuts = header.kind.can_be_cut(header.version)
        && !matches!(header.kind, MessageKind::Fragment);
    if header.version == version && cuts && whole {
        Some(header)
    } else {
        None
    }
}

/// Whether octets are one whole message that can be cut: of 1.2, a Request, a Reply, a LocateRequest or a
/// LocateReply (GIOP 9.4.9).
pub fn is_cuttable(octets: &[u8]) -> bool
    ensures { result ≡ is_cuttable octets.now }
{
    cuttable(Version::V12, octets).is_some()
}

/// Whether octets are one whole message of 1.1 that can be cut: a Request or a Reply (GIOP 9.4.9).
pub fn is_cuttable_11(octets: &[u8]) -> bool
    ensures { result ≡ is_cuttable_11 octets.now }
{
    cuttable(Version::V11, octets).is_some()
}

/// Appends a Fragment with a payload.
fn put_fragment(
    header: &Header,
    id: &[u8],
    more: bool,
    octets: &[u8],
    out: &mut Vec<u8>,
) -> Result<(), AllocError>
    requires cuts { IsTrue (can_be_cut header.now.version Fragment) }
    requires small { length id.now + length octets.now < 2 ^ 32 }
    ensures ok { OnOk result (out.new.items ≡ out.old.items ++ frame_octets (fragment_of header.now id.now more octets.now)) }
    ensures err { OnErr result (IsAppended out.old.items out.new.items) }
{
    let fragment = Header {
        kind: MessageKind::Fragment,
        more,
        size: (id.len() + octets.len()) as u32,
        ..*header
    };
    out.extend_from_slice(&fragment.write())?;
    out.extend_from_slice(id)?;
    out.extend_from_slice(octets)?;
    Ok(())
}

/// Appends Fragments of octets, each but the last with a payload of `payload` octets.
fn put_fragments(
    header: &Header,
    id: &[u8],
    octets: &[u8],
    payload: usize,
    out: &mut Vec<u8>,
) -> Result<(), AllocError>
    requires cuts { IsTrue (can_be_cut header.now.version Fragment) }
    requires some { 0 < payload }
    requires small { length id.now + length octets.now < 2 ^ 32 }
    ensures ok { OnOk result (out.new.items ≡ out.old.items ++ flat_map frame_octets (fragments_of header.now id.now (chunks_from payload [] octets.now))) }
    ensures err { OnErr result (IsAppended out.old.items out.new.items) }
{
    let mut left = octets;
    while payload < left.len() {
        let (front, others) = left.split_at(payload);
        put_fragment(header, id, true, front, out)?;
        left = others;
    }
    put_fragment(header, id, false, left, out)?;
    Ok(())
}

/// Appends a message in frames of `size` octets, but for the last.
fn put_cut(
    header: &Header,
    message: &[u8],
    size: usize,
    out: &mut Vec<u8>,
) -> Result<(), AllocError>
    requires cuts { IsTrue (can_be_cut header.now.version header.now.kind) }
    requires least { 20 + id_length header.now.version ≤ size }
    requires small { length message.now < 2 ^ 32 + 12 }
    ensures ok { OnOk result (out.new.items ≡ out.old.items ++ cut_octets size header.now message.now) }
    ensures err { OnErr result (IsAppended out.old.items out.new.items) }
{
    if message.len() <= size {
        out.extend_from_slice(message)?;
        return Ok(());
    }
    let (front, others) = message.split_at(size);
    let (_, octets) = front.split_at(Header::LEN);
    let first = Header {
        more: true,
        size: octets.len() as u32,
        ..*header
    };
    out.extend_from_slice(&first.write())?;
    out.extend_from_slice(octets)?;
    let (id, _) = octets.split_at(id_length(header.version));
    put_fragments(header, id, others, size - (Header::LEN + id.len()), out)?;
    Ok(())
}

/// Appends a whole message of a version in frames of at most `size` octets. Where an allocation fails, `out` is
/// as it was.
fn put_message(
    version: Version,
    message: &[u8],
    size: u32,
    out: &mut Vec<u8>,
) -> Result<(), AllocError>
    requires whole { IsTrue (is_cuttable_in version message.now) }
    requires least { 20 + id_length version ≤ size }
    ensures cut { (h : GivenHeader) → header_of (take 12 message.now) ≡ Ok h → OnOk result (out.new.items ≡ out.old.items ++ cut_octets size h message.now) }
    ensures err { OnErr result (out.new.items ≡ out.old.items) }
{
    let Some(header) = cuttable(version, message) else {
        return Ok(());
    };
    let before = out.len();
    match put_cut(&header, message, size as usize, out) {
        Ok(()) => Ok(()),
        Err(error) => {
            out.truncate(before);
            Err(error)
        }
    }
}

/// Appends a whole message of 1.2 in frames of at most `size` octets, their headers among them: a first frame
/// and Fragments (GIOP 9.4.9). A message that is no longer than that is appended as it is.
///
/// The message must be one that can be cut (`is_cuttable`), and `size` divisible by 8 and 24 at least. Where an
/// allocation fails, `out` is as it was.
pub fn fragments(message: &[u8], size: u32, out: &mut Vec<u8>) -> Result<(), AllocError>
    requires whole { IsTrue (is_cuttable message.now) }
    requires least { 24 ≤ size }
    requires aligned { size % 8 ≡ 0 }
    ensures cut { (h : GivenHeader) → header_of (take 12 message.now) ≡ Ok h → OnOk result (out.new.items ≡ out.old.items ++ cut_octets size h message.now) }
    ensures err { OnErr result (out.new.items ≡ out.old.items) }
{
    put_message(Version::V12, message, size, out)
}

/// Appends a whole message of 1.1 in frames of at most `size` octets, their headers among them: a first frame
/// and Fragments (GIOP 9.4.9), which have no request id. A message that is no longer than that is appended as it is.
///
/// The message must be one that can be cut (`is_cuttable_11`), and `size` 4 modulo 8 and 20 at least. Where an
/// allocation fails, `out` is as it was.
pub fn fragments_11(message: &[u8], size: u32, out: &mut Vec<u8>) -> Result<(), AllocError>
    requires whole { IsTrue (is_cuttable_11 message.now) }
    requires least { 20 ≤ size }
    requires aligned { size % 8 ≡ 4 }
    ensures cut { (h : GivenHeader) → header_of (take 12 message.now) ≡ Ok h → OnOk result (out.new.items ≡ out.old.items ++ cut_octets size h message.now) }
    ensures err { OnErr result (out.new.items ≡ out.old.items) }
{
    put_message(Version::V11, message, size, out)
}
