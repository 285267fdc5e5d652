//! Frames to messages: the role of a whole frame, what it is judged to be, and which messages are partial after
//! it.

ghost use Rattle.std.specs.Prelude.{◌≡◌, ◌+◌, ◌<◌, ◌≤◌, ◌^◌, ◌&&◌, not, nat_lt, is_some, length, IfOk, IsTrue};
ghost use Rattle.std.specs.Vec.{vec_len};
ghost use Rattle.giop_frames.specs.declared.partial.Key.TheVariants.{Of11};
ghost use Rattle.giop_frames.specs.declared.reassembly.Role.TheVariants as role;
ghost use Rattle.giop_core.specs.declared.message.Places.{Places};
ghost use Rattle.giop_frames.specs.Private.{IsPlaced, IsSettled, IsSettledAs, IsTakenUp, judged_uncut, uncancelled, verdict_at};
ghost use Rattle.giop_frames.specs.Standing.{framed, entries};
ghost use Rattle.giop_frames.specs.Streams.{part_in};
ghost use Rattle.giop_frames.specs.Fragments.{has_id, id_of, judged_whole, key_of, may_come, role_of};
ghost use Rattle.giop_frames.specs.Frames.{id_length};

use crate::deframer::{ID_LEN, id_length};
use crate::fault::StreamFault;
use crate::limits::Limits;
use crate::naming::Named;
use crate::partial::{Key, Part};
use cdr_core::{Fault, Kind};
use giop_core::{Header, MessageFault, MessageKind, Places, Version};
use std::alloc::{AllocError, Global};
use std::mem;

/// What a whole frame is to the partial messages.
#[derive(Clone, Copy)]
pub enum Role {
    /// The first frame of a cut message.
    Opens,
    /// A Fragment with more to come.
    Carries,
    /// The last Fragment.
    Ends,
    /// A CancelRequest, which drops what has come of its message.
    Drops,
    /// A whole message that could have been cut.
    Uncut,
    /// A message that has nothing to do with cut ones.
    Apart,
}

/// The role of a frame under a header (GIOP 9.4.9).
fn role_of(header: &Header) -> Role
    ensures { result ≡ role_of header.now }
{
    match (header.kind, header.more) {
        (MessageKind::Fragment, true) => Role::Carries,
        (MessageKind::Fragment, false) => Role::Ends,
        (MessageKind::CancelRequest, _) => Role::Drops,
        (_, true) => Role::Opens,
        (kind, false) => {
            if header.version.has_id_first() && kind.can_be_cut(header.version) {
                Role::Uncut
            } else {
                Role::Apart
            }
        }
    }
}

/// Whether a frame must begin with a request id.
fn has_id(role: Role, version: Version) -> bool
    ensures { result ≡ has_id role version }
{
    match role {
        Role::Drops => true,
        Role::Apart => false,
        Role::Opens | Role::Carries | Role::Ends | Role::Uncut => version.has_id_first(),
    }
}

/// Whether a frame may come while a message of 1.1 is partial.
fn may_come(role: Role, version: Version) -> bool
    ensures { result ≡ may_come role version }
{
    match role {
        Role::Drops => true,
        Role::Carries | Role::Ends => !version.has_id_first(),
        Role::Opens | Role::Uncut | Role::Apart => false,
    }
}

/// Whether a frame comes where only a Fragment of 1.1 or a CancelRequest may.
fn interrupts(role: Role, version: Version, parts: &[Part]) -> bool
    ensures { result ≡ (not (may_come role version) && is_some (part_in (entries parts.now) Of11)) }
{
    Part::is_among(parts, Key::Of11) && !may_come(role, version)
}

/// Whether a frame ends inside the request id that it must begin with.
fn lacks_id(role: Role, version: Version, frame: &[u8]) -> bool
    ensures { result ≡ (has_id role version && nat_lt (length frame.now) 16) }
{
    frame.len() < Header::LEN + ID_LEN && has_id(role, version)
}

/// The key of the message that a frame is a part of.
fn key_of(header: &Header, frame: &[u8]) -> Key
    requires { 12 + id_length header.now.version ≤ length frame.now }
    ensures { result ≡ key_of (framed header.now frame.now) }
{
    if !header.version.has_id_first() {
        return Key::Of11;
    }
    let (_, octets) = frame.split_at(Header::LEN);
    Key::Of12(header.order.ulong_of(octets))
}

/// What a whole frame is judged to be.
pub enum Settled {
    /// Part of a message that is still partial.
    Quiet,
    /// The end of a message, under this header. Its octets, joined, are in the frame's buffer.
    Done(Header),
    /// The first fault of the stream.
    Bad(StreamFault),
}

/// A Fragment joined to its message.
pub enum TakenUp {
    /// The message so far, with the Fragment's payload at its end.
    Continued(Part),
    /// Why it can't be joined.
    Refused(StreamFault),
}

/// Judges a whole message by its content.
#[inline(always)]
fn whole(header: &Header, frame: &[u8], places: &mut Places) -> Settled
    requires { 12 ≤ length frame.now }
    ensures verdict { verdict_at result frame.now ≡ judged_whole (framed header.now frame.now) }
    ensures placed { IsPlaced result frame.now places.new }
{
    let (_, octets) = frame.split_at(Header::LEN);
    match places.find(header, octets) {
        Ok(()) => Settled::Done(*header),
        Err(fault) => Settled::Bad(StreamFault::Body(fault)),
    }
}

/// A first frame starts a partial message.
#[inline(never)]
fn open(
    limits: &Limits,
    alloc: Global,
    header: &Header,
    frame: &mut Vec<u8>,
    parts: &mut Vec<Part>,
) -> Result<Settled, AllocError>
    requires long { 12 + id_length header.now.version ≤ vec_len frame.old }
    requires short { vec_len frame.old < 2 ^ 32 }
    ensures by { IfOk result (λ v. IsSettledAs role.Opens v limits.now header.now frame.old.items frame.new.items (entries parts.old.items) (entries parts.new.items)) }
    ensures placed { (places : Places) → IfOk result (λ v. IsPlaced v frame.new.items places) }
{
    let key = key_of(header, frame.as_slice());
    if Part::is_among(parts.as_slice(), key) {
        return Ok(Settled::Bad(StreamFault::TwiceStarted));
    }
    if usize::from(limits.partials) <= parts.len() {
        return Ok(Settled::Bad(StreamFault::TooManyPartial));
    }
    let octets = mem::replace(frame, Vec::new(alloc));
    parts.push(Part {
        key,
        header: *header,
        octets,
        named: Named::Unread,
    })?;
    Ok(Settled::Quiet)
}

/// Takes the message of a Fragment out of the partial ones, and appends the payload to it.
fn take_up(
    limits: &Limits,
    header: &Header,
    frame: &[u8],
    parts: &mut Vec<Part>,
) -> Result<TakenUp, AllocError>
    requires { 12 + id_length header.now.version ≤ length frame.now }
    ensures { IfOk result (λ t. IsTakenUp t limits.now (framed header.now frame.now) (entries parts.old.items) (entries parts.new.items)) }
{
    let key = key_of(header, frame);
    let Some(part) = Part::take_from(parts, key) else {
        return Ok(TakenUp::Refused(StreamFault::StrayFragment));
    };
    if part.header.order != header.order {
        return Ok(TakenUp::Refused(StreamFault::MixedOrder));
    }
    let Part {
        key: _,
        header: first,
        mut octets,
        named,
    } = part;
    let (_, payload) = frame.split_at(Header::LEN + id_length(header.version));
    if (limits.message as u64) < octets.len() as u64 + payload.len() as u64 {
        return Ok(TakenUp::Refused(StreamFault::TooLarge));
    }
    octets.extend_from_slice(payload)?;
    Ok(TakenUp::Continued(Part {
        key,
        header: first,
        octets,
        named,
    }))
}

/// A Fragment with more to come continues its message, which stays partial.
#[inline(never)]
fn carry(
    limits: &Limits,
    header: &Header,
    frame: &mut Vec<u8>,
    parts: &mut Vec<Part>,
) -> Result<Settled, AllocError>
    requires { 12 + id_length header.now.version ≤ vec_len frame.old }
    ensures by { IfOk result (λ v. IsSettledAs role.Carries v limits.now header.now frame.old.items frame.new.items (entries parts.old.items) (entries parts.new.items)) }
    ensures placed { (places : Places) → IfOk result (λ v. IsPlaced v frame.new.items places) }
{
    match take_up(limits, header, frame.as_slice(), parts)? {
        TakenUp::Refused(fault) => Ok(Settled::Bad(fault)),
        TakenUp::Continued(part) => {
            frame.clear();
            parts.push(part)?;
            Ok(Settled::Quiet)
        }
    }
}

/// The last Fragment completes its message.
#[inline(never)]
fn end(
    limits: &Limits,
    header: &Header,
    frame: &mut Vec<u8>,
    parts: &mut Vec<Part>,
    places: &mut Places,
) -> Result<Settled, AllocError>
    requires { 12 + id_length header.now.version ≤ vec_len frame.old }
    ensures by { IfOk result (λ v. IsSettledAs role.Ends v limits.now header.now frame.old.items frame.new.items (entries parts.old.items) (entries parts.new.items)) }
    ensures placed { IfOk result (λ v. IsPlaced v frame.new.items places.new) }
{
    match take_up(limits, header, frame.as_slice(), parts)? {
        TakenUp::Continued(part) => {
            let Part {
                key: _,
                header: first,
                octets,
                named: _,
            } = part;
            *frame = octets;
            let size = (frame.len() - Header::LEN) as u32;
            let header = Header {
                more: false,
                size,
                ..first
            };
            Ok(whole(&header, frame.as_slice(), places))
        }
        TakenUp::Refused(fault) => Ok(Settled::Bad(fault)),
    }
}

/// A CancelRequest drops what has come of its message, in any version (own rule).
#[inline(never)]
fn cancel(header: &Header, frame: &[u8], parts: &mut Vec<Part>, places: &mut Places) -> Settled
    requires { 16 ≤ length frame.now }
    ensures verdict { verdict_at result frame.now ≡ judged_whole (framed header.now frame.now) }
    ensures placed { IsPlaced result frame.now places.new }
    ensures parts { entries parts.new.items ≡ uncancelled (id_of (framed header.now frame.now)) (entries parts.old.items) }
{
    let (_, octets) = frame.split_at(Header::LEN);
    Part::cancel_in(parts, header.order.ulong_of(octets));
    whole(header, frame, places)
}

/// A whole message that could have been cut must not have the request id of a partial one.
#[inline(always)]
fn uncut(header: &Header, frame: &[u8], parts: &[Part], places: &mut Places) -> Settled
    requires { 12 + id_length header.now.version ≤ length frame.now }
    ensures placed { IsPlaced result frame.now places.new }
    ensures verdict { verdict_at result frame.now ≡ judged_uncut (entries parts.now) (framed header.now frame.now) }
{
    if Part::is_among(parts, key_of(header, frame)) {
        return Settled::Bad(StreamFault::TwiceStarted);
    }
    whole(header, frame, places)
}

/// Judges a frame by its role, and updates the partial messages.
fn settle_as(
    limits: &Limits,
    alloc: Global,
    role: Role,
    header: &Header,
    frame: &mut Vec<u8>,
    parts: &mut Vec<Part>,
    places: &mut Places,
) -> Result<Settled, AllocError>
    requires headed { 12 ≤ vec_len frame.old }
    requires short { vec_len frame.old < 2 ^ 32 }
    requires long { IsTrue (has_id role header.now.version) → 16 ≤ vec_len frame.old }
    ensures by { IfOk result (λ v. IsSettledAs role v limits.now header.now frame.old.items frame.new.items (entries parts.old.items) (entries parts.new.items)) }
    ensures placed { IfOk result (λ v. IsPlaced v frame.new.items places.new) }
{
    match role {
        Role::Opens => open(limits, alloc, header, frame, parts),
        Role::Carries => carry(limits, header, frame, parts),
        Role::Ends => end(limits, header, frame, parts, places),
        Role::Drops => Ok(cancel(header, frame.as_slice(), parts, places)),
        Role::Uncut => Ok(uncut(header, frame.as_slice(), parts.as_slice(), places)),
        Role::Apart => Ok(whole(header, frame.as_slice(), places)),
    }
}

/// Judges a whole frame under a header, and updates the partial messages. In `frame` are left the octets of a
/// message that it completes, and in `places` where its parts lie.
pub(crate) fn settle(
    limits: &Limits,
    alloc: Global,
    header: &Header,
    frame: &mut Vec<u8>,
    parts: &mut Vec<Part>,
    places: &mut Places,
) -> Result<Settled, AllocError>
    requires headed { 12 ≤ vec_len frame.old }
    requires short { vec_len frame.old < 2 ^ 32 }
    ensures placed { IfOk result (λ v. IsPlaced v frame.new.items places.new) }
    ensures by { IfOk result (λ v. IsSettled v limits.now header.now frame.old.items frame.new.items (entries parts.old.items) (entries parts.new.items)) }
{
    let role = role_of(header);
    if interrupts(role, header.version, parts.as_slice()) {
        return Ok(Settled::Bad(StreamFault::TwiceStarted));
    }
    if lacks_id(role, header.version, frame.as_slice()) {
        let short = Fault {
            kind: Kind::Short,
            at: Header::LEN as u64,
        };
        return Ok(Settled::Bad(StreamFault::Body(MessageFault::Cdr(short))));
    }
    settle_as(limits, alloc, role, header, frame, parts, places)
}
