//! Frames to messages: what a frame is of a message that is cut, and what it leaves.

ghost use Rattle.std.specs.Prelude.{◌≡◌, ◌+◌, ◌<◌, ◌≤◌, ◌^◌, ◌&&◌, nat_lt, List, [], length, position, IfOk, IsTrue, MatchOption, None, Some};
ghost use Rattle.std.specs.Vec.{vec_len};
ghost use Rattle.giop_frames.specs.Fragments.{id_of, payload_of};
ghost use Rattle.giop_frames.specs.Frames.{Frame, id_length};
ghost use Rattle.giop_proxy.specs.PassingMessages.{alone, at_fault, continued_by, ended, first_fault, first_step, forgotten, has_id, is_key, judged, key_of, next_fault, next_judged, next_step, part_in, role_of, step, step_as, without};
ghost use Rattle.giop_proxy.specs.PassingPrivate.{IsPlaced, IsPlacedIf, IsStep, coming_at, entries, frame_in, framed, told_at};

use crate::passes::coming::{Coming, Part, Told};
use crate::passes::cutting::{ID_LEN, id_length, is_unaligned};
use crate::passes::keys::{Key, add, forget, is_key, is_passed};
use crate::passes::looking::is_long;
use cdr_core::{Fault, Kind};
use giop_core::{Header, MessageFault, MessageKind, Places, Version};
use giop_frames::{Limits, StreamFault};
use std::alloc::AllocError;

/// What a frame is of a message that is cut.
#[derive(Clone, Copy)]
pub enum Role {
    /// The first frame of one.
    First,
    /// A Fragment.
    Next,
    /// A CancelRequest, which drops what has come of its message.
    Cancel,
    /// A message by itself.
    Alone,
}

/// At how many places a message is cut at most.
const CUTS: usize = 16_384;

/// The role of a frame under a header (GIOP 9.4.9).
fn role_of(header: &Header) -> Role
    ensures { result ≡ role_of header.now }
{
    match (header.kind, header.more) {
        (MessageKind::Fragment, _) => Role::Next,
        (MessageKind::CancelRequest, _) => Role::Cancel,
        (_, true) => Role::First,
        (_, false) => Role::Alone,
    }
}

/// Whether a frame must begin with a request id.
fn has_id(role: Role, version: Version) -> bool
    ensures { result ≡ has_id role version }
{
    match role {
        Role::Cancel => true,
        Role::Alone => false,
        Role::First | Role::Next => version.has_id_first(),
    }
}

/// Whether a frame ends inside the request id that it must begin with.
fn lacks_id(role: Role, version: Version, frame: &[u8]) -> bool
    ensures { result ≡ (has_id role version && nat_lt (length frame.now) 16) }
{
    frame.len() < Header::LEN + ID_LEN && has_id(role, version)
}

/// The key of the message that a frame is a part of.
fn key_of(message: &Coming) -> Key
    requires { 12 + id_length message.now.header.version ≤ vec_len message.now.octets }
    ensures { result ≡ key_of (frame_in message.now) }
{
    if !message.header.version.has_id_first() {
        return Key::Of11;
    }
    let (_, octets) = message.octets.as_slice().split_at(Header::LEN);
    Key::Of12(message.header.order.ulong_of(octets))
}

/// The index of the message of a key.
fn place(parts: &[Part], key: Key) -> Option<usize>
    ensures { result ≡ position (λ p. is_key p.key key) parts.now }
{
    parts.iter().position(|part| is_key(part.key, key))
}

/// Takes the message of a key out of the others.
fn take_from(parts: &mut Vec<Part>, key: Key) -> Option<Coming>
    ensures found { MatchOption result (part_in (entries parts.old.items) key ≡ None) (λ m. part_in (entries parts.old.items) key ≡ Some (coming_at m)) }
    ensures rest { entries parts.new.items ≡ without key (entries parts.old.items) }
{
    let at = place(parts.as_slice(), key)?;
    let Part { key: _, message } = parts.remove(at);
    Some(message)
}

/// A message that is at fault.
fn at_fault(fault: StreamFault, message: Coming) -> Told
    ensures told { told_at result ≡ at_fault fault (coming_at message) }
    ensures placed { IsPlaced result }
{
    Told {
        message,
        fault: Some(fault),
        places: Places::new(),
    }
}

/// Judges a message that is whole by its content.
fn judge(message: Coming) -> Told
    ensures told { told_at result ≡ judged (coming_at message) }
    ensures placed { IsPlaced result }
{
    let mut places = Places::new();
    let (_, octets) = message.octets.as_slice().split_at(Header::LEN);
    match places.find(&message.header, octets) {
        Ok(()) => Told {
            message,
            fault: None,
            places,
        },
        Err(fault) => Told {
            message,
            fault: Some(StreamFault::Body(fault)),
            places,
        },
    }
}

/// Judges a frame that is a message by itself.
fn alone(limits: &Limits, message: Coming) -> Told
    ensures told { told_at result ≡ alone limits.now (coming_at message) }
    ensures placed { IsPlaced result }
{
    if is_long(limits, &message.header) {
        return at_fault(StreamFault::TooLarge, message);
    }
    judge(message)
}

/// The fault of a first frame where so many other messages are partial, if it has one.
fn first_fault(limits: &Limits, partials: usize, header: &Header) -> Option<StreamFault>
    ensures { result ≡ first_fault limits.now partials header.now }
{
    if is_long(limits, header) {
        return Some(StreamFault::TooLarge);
    }
    if is_unaligned(limits.cuts, header) {
        return Some(StreamFault::UnalignedFragment);
    }
    if usize::from(limits.partials) <= partials {
        return Some(StreamFault::TooManyPartial);
    }
    None
}

/// A first frame begins the message of its key anew.
fn begin(
    limits: &Limits,
    message: Coming,
    parts: &mut Vec<Part>,
    passed: &mut Vec<Key>,
) -> Result<Option<Told>, AllocError>
    requires long { 12 + id_length message.header.version ≤ vec_len message.octets }
    requires fresh { message.cuts.items ≡ [] }
    ensures step { IfOk result (λ t. IsStep t (first_step limits.now message.begins (entries parts.old.items) passed.old.items (frame_in message)) (entries parts.new.items) passed.new.items) }
    ensures placed { IfOk result (λ t. IsPlacedIf t) }
{
    let key = key_of(&message);
    let _ = take_from(parts, key);
    forget(key, passed);
    match first_fault(limits, parts.len(), &message.header) {
        Some(fault) => {
            add(key, passed)?;
            Ok(Some(at_fault(fault, message)))
        }
        None => {
            parts.push(Part { key, message })?;
            Ok(None)
        }
    }
}

/// The fault of a Fragment with so many octets of payload, if it has one.
fn next_fault(
    limits: &Limits,
    message: &Coming,
    header: &Header,
    payload: usize,
) -> Option<StreamFault>
    requires { payload < 2 ^ 32 }
    ensures { result ≡ next_fault limits.now (coming_at message.now) header.now payload }
{
    if is_long(limits, header)
        || (limits.message as usize) < message.octets.len() + payload
        || CUTS <= message.cuts.len()
    {
        return Some(StreamFault::TooLarge);
    }
    if message.header.order != header.order {
        return Some(StreamFault::MixedOrder);
    }
    if is_unaligned(limits.cuts, header) {
        return Some(StreamFault::UnalignedFragment);
    }
    None
}

/// A Fragment appends its payload to its message.
fn join(message: Coming, payload: &[u8]) -> Result<Coming, AllocError>
    requires { vec_len message.octets + length payload.now < 2 ^ 32 }
    ensures { (f : Frame) → payload.now ≡ payload_of f → IfOk result (λ m. coming_at m ≡ continued_by f (coming_at message)) }
{
    let Coming {
        header,
        mut octets,
        begins,
        mut cuts,
    } = message;
    cuts.push(octets.len() as u32)?;
    octets.extend_from_slice(payload)?;
    Ok(Coming {
        header,
        octets,
        begins,
        cuts,
    })
}

/// A message that has come whole is one frame, of which no more follow.
fn end(message: Coming) -> Coming
    ensures { coming_at result ≡ ended (coming_at message) }
{
    let Coming {
        header: first,
        octets,
        begins,
        cuts,
    } = message;
    let size = (octets.len() - Header::LEN) as u32;
    let header = Header {
        more: false,
        size,
        ..first
    };
    Coming {
        header,
        octets,
        begins,
        cuts,
    }
}

/// A Fragment goes on with its message, or ends it, or the message is at fault.
fn go_on(
    limits: &Limits,
    message: Coming,
    fragment: &Coming,
    key: Key,
    parts: &mut Vec<Part>,
    passed: &mut Vec<Key>,
) -> Result<Option<Told>, AllocError>
    requires long { 12 + id_length fragment.now.header.version ≤ vec_len fragment.now.octets }
    requires key { key ≡ key_of (frame_in fragment.now) }
    ensures step { let f = frame_in fragment.now in let m = coming_at message in
        IfOk result (λ t. IsStep t (next_judged (entries parts.old.items) passed.old.items f m (next_fault limits.now m f.header (length (payload_of f)))) (entries parts.new.items) passed.new.items) }
    ensures placed { IfOk result (λ t. IsPlacedIf t) }
{
    let header = &fragment.header;
    let (_, payload) = fragment
        .octets
        .as_slice()
        .split_at(Header::LEN + id_length(header.version));
    if let Some(fault) = next_fault(limits, &message, header, payload.len()) {
        if header.more {
            add(key, passed)?;
            return Ok(Some(at_fault(fault, message)));
        }
        return Ok(Some(at_fault(fault, message)));
    }
    let message = join(message, payload)?;
    if header.more {
        parts.push(Part { key, message })?;
        return Ok(None);
    }
    Ok(Some(judge(end(message))))
}

/// A Fragment, which is passed over, or goes on with a message, or follows none.
fn next(
    limits: &Limits,
    fragment: Coming,
    parts: &mut Vec<Part>,
    passed: &mut Vec<Key>,
) -> Result<Option<Told>, AllocError>
    requires long { 12 + id_length fragment.header.version ≤ vec_len fragment.octets }
    requires fresh { fragment.cuts.items ≡ [] }
    ensures step { IfOk result (λ t. IsStep t (next_step limits.now fragment.begins (entries parts.old.items) passed.old.items (frame_in fragment)) (entries parts.new.items) passed.new.items) }
    ensures placed { IfOk result (λ t. IsPlacedIf t) }
{
    let key = key_of(&fragment);
    if is_passed(key, passed.as_slice()) {
        if fragment.header.more {
            return Ok(None);
        }
        forget(key, passed);
        return Ok(None);
    }
    match take_from(parts, key) {
        Some(message) => go_on(limits, message, &fragment, key, parts, passed),
        None => Ok(Some(at_fault(StreamFault::StrayFragment, fragment))),
    }
}

/// A CancelRequest drops what has come of its message (own rule).
fn cancel(limits: &Limits, message: Coming, parts: &mut Vec<Part>, passed: &mut Vec<Key>) -> Told
    requires long { 16 ≤ vec_len message.octets }
    ensures told { told_at result ≡ alone limits.now (coming_at message) }
    ensures placed { IsPlaced result }
    ensures parts { entries parts.new.items ≡ without (Key.Of12 (id_of (frame_in message))) (entries parts.old.items) }
    ensures passed { passed.new.items ≡ forgotten (Key.Of12 (id_of (frame_in message))) passed.old.items }
{
    let (_, octets) = message.octets.as_slice().split_at(Header::LEN);
    let key = Key::Of12(message.header.order.ulong_of(octets));
    let _ = take_from(parts, key);
    forget(key, passed);
    alone(limits, message)
}

/// Judges a frame by its role, and updates the messages whose fragments have not all come.
fn settle_as(
    limits: &Limits,
    role: Role,
    message: Coming,
    parts: &mut Vec<Part>,
    passed: &mut Vec<Key>,
) -> Result<Option<Told>, AllocError>
    requires long { IsTrue (has_id role message.header.version) → 16 ≤ vec_len message.octets }
    requires fresh { message.cuts.items ≡ [] }
    ensures step { IfOk result (λ t. IsStep t (step_as role limits.now message.begins (entries parts.old.items) passed.old.items (frame_in message)) (entries parts.new.items) passed.new.items) }
    ensures placed { IfOk result (λ t. IsPlacedIf t) }
{
    match role {
        Role::First => begin(limits, message, parts, passed),
        Role::Next => next(limits, message, parts, passed),
        Role::Cancel => Ok(Some(cancel(limits, message, parts, passed))),
        Role::Alone => Ok(Some(alone(limits, message))),
    }
}

/// Judges a frame, and updates the messages whose fragments have not all come.
pub(crate) fn settle(
    limits: &Limits,
    message: Coming,
    parts: &mut Vec<Part>,
    passed: &mut Vec<Key>,
) -> Result<Option<Told>, AllocError>
    requires fresh { message.cuts.items ≡ [] }
    ensures step { IfOk result (λ t. IsStep t (step limits.now message.begins (entries parts.old.items) passed.old.items (frame_in message)) (entries parts.new.items) passed.new.items) }
    ensures placed { IfOk result (λ t. IsPlacedIf t) }
{
    let role = role_of(&message.header);
    if lacks_id(role, message.header.version, message.octets.as_slice()) {
        let short = Fault {
            kind: Kind::Short,
            at: Header::LEN as u64,
        };
        let fault = StreamFault::Body(MessageFault::Cdr(short));
        return Ok(Some(at_fault(fault, message)));
    }
    settle_as(limits, role, message, parts, passed)
}
