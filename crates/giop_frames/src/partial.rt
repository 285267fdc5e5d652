//! Partial messages: those of which a first frame has come, and not yet the last fragment.

ghost use Rattle.std.specs.Prelude.{◌≡◌, ◌<◌, ◌≤◌, ◌^◌};
ghost use Rattle.std.specs.Vec.{vec_len};
ghost use Rattle.giop_frames.specs.Fragments.{is_key};
ghost use Rattle.giop_frames.specs.Naming.{IsReadTo};

use crate::naming::Named;
use giop_core::Header;

/// What a partial message is known by.
#[derive(Clone, Copy)]
pub enum Key {
    /// The request id of a message of 1.2.
    Of12(u32),
    /// The one message of 1.1 that may be partial: its Fragments have no request id.
    Of11,
}

/// Whether two keys are one.
fn is_key(first: Key, second: Key) -> bool
    ensures { result ≡ is_key first second }
{
    match (first, second) {
        (Key::Of12(id), Key::Of12(other)) => id == other,
        (Key::Of11, Key::Of11) => true,
        _ => false,
    }
}

/// A partial message: its key, the header of its first frame, its octets so far, those of that header among
/// them, and in 1.1 how far they were read for the request id.
#[derive(Drop)]
pub struct Part {
    pub key: Key,
    pub header: Header,
    pub octets: Vec<u8>,
    pub named: Named,
    ghost headed: { 12 ≤ vec_len octets },
    ghost short: { vec_len octets < 2 ^ 32 },
    ghost read: { IsReadTo header.order named octets.items },
}

impl Part {
    ghost use Rattle.std.specs.Prelude.{◌≡◌, MatchOption, IfSome, Option, Some, None, is_some, position};
    ghost use Rattle.giop_frames.specs.Fragments.{is_cancelled, is_key};
    ghost use Rattle.giop_frames.specs.Private.{uncancelled, without, without_early};
    ghost use Rattle.giop_frames.specs.declared.partial.Key.TheVariants.{Of11};
    ghost use Rattle.giop_frames.specs.Standing.{entries, entry_of};
    ghost use Rattle.giop_frames.specs.Streams.{part_in};

    /// The index of the partial message of a key.
    fn place(parts: &[Part], key: Key) -> Option<usize>
        ensures { result ≡ position (λ p. is_key p.key key) parts.now }
    {
        parts.iter().position(|part| is_key(part.key, key))
    }

    /// Whether the message of a key is partial.
    pub(crate) fn is_among(parts: &[Part], key: Key) -> bool
        ensures { result ≡ is_some (part_in (entries parts.now) key) }
    {
        Part::place(parts, key).is_some()
    }

    /// Takes the partial message of a key out of the others.
    pub(crate) fn take_from(parts: &mut Vec<Part>, key: Key) -> Option<Part>
        ensures found { MatchOption result (part_in (entries parts.old.items) key ≡ None) (λ p. part_in (entries parts.old.items) key ≡ Some (entry_of p).part) }
        ensures key { IfSome result (λ p. p.key ≡ key) }
        ensures rest { entries parts.new.items ≡ without key (entries parts.old.items) }
    {
        let at = Part::place(parts.as_slice(), key)?;
        Some(parts.remove(at))
    }

    /// Whether the octets so far of the partial message of 1.1 spell a request id, and it is this one. They are
    /// read on from where they were read to.
    fn is_named(parts: &mut Vec<Part>, id: u32) -> bool
        ensures parts { entries parts.new.items ≡ entries parts.old.items }
        ensures named { result ≡ is_cancelled id Of11 (part_in (entries parts.old.items) Of11) }
    {
        let Some(at) = Part::place(parts.as_slice(), Key::Of11) else {
            return false;
        };
        let part = &mut parts[at];
        part.named = part
            .named
            .read_on(part.header.order, part.octets.as_slice());
        part.named.is(id)
    }

    /// Takes out the partial messages that a CancelRequest of a request id is for.
    pub(crate) fn cancel_in(parts: &mut Vec<Part>, id: u32)
        ensures { entries parts.new.items ≡ uncancelled id (entries parts.old.items) }
    {
        let _ = Part::take_from(parts, Key::Of12(id));
        if Part::is_named(parts, id) {
            let _ = Part::take_from(parts, Key::Of11);
        }
    }
}
