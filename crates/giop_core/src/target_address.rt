//! The target of a Request or LocateRequest (GIOP 9.4.2: TargetAddress).

ghost use Rattle.std.specs.Prelude.{◌↔◌, IsTrue, ◌≡◌, length, option_map, ◌≤◌, map, MatchResult};
ghost use Rattle.cdr_core.specs.Private.{Keeps};
ghost use Rattle.cdr_core.specs.Value.{values};
ghost use Rattle.cdr_core.specs.Writing.{IsWritable, Appends, PutsAll, AreWritable};
ghost use Rattle.ior_core.specs.Grammar.{reference};
ghost use Rattle.giop_core.specs.Items.{contexts_left, items_in, list_value, tagged_value};
ghost use Rattle.giop_core.specs.Keys.{key_of_addressed};
ghost use Rattle.giop_core.specs.Lent.{addressed_by};
ghost use Rattle.giop_core.specs.Messages.{field_at};
ghost use Rattle.giop_core.specs.Private.{Reads, Gives, reference_value, selected_value, target_value, Checks};
ghost use Rattle.giop_core.specs.Rows.{selected, target};
ghost use Rattle.giop_core.specs.Written.{target_in, CanAddress, target_of, key_value};
ghost use Rattle.giop_core.specs.declared.header.Version.TheVariants.{V10};

use crate::error::{MessageFault, WriteError};
use crate::header::Version;
use crate::ior_view::IorView;
use crate::service_context::{Contexts, put_tagged, read_contexts};
use crate::writing::check_octets;
use cdr_core::{Cursor, Fault, Writer};
use ior_core::{profile_key, read_tagged};
use std::alloc::AllocError;

/// What a Request or LocateRequest is for (GIOP::TargetAddress). 1.0 and 1.1 have object keys alone.
#[derive(Debug, Drop)]
pub enum Target<'m> {
    /// An object key.
    Key(&'m [u8]),
    /// A profile: its tag and its octets.
    Profile(u32, &'m [u8]),
    /// The index of the chosen profile, counted from 0, and the reference that has it.
    Reference(u32, IorView<'m>),
}

/// Reads a reference.
#[tactic(auto, using(crate::proofs::Steps::pair_reads, crate::proofs::Steps::pair_stops, crate::proofs::Steps::pair_short))]
fn read_reference<'m>(cursor: &mut Cursor<'m>) -> Result<IorView<'m>, Fault>
    ensures { Reads reference_value result reference cursor.old cursor.new }
{
    cdr_core::laws::read_fits();
    cdr_core::laws::are_octets(cursor.rest());
    let type_id = cursor.string()?;
    let profiles = read_contexts(cursor)?;
    Ok(IorView { type_id, profiles })
}

/// Reads the index of a profile, and the reference that has it.
#[tactic(auto, using(crate::proofs::Steps::pair_reads, crate::proofs::Steps::pair_stops, crate::proofs::Steps::pair_short))]
fn read_selected<'m>(cursor: &mut Cursor<'m>) -> Result<(u32, IorView<'m>), Fault>
    ensures { Reads selected_value result selected cursor.old cursor.new }
{
    let index = cursor.ulong()?;
    let reference = read_reference(cursor)?;
    Ok((index, reference))
}

/// Reads the target of a message of 1.2, whichever it is. It is no part of its caller, so that the reader of a
/// key, the usual target, stays small.
#[inline(never)]
#[tactic(auto, using(crate::proofs::Choices::choice_short, crate::proofs::Choices::choice_0, crate::proofs::Choices::choice_1, crate::proofs::Choices::choice_2, crate::proofs::Choices::choice_0_stops, crate::proofs::Choices::choice_1_stops, crate::proofs::Choices::choice_2_stops, crate::proofs::Choices::choice_unknown))]
pub(crate) fn read_any_target<'m>(cursor: &mut Cursor<'m>) -> Result<Target<'m>, MessageFault>
    ensures { Gives target_value result (field_at target cursor.old.order cursor.old.place cursor.old.rest) cursor.old cursor.new }
{
    let mut ahead = cursor.fork();
    ahead.align(2);
    let at = ahead.place();
    let discriminator = cursor.short()?;
    if discriminator == 1 {
        let (tag, octets) = read_tagged(cursor)?;
        return Ok(Target::Profile(tag, octets));
    }
    if discriminator == 2 {
        let (index, reference) = read_selected(cursor)?;
        return Ok(Target::Reference(index, reference));
    }
    if discriminator != 0 {
        return Err(MessageFault::BadAddressing(at));
    }
    Ok(Target::Key(cursor.octets()?))
}

/// Reads the target of a message of 1.2.
#[inline(always)]
#[tactic(auto, using(crate::proofs::Choices::choice_short, crate::proofs::Choices::choice_0, crate::proofs::Choices::choice_0_stops))]
pub(crate) fn read_target<'m>(cursor: &mut Cursor<'m>) -> Result<Target<'m>, MessageFault>
    ensures { Gives target_value result (field_at target cursor.old.order cursor.old.place cursor.old.rest) cursor.old cursor.new }
{
    let mut other = cursor.fork();
    let discriminator = cursor.short()?;
    if discriminator == 0 {
        return Ok(Target::Key(cursor.octets()?));
    }
    let target = read_any_target(&mut other)?;
    *cursor = other;
    Ok(target)
}

impl Version {
    /// Whether a request of this version can have such a target. 1.0 and 1.1 have object keys alone.
    pub fn can_address(self, target: &Target) -> bool
        ensures { IsTrue result ↔ CanAddress self (addressed_by target.now) }
    {
        match self {
            Version::V10 | Version::V11 => matches!(target, Target::Key(_)),
            Version::V12 => true,
        }
    }
}

impl<'m> Target<'m> {
    /// The object key: the key itself, that of an IIOP profile, or that of the chosen profile of a
    /// reference. None where there is no such profile, or where it isn't a valid one of IIOP.
    #[inline(always)]
    pub fn object_key(&self) -> Option<&'m [u8]>
        ensures { option_map (λ key. key.now) result ≡ key_of_addressed (addressed_by self.now) }
    {
        match self {
            Target::Key(key) => Some(key),
            _ => self.key_of_any(),
        }
    }

    /// The same, beside the path of most messages.
    #[inline(never)]
    fn key_of_any(&self) -> Option<&'m [u8]>
        ensures { option_map (λ key. key.now) result ≡ key_of_addressed (addressed_by self.now) }
    {
        match self {
            Target::Key(key) => Some(key),
            Target::Profile(tag, octets) => profile_key(*tag, octets),
            Target::Reference(index, reference) => {
                let (tag, octets) = reference.profile(*index)?;
                profile_key(tag, octets)
            }
        }
    }
}

/// That a target is short enough to be written. A reference that was read always is.
#[tactic(auto, using(crate::proofs::Longs::member_long))]
pub(crate) fn check_target(version: Version, target: &Target) -> Result<(), WriteError>
    requires { CanAddress version (addressed_by target.now) }
    ensures { Checks (target_in version (addressed_by target.now)) result }
{
    match target {
        Target::Key(key) => check_octets(key),
        Target::Profile(_, octets) => check_octets(octets),
        Target::Reference(_, _) => Ok(()),
    }
}

/// Appends so many of the profiles that a cursor reads.
fn put_items(
    writer: &Writer,
    cursor: &mut Cursor,
    left: u32,
    out: &mut Vec<u8>,
) -> Result<(), AllocError>
    requires start { writer.now.start ≤ length out.old.items }
    requires writable { AreWritable (values (map tagged_value (items_in cursor.old.order left cursor.old.place cursor.old.rest))) }
    ensures { MatchResult result (λ _. PutsAll writer.now (values (map tagged_value (items_in cursor.old.order left cursor.old.place cursor.old.rest))) out.old.items out.new.items) (λ _. Keeps out.old.items out.new.items) }
{
    for _ in 0..left {
        let Ok((tag, octets)) = read_tagged(cursor) else {
            return Ok(());
        };
        put_tagged(writer, tag, octets, out)?;
    }
    Ok(())
}

/// Appends the number of profiles and the profiles.
fn put_profiles(writer: &Writer, all: &Contexts, out: &mut Vec<u8>) -> Result<(), AllocError>
    requires start { writer.now.start ≤ length out.old.items }
    requires all { length (contexts_left all.now) ≡ all.now.left }
    requires writable { IsWritable (list_value (contexts_left all.now)) }
    ensures { MatchResult result (λ _. Appends writer.now (list_value (contexts_left all.now)) out.old.items out.new.items) (λ _. Keeps out.old.items out.new.items) }
{
    writer.ulong(all.left, out)?;
    let mut cursor = all.cursor.fork();
    put_items(writer, &mut cursor, all.left, out)
}

/// Appends a reference, which was read in another message.
fn put_reference(writer: &Writer, one: &IorView, out: &mut Vec<u8>) -> Result<(), AllocError>
    requires start { writer.now.start ≤ length out.old.items }
    requires writable { IsWritable (reference_value one.now) }
    ensures { MatchResult result (λ _. Appends writer.now (reference_value one.now) out.old.items out.new.items) (λ _. Keeps out.old.items out.new.items) }
{
    writer.string(one.type_id, out)?;
    put_profiles(writer, &one.profiles, out)
}

/// Appends a target of 1.2.
pub(crate) fn put_target(
    writer: &Writer,
    target: &Target,
    out: &mut Vec<u8>,
) -> Result<(), AllocError>
    requires start { writer.now.start ≤ length out.old.items }
    requires writable { IsWritable (target_of (addressed_by target.now)) }
    ensures { MatchResult result (λ _. Appends writer.now (target_of (addressed_by target.now)) out.old.items out.new.items) (λ _. Keeps out.old.items out.new.items) }
{
    match target {
        Target::Key(key) => {
            writer.short(0, out)?;
            writer.octets(key, out)
        }
        Target::Profile(tag, octets) => {
            writer.short(1, out)?;
            put_tagged(writer, *tag, octets, out)
        }
        Target::Reference(index, reference) => {
            writer.short(2, out)?;
            writer.ulong(*index, out)?;
            put_reference(writer, reference, out)
        }
    }
}

/// Appends an object key, the one target of 1.0 and 1.1.
pub(crate) fn put_key(writer: &Writer, target: &Target, out: &mut Vec<u8>) -> Result<(), AllocError>
    requires start { writer.now.start ≤ length out.old.items }
    requires key { CanAddress V10 (addressed_by target.now) }
    requires writable { IsWritable (key_value (addressed_by target.now)) }
    ensures { MatchResult result (λ _. Appends writer.now (key_value (addressed_by target.now)) out.old.items out.new.items) (λ _. Keeps out.old.items out.new.items) }
{
    match target {
        Target::Key(key) => writer.octets(key, out),
        Target::Profile(_, _) | Target::Reference(_, _) => unreachable!(),
    }
}

/// Appends a target.
pub(crate) fn put_target_in(
    version: Version,
    writer: &Writer,
    target: &Target,
    out: &mut Vec<u8>,
) -> Result<(), AllocError>
    requires start { writer.now.start ≤ length out.old.items }
    requires can { CanAddress version (addressed_by target.now) }
    requires writable { IsWritable (target_in version (addressed_by target.now)) }
    ensures { MatchResult result (λ _. Appends writer.now (target_in version (addressed_by target.now)) out.old.items out.new.items) (λ _. Keeps out.old.items out.new.items) }
{
    match version {
        Version::V10 | Version::V11 => put_key(writer, target, out),
        Version::V12 => put_target(writer, target, out),
    }
}
