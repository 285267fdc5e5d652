//! References to objects.
#![tactic(auto, using(crate::proofs::Doors::by_reference))]

ghost use Rattle.std.specs.Prelude.{◌≡◌, ◌<ℤ◌, pos};
ghost use Rattle.lemonrudder.specs.Answers.{OnReference};
ghost use Rattle.lemonrudder.specs.Makes.{IsAddressed, IsParsed, profile_to};
ghost use Rattle.lemonrudder.specs.Opening.{OpensMade};
ghost use Rattle.lemonrudder.specs.Profiles.{OnComponent, OnPart, OnProfile};
ghost use Rattle.lemonrudder.specs.Refers.{OnPrint, OnProfiles, OnTypeId};
ghost use Rattle.lemonrudder.specs.Slots.{held_in};

use crate::object::Object;
use crate::opened::open;
use crate::referring::{Address, Referring};
use crate::refusal::Refusal;
use crate::slot::Slot;
use std::alloc::Global;

/// Reads a stringified reference.
pub fn lr_ior_parse(alloc: Global, slot: &mut Slot, text: &[u8]) -> i64
    ensures { OpensMade Object.Reference (IsParsed text.now) (held_in slot.old) (held_in slot.new) result }
{
    if !slot.is_empty() {
        return Refusal::Open.number();
    }
    match Referring::parse(alloc, text) {
        Ok(referring) => open(alloc, slot, Object::Reference(referring)),
        Err(refusal) => refusal.number(),
    }
}

/// A reference of a type to an object at an address of IIOP.
pub fn lr_ior_iiop(
    alloc: Global,
    slot: &mut Slot,
    type_id: &[u8],
    minor: u32,
    host: &[u8],
    port: u16,
    key: &[u8],
) -> i64
    ensures { OpensMade Object.Reference (IsAddressed type_id.now minor (profile_to minor host.now port key.now)) (held_in slot.old) (held_in slot.new) result }
{
    if !slot.is_empty() {
        return Refusal::Open.number();
    }
    let address = Address {
        minor,
        host,
        port,
        key,
    };
    match Referring::iiop(alloc, type_id, &address) {
        Ok(referring) => open(alloc, slot, Object::Reference(referring)),
        Err(refusal) => refusal.number(),
    }
}

/// Writes the stringified reference.
pub fn lr_ior_print(alloc: Global, slot: &mut Slot, room: &mut [u8]) -> i64
    ensures printed { OnReference (OnPrint room.old room.new) (held_in slot.old) (held_in slot.new) result }
    ensures refused { result <ℤ pos 0 → room.new ≡ room.old }
{
    slot.reference(alloc, &mut |reference| reference.print(room))
}

/// Copies the repository id of its type.
pub fn lr_ior_type_id(alloc: Global, slot: &mut Slot, room: &mut [u8]) -> i64
    ensures copied { OnReference (OnTypeId room.old room.new) (held_in slot.old) (held_in slot.new) result }
    ensures refused { result <ℤ pos 0 → room.new ≡ room.old }
{
    slot.reference(alloc, &mut |reference| Ok(reference.type_id(room)))
}

/// How many profiles it has.
pub fn lr_ior_profiles(alloc: Global, slot: &mut Slot) -> i64
    ensures { OnReference OnProfiles (held_in slot.old) (held_in slot.new) result }
{
    slot.reference(alloc, &mut |reference| Ok(reference.profiles()))
}

/// Says what a profile has: `lr_profile`.
pub fn lr_ior_profile(alloc: Global, slot: &mut Slot, index: u32, room: &mut [u8]) -> i64
    ensures told { OnReference (OnProfile index room.old room.new) (held_in slot.old) (held_in slot.new) result }
    ensures refused { result <ℤ pos 0 → room.new ≡ room.old }
{
    slot.reference(alloc, &mut |reference| reference.profile(index, room))
}

/// Copies a part of a profile.
pub fn lr_ior_part(alloc: Global, slot: &mut Slot, index: u32, part: u32, room: &mut [u8]) -> i64
    ensures copied { OnReference (OnPart index part room.old room.new) (held_in slot.old) (held_in slot.new) result }
    ensures refused { result <ℤ pos 0 → room.new ≡ room.old }
{
    slot.reference(alloc, &mut |reference| reference.part(index, part, room))
}

/// Copies a tagged component of a profile, and gives its tag.
pub fn lr_ior_component(
    alloc: Global,
    slot: &mut Slot,
    index: u32,
    component: u32,
    tag: &mut u32,
    room: &mut [u8],
) -> i64
    ensures copied { OnReference (OnComponent index component tag.old tag.new room.old room.new) (held_in slot.old) (held_in slot.new) result }
    ensures refused { result <ℤ pos 0 → (tag.new ≡ tag.old) × (room.new ≡ room.old) }
{
    slot.reference(
        alloc,
        &mut |reference| reference.component(index, component, tag, room),
    )
}
