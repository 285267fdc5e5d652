//! The messages of a stream.
#![tactic(auto, using(crate::proofs::Doors::by_assembler))]

ghost use Rattle.std.specs.Prelude.{◌≡◌, ◌<ℤ◌, ◌≤ℤ◌, pos};
ghost use Rattle.lemonrudder.specs.Answers.{OnAssembler};
ghost use Rattle.lemonrudder.specs.Assembles.{IsNew, OnFault, OnFeed};
ghost use Rattle.lemonrudder.specs.Lends.{OnContext, OnMessage, OnPart};
ghost use Rattle.lemonrudder.specs.Naming.{aligned, cuts_named};
ghost use Rattle.lemonrudder.specs.Opening.{OpensMade};
ghost use Rattle.lemonrudder.specs.Slots.{held_in};

use crate::assembling::Assembling;
use crate::object::Object;
use crate::opened::open;
use crate::refusal::Refusal;
use crate::slot::Slot;
use std::alloc::Global;

/// Opens an assembler of a stream of which nothing has come.
pub fn lr_assembler_open(alloc: Global, slot: &mut Slot, message_limit: u32, partials: u32) -> i64
    ensures { OpensMade Object.Assembler (IsNew message_limit partials aligned) (held_in slot.old) (held_in slot.new) result }
{
    lr_assembler_open_cuts(alloc, slot, message_limit, partials, 0)
}

/// Opens one of a stream whose messages of 1.1 may be cut as a number says.
pub fn lr_assembler_open_cuts(
    alloc: Global,
    slot: &mut Slot,
    message_limit: u32,
    partials: u32,
    cuts: u32,
) -> i64
    ensures { OpensMade Object.Assembler (IsNew message_limit partials (cuts_named cuts)) (held_in slot.old) (held_in slot.new) result }
{
    if !slot.is_empty() {
        return Refusal::Open.number();
    }
    match Assembling::new(alloc, message_limit, partials, cuts) {
        Ok(assembling) => open(alloc, slot, Object::Assembler(assembling)),
        Err(refusal) => refusal.number(),
    }
}

/// Takes octets up to and with the end of the next message, and answers how many.
pub fn lr_assembler_feed(alloc: Global, slot: &mut Slot, octets: &[u8]) -> i64
    ensures { OnAssembler (OnFeed octets.now) (held_in slot.old) (held_in slot.new) result }
{
    slot.assembler(alloc, &mut |assembler| assembler.feed(octets))
}

/// The first fault of the stream.
pub fn lr_assembler_fault(alloc: Global, slot: &mut Slot) -> i64
    ensures { OnAssembler OnFault (held_in slot.old) (held_in slot.new) result }
{
    slot.assembler(alloc, &mut |assembler| Ok(assembler.fault()))
}

/// Says what the message is that the last feed completed: `lr_message`.
pub fn lr_assembler_message(alloc: Global, slot: &mut Slot, room: &mut [u8]) -> i64
    ensures told { OnAssembler (OnMessage room.old room.new) (held_in slot.old) (held_in slot.new) result }
    ensures none { result ≤ℤ pos 0 → room.new ≡ room.old }
{
    slot.assembler(alloc, &mut |assembler| Ok(assembler.message(room)))
}

/// Copies a part of that message.
pub fn lr_assembler_part(alloc: Global, slot: &mut Slot, part: u32, room: &mut [u8]) -> i64
    ensures copied { OnAssembler (OnPart part room.old room.new) (held_in slot.old) (held_in slot.new) result }
    ensures refused { result <ℤ pos 0 → room.new ≡ room.old }
{
    slot.assembler(alloc, &mut |assembler| assembler.part(part, room))
}

/// Copies a service context of that message, and gives its id.
pub fn lr_assembler_context(
    alloc: Global,
    slot: &mut Slot,
    index: u32,
    id: &mut u32,
    room: &mut [u8],
) -> i64
    ensures copied { OnAssembler (OnContext index id.old id.new room.old room.new) (held_in slot.old) (held_in slot.new) result }
    ensures refused { result <ℤ pos 0 → (id.new ≡ id.old) × (room.new ≡ room.old) }
{
    slot.assembler(alloc, &mut |assembler| assembler.context(index, id, room))
}
