//! The messages of a stream.

ghost use Rattle.std.specs.Prelude.{◌≡◌, ◌<ℤ◌, ◌≤ℤ◌, pos};
ghost use Rattle.lemonrudder.specs.Answers.{OnAssembler};
ghost use Rattle.lemonrudder.specs.Assembles.{IsNew, OnFault, OnFeed};
ghost use Rattle.lemonrudder.specs.Lends.{OnContext, OnMessage, OnPart};
ghost use Rattle.lemonrudder.specs.Naming.{aligned, cuts_named};
ghost use Rattle.lemonrudder.specs.Opening.{OpensMade};
ghost use Rattle.lemonrudder.specs.Slots.{held_in};
ghost use Rattle.lemonrudder.specs.declared.object.Object.TheVariants as Object;

use lemonrudder::Slot;
use std::alloc::Global;

/// Opens an assembler of a stream of which nothing has come.
#[unsafe(no_mangle)]
pub extern "C" fn lr_assembler_open(
    alloc: Global,
    slot: &mut Slot,
    message_limit: u32,
    partials: u32,
) -> i64
    ensures { OpensMade Object.Assembler (IsNew message_limit partials aligned) (held_in slot.old) (held_in slot.new) result }
{
    lemonrudder::lr_assembler_open(alloc, slot, message_limit, partials)
}

/// Opens one of a stream whose messages of 1.1 may be cut as a number says.
#[unsafe(no_mangle)]
pub extern "C" fn lr_assembler_open_cuts(
    alloc: Global,
    slot: &mut Slot,
    message_limit: u32,
    partials: u32,
    cuts: u32,
) -> i64
    ensures { OpensMade Object.Assembler (IsNew message_limit partials (cuts_named cuts)) (held_in slot.old) (held_in slot.new) result }
{
    lemonrudder::lr_assembler_open_cuts(alloc, slot, message_limit, partials, cuts)
}

/// Takes octets up to and with the end of the next message, and answers how many.
#[unsafe(no_mangle)]
pub extern "C" fn lr_assembler_feed(alloc: Global, slot: &mut Slot, octets: &[u8]) -> i64
    ensures { OnAssembler (OnFeed octets.now) (held_in slot.old) (held_in slot.new) result }
{
    lemonrudder::lr_assembler_feed(alloc, slot, octets)
}

/// The first fault of the stream.
#[unsafe(no_mangle)]
pub extern "C" fn lr_assembler_fault(alloc: Global, slot: &mut Slot) -> i64
    ensures { OnAssembler OnFault (held_in slot.old) (held_in slot.new) result }
{
    lemonrudder::lr_assembler_fault(alloc, slot)
}

/// Says what the message is that the last feed completed: `lr_message`.
#[unsafe(no_mangle)]
pub extern "C" fn lr_assembler_message(alloc: Global, slot: &mut Slot, room: &mut [u8]) -> i64
    ensures told { OnAssembler (OnMessage room.old room.new) (held_in slot.old) (held_in slot.new) result }
    ensures none { result ≤ℤ pos 0 → room.new ≡ room.old }
{
    lemonrudder::lr_assembler_message(alloc, slot, room)
}

/// Copies a part of that message.
#[unsafe(no_mangle)]
pub extern "C" fn lr_assembler_part(
    alloc: Global,
    slot: &mut Slot,
    part: u32,
    room: &mut [u8],
) -> i64
    ensures copied { OnAssembler (OnPart part room.old room.new) (held_in slot.old) (held_in slot.new) result }
    ensures refused { result <ℤ pos 0 → room.new ≡ room.old }
{
    lemonrudder::lr_assembler_part(alloc, slot, part, room)
}

/// Copies a service context of that message, and gives its id.
#[unsafe(no_mangle)]
pub extern "C" fn lr_assembler_context(
    alloc: Global,
    slot: &mut Slot,
    index: u32,
    id: &mut u32,
    room: &mut [u8],
) -> i64
    ensures copied { OnAssembler (OnContext index id.old id.new room.old room.new) (held_in slot.old) (held_in slot.new) result }
    ensures refused { result <ℤ pos 0 → (id.new ≡ id.old) × (room.new ≡ room.old) }
{
    lemonrudder::lr_assembler_context(alloc, slot, index, id, room)
}
