//! What a server says of itself: the service contexts of what waits, and its numbers for an operator.
#![tactic(auto, using(crate::proofs::Doors::by_server))]

ghost use Rattle.std.specs.Prelude.{◌≡◌, ◌<ℤ◌, ◌≤ℤ◌, pos};
ghost use Rattle.lemonrudder.specs.Answers.{OnServer};
ghost use Rattle.lemonrudder.specs.Looks.{OnContext, OnCount, OnHeldBy, OnNextExpiry, OnTick, OnWanted};
ghost use Rattle.lemonrudder.specs.Slots.{held_in};

use crate::slot::Slot;
use std::alloc::Global;

/// Copies a service context of the request that waits, and gives its id.
pub fn lr_server_context(
    alloc: Global,
    slot: &mut Slot,
    index: u32,
    id: &mut u32,
    room: &mut [u8],
) -> i64
    ensures copied { OnServer (OnContext index id.old id.new room.old room.new) (held_in slot.old) (held_in slot.new) result }
    ensures refused { result <ℤ pos 0 → (id.new ≡ id.old) × (room.new ≡ room.old) }
{
    slot.server(alloc, &mut |server| server.context(index, id, room))
}

/// How many wait for the outcome of a parked request, on connections that go on.
pub fn lr_server_wanted(alloc: Global, slot: &mut Slot, ticket: u64) -> i64
    ensures { OnServer (OnWanted ticket) (held_in slot.old) (held_in slot.new) result }
{
    slot.server(alloc, &mut |server| server.wanted(ticket))
}

/// A number for an operator: `LR_COUNT_..`.
pub fn lr_server_count(alloc: Global, slot: &mut Slot, what: u32) -> i64
    ensures { OnServer (OnCount what) (held_in slot.old) (held_in slot.new) result }
{
    slot.server(alloc, &mut |server| server.count(what))
}

/// How many outcomes are kept for a client, and places of outcomes that will come.
pub fn lr_server_held_by(alloc: Global, slot: &mut Slot, client: &[u8]) -> i64
    ensures { OnServer (OnHeldBy client.now) (held_in slot.old) (held_in slot.new) result }
{
    slot.server(alloc, &mut |server| Ok(server.held_by(client)))
}

/// Says the least expiration under which something is kept.
pub fn lr_server_next_expiry(alloc: Global, slot: &mut Slot, moment: &mut u64) -> i64
    ensures told { OnServer (OnNextExpiry moment.old moment.new) (held_in slot.old) (held_in slot.new) result }
    ensures none { result ≤ℤ pos 0 → moment.new ≡ moment.old }
{
    slot.server(alloc, &mut |server| Ok(server.next_expiry(moment)))
}

/// A moment has come.
pub fn lr_server_tick(alloc: Global, slot: &mut Slot, moment: u64) -> i64
    ensures { OnServer (OnTick moment) (held_in slot.old) (held_in slot.new) result }
{
    slot.server(alloc, &mut |server| server.tick(moment))
}
