//! Requests that are parked, and the connections on which octets came due by their outcomes.

ghost use Rattle.std.specs.Prelude.{◌≡◌};
ghost use Rattle.lemonrudder.specs.Answers.{OnServer};
ghost use Rattle.lemonrudder.specs.Parks.{OnNextDue, OnPark, OnParked, OnParkedOf};
ghost use Rattle.lemonrudder.specs.Serves.{HasNoServer};
ghost use Rattle.lemonrudder.specs.Slots.{held_in};

use lemonrudder::Slot;
use std::alloc::Global;

/// Parks the request that waits.
#[unsafe(no_mangle)]
pub extern "C" fn lr_server_park(alloc: Global, slot: &mut Slot, ticket: u64) -> i64
    ensures { OnServer (OnPark ticket) (held_in slot.old) (held_in slot.new) result }
{
    lemonrudder::lr_server_park(alloc, slot, ticket)
}

/// How many requests are parked.
#[unsafe(no_mangle)]
pub extern "C" fn lr_server_parked(alloc: Global, slot: &mut Slot) -> i64
    ensures { OnServer OnParked (held_in slot.old) (held_in slot.new) result }
{
    lemonrudder::lr_server_parked(alloc, slot)
}

/// How many of the parked requests came on a connection.
#[unsafe(no_mangle)]
pub extern "C" fn lr_server_parked_of(alloc: Global, slot: &mut Slot, connection: u64) -> i64
    ensures { OnServer (OnParkedOf connection) (held_in slot.old) (held_in slot.new) result }
{
    lemonrudder::lr_server_parked_of(alloc, slot, connection)
}

/// Names a connection on which octets came due that no call on it brought.
#[unsafe(no_mangle)]
pub extern "C" fn lr_server_next_due(alloc: Global, slot: &mut Slot, connection: &mut u64) -> i64
    ensures does { OnServer (OnNextDue connection.old connection.new) (held_in slot.old) (held_in slot.new) result }
    ensures connection { HasNoServer (held_in slot.old) → connection.new ≡ connection.old }
{
    lemonrudder::lr_server_next_due(alloc, slot, connection)
}
