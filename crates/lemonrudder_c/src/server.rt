//! A server of requests that may be sent again.

ghost use Rattle.std.specs.Prelude.{◌≡◌, ◌≤ℤ◌, pos};
ghost use Rattle.lemonrudder.specs.Answers.{OnServer};
ghost use Rattle.lemonrudder.specs.Declining.{OnAnswerUnkept, OnGoodbye, OnRefuse};
ghost use Rattle.lemonrudder.specs.Hosting.{OpensServer};
ghost use Rattle.lemonrudder.specs.Outcomes.{OnAnswer, OnAnswerRaw, OnIdentify, OnRaise, OnSystem};
ghost use Rattle.lemonrudder.specs.Pairs.{OnServerAndCatalogue};
ghost use Rattle.lemonrudder.specs.Setting.{OnSet};
ghost use Rattle.lemonrudder.specs.Swapping.{OnSwap};
ghost use Rattle.lemonrudder.specs.Questions.{OnAsked, OnPart};
ghost use Rattle.lemonrudder.specs.Serves.{HasNoServer, OnConnect, OnFarewell, OnFeed, OnGiveUp, OnIsClosed, OnLost, OnOutput};
ghost use Rattle.lemonrudder.specs.Slots.{held_in};

use lemonrudder::Slot;
use std::alloc::Global;

/// Opens a server of the objects of a catalogue, which is empty afterwards.
#[unsafe(no_mangle)]
pub extern "C" fn lr_server_open(
    alloc: Global,
    slot: &mut Slot,
    catalogue: &mut Slot,
    seed_low: u64,
    seed_high: u64,
) -> i64
    ensures { OpensServer (record { low = seed_low; high = seed_high }) (held_in slot.old) (held_in slot.new) (held_in catalogue.old) (held_in catalogue.new) result }
{
    lemonrudder::lr_server_open(alloc, slot, catalogue, seed_low, seed_high)
}

/// Sets a limit of a server, before its first connection.
#[unsafe(no_mangle)]
pub extern "C" fn lr_server_set(alloc: Global, slot: &mut Slot, what: u32, value: u64) -> i64
    ensures { OnServer (OnSet what value) (held_in slot.old) (held_in slot.new) result }
{
    lemonrudder::lr_server_set(alloc, slot, what, value)
}

/// Exchanges what a server has on offer and a catalogue.
#[unsafe(no_mangle)]
pub extern "C" fn lr_server_swap(alloc: Global, slot: &mut Slot, catalogue: &mut Slot) -> i64
    ensures { OnServerAndCatalogue OnSwap (held_in slot.old) (held_in slot.new) (held_in catalogue.old) (held_in catalogue.new) result }
{
    lemonrudder::lr_server_swap(alloc, slot, catalogue)
}

/// Opens a connection.
#[unsafe(no_mangle)]
pub extern "C" fn lr_server_connect(alloc: Global, slot: &mut Slot, connection: u64) -> i64
    ensures { OnServer (OnConnect connection) (held_in slot.old) (held_in slot.new) result }
{
    lemonrudder::lr_server_connect(alloc, slot, connection)
}

/// Forgets a connection that is gone.
#[unsafe(no_mangle)]
pub extern "C" fn lr_server_lost(alloc: Global, slot: &mut Slot, connection: u64) -> i64
    ensures { OnServer (OnLost connection) (held_in slot.old) (held_in slot.new) result }
{
    lemonrudder::lr_server_lost(alloc, slot, connection)
}

/// Says goodbye on a connection.
#[unsafe(no_mangle)]
pub extern "C" fn lr_server_farewell(alloc: Global, slot: &mut Slot, connection: u64) -> i64
    ensures { OnServer (OnFarewell connection) (held_in slot.old) (held_in slot.new) result }
{
    lemonrudder::lr_server_farewell(alloc, slot, connection)
}

/// Whether what comes on a connection has no meaning.
#[unsafe(no_mangle)]
pub extern "C" fn lr_server_is_closed(alloc: Global, slot: &mut Slot, connection: u64) -> i64
    ensures { OnServer (OnIsClosed connection) (held_in slot.old) (held_in slot.new) result }
{
    lemonrudder::lr_server_is_closed(alloc, slot, connection)
}

/// Takes octets of a connection, and answers how many.
#[unsafe(no_mangle)]
pub extern "C" fn lr_server_feed(
    alloc: Global,
    slot: &mut Slot,
    connection: u64,
    moment: u64,
    octets: &[u8],
) -> i64
    ensures { OnServer (OnFeed connection moment octets.now) (held_in slot.old) (held_in slot.new) result }
{
    lemonrudder::lr_server_feed(alloc, slot, connection, moment, octets)
}

/// Says what waits: `lr_request`.
#[unsafe(no_mangle)]
pub extern "C" fn lr_server_asked(alloc: Global, slot: &mut Slot, room: &mut [u8]) -> i64
    ensures does { OnServer (OnAsked room.old room.new) (held_in slot.old) (held_in slot.new) result }
    ensures none { result ≤ℤ pos 0 → room.new ≡ room.old }
{
    lemonrudder::lr_server_asked(alloc, slot, room)
}

/// Copies a part of the request of a ticket, which waits or is parked.
#[unsafe(no_mangle)]
pub extern "C" fn lr_server_part(
    alloc: Global,
    slot: &mut Slot,
    ticket: u64,
    part: u32,
    room: &mut [u8],
) -> i64
    ensures does { OnServer (OnPart ticket part room.old room.new) (held_in slot.old) (held_in slot.new) result }
    ensures room { HasNoServer (held_in slot.old) → room.new ≡ room.old }
{
    lemonrudder::lr_server_part(alloc, slot, ticket, part, room)
}

/// Answers by results.
#[unsafe(no_mangle)]
pub extern "C" fn lr_server_answer(
    alloc: Global,
    slot: &mut Slot,
    ticket: u64,
    order: u32,
    results: &[u8],
) -> i64
    ensures { OnServer (OnAnswer ticket order results.now) (held_in slot.old) (held_in slot.new) result }
{
    lemonrudder::lr_server_answer(alloc, slot, ticket, order, results)
}

/// Answers by an exception that the operation declares.
#[unsafe(no_mangle)]
pub extern "C" fn lr_server_raise(
    alloc: Global,
    slot: &mut Slot,
    ticket: u64,
    id: &[u8],
    order: u32,
    members: &[u8],
) -> i64
    ensures { OnServer (OnRaise ticket id.now order members.now) (held_in slot.old) (held_in slot.new) result }
{
    lemonrudder::lr_server_raise(alloc, slot, ticket, id, order, members)
}

/// Answers by a system exception.
#[unsafe(no_mangle)]
pub extern "C" fn lr_server_system(
    alloc: Global,
    slot: &mut Slot,
    ticket: u64,
    name: u32,
    minor: u32,
    completed: u32,
) -> i64
    ensures { OnServer (OnSystem ticket name minor completed) (held_in slot.old) (held_in slot.new) result }
{
    lemonrudder::lr_server_system(alloc, slot, ticket, name, minor, completed)
}

/// Answers a raw operation.
#[unsafe(no_mangle)]
pub extern "C" fn lr_server_answer_raw(
    alloc: Global,
    slot: &mut Slot,
    ticket: u64,
    status: u32,
    order: u32,
    body: &[u8],
) -> i64
    ensures { OnServer (OnAnswerRaw ticket status order body.now) (held_in slot.old) (held_in slot.new) result }
{
    lemonrudder::lr_server_answer_raw(alloc, slot, ticket, status, order, body)
}

/// Answers by an outcome that its owner has stored, and keeps nothing.
#[unsafe(no_mangle)]
pub extern "C" fn lr_server_answer_unkept(
    alloc: Global,
    slot: &mut Slot,
    ticket: u64,
    status: u32,
    order: u32,
    body: &[u8],
) -> i64
    ensures { OnServer (OnAnswerUnkept ticket status order body.now) (held_in slot.old) (held_in slot.new) result }
{
    lemonrudder::lr_server_answer_unkept(alloc, slot, ticket, status, order, body)
}

/// Answers `_is_a` and `_non_existent`.
#[unsafe(no_mangle)]
pub extern "C" fn lr_server_identify(alloc: Global, slot: &mut Slot, ticket: u64) -> i64
    ensures { OnServer (OnIdentify ticket) (held_in slot.old) (held_in slot.new) result }
{
    lemonrudder::lr_server_identify(alloc, slot, ticket)
}

/// Gives up the request that waits.
#[unsafe(no_mangle)]
pub extern "C" fn lr_server_give_up(alloc: Global, slot: &mut Slot, ticket: u64) -> i64
    ensures { OnServer (OnGiveUp ticket) (held_in slot.old) (held_in slot.new) result }
{
    lemonrudder::lr_server_give_up(alloc, slot, ticket)
}

/// Refuses the request of a ticket, for now.
#[unsafe(no_mangle)]
pub extern "C" fn lr_server_refuse(
    alloc: Global,
    slot: &mut Slot,
    ticket: u64,
    name: u32,
    minor: u32,
) -> i64
    ensures { OnServer (OnRefuse ticket name minor) (held_in slot.old) (held_in slot.new) result }
{
    lemonrudder::lr_server_refuse(alloc, slot, ticket, name, minor)
}

/// Gives up the request that waits, and says goodbye first.
#[unsafe(no_mangle)]
pub extern "C" fn lr_server_goodbye(alloc: Global, slot: &mut Slot, ticket: u64) -> i64
    ensures { OnServer (OnGoodbye ticket) (held_in slot.old) (held_in slot.new) result }
{
    lemonrudder::lr_server_goodbye(alloc, slot, ticket)
}

/// Moves octets that are due on a connection into a room.
#[unsafe(no_mangle)]
pub extern "C" fn lr_server_output(
    alloc: Global,
    slot: &mut Slot,
    connection: u64,
    room: &mut [u8],
) -> i64
    ensures does { OnServer (OnOutput connection room.old room.new) (held_in slot.old) (held_in slot.new) result }
    ensures room { HasNoServer (held_in slot.old) → room.new ≡ room.old }
{
    lemonrudder::lr_server_output(alloc, slot, connection, room)
}
