//! A server of requests that may be sent again.
#![tactic(auto, using(crate::proofs::Doors::by_server))]

ghost use Rattle.std.specs.Prelude.{◌≡◌, ◌≤ℤ◌, pos};
ghost use Rattle.lemonrudder.specs.Answers.{OnServer};
ghost use Rattle.lemonrudder.specs.Declining.{OnAnswerUnkept, OnGoodbye, OnRefuse};
ghost use Rattle.lemonrudder.specs.Hosting.{Hosts, Leaves, OpensServer};
ghost use Rattle.lemonrudder.specs.Outcomes.{OnAnswer, OnAnswerRaw, OnIdentify, OnRaise, OnSystem};
ghost use Rattle.lemonrudder.specs.Pairs.{OnServerAndCatalogue};
ghost use Rattle.lemonrudder.specs.Setting.{OnSet};
ghost use Rattle.lemonrudder.specs.Swapping.{OnSwap};
ghost use Rattle.lemonrudder.specs.Questions.{OnAsked, OnPart};
ghost use Rattle.lemonrudder.specs.Serves.{HasNoServer, OnConnect, OnFarewell, OnFeed, OnGiveUp, OnIsClosed, OnLost, OnOutput};
ghost use Rattle.lemonrudder.specs.Slots.{held_in, unboxed};

use crate::cataloguing::no_families;
use crate::object::Object;
use crate::paired;
use crate::refusal::Refusal;
use crate::seed::Seed;
use crate::serving::Serving;
use crate::slot::Slot;
use crate::terms::Terms;
use std::alloc::Global;
use std::hash::RandomState;
use std::mem;

/// Makes a catalogue a server of its objects.
fn host(alloc: Global, object: &mut Object, seed: Seed) -> Result<(), Refusal>
    ensures { Hosts seed object.old object.new result }
{
    let Object::Catalogue(catalogue) = object else {
        return Err(Refusal::Empty);
    };
    let hasher = RandomState::new(&seed).map_err(|_| Refusal::Memory)?;
    let families = mem::replace(&mut catalogue.families, no_families(alloc));
    *object = Object::Server(Serving::new(alloc, families, Terms::new(seed, hasher)));
    Ok(())
}

/// The server of a catalogue's objects. The catalogue stays where it is refused.
fn opened(alloc: Global, catalogue: &mut Slot, seed: Seed) -> Result<Box<Object>, Refusal>
    ensures { Leaves seed (held_in catalogue.old) (held_in catalogue.new) (unboxed result) }
{
    let Some(mut object) = catalogue.take(alloc) else {
        return Err(Refusal::Empty);
    };
    match host(alloc, &mut object, seed) {
        Ok(()) => Ok(object),
        Err(refusal) => {
            catalogue.put(object);
            Err(refusal)
        }
    }
}

/// Opens a server of the objects of a catalogue, which is empty afterwards.
pub fn lr_server_open(
    alloc: Global,
    slot: &mut Slot,
    catalogue: &mut Slot,
    seed_low: u64,
    seed_high: u64,
) -> i64
    ensures { OpensServer (record { low = seed_low; high = seed_high }) (held_in slot.old) (held_in slot.new) (held_in catalogue.old) (held_in catalogue.new) result }
{
    if !slot.is_empty() {
        return Refusal::Open.number();
    }
    let seed = Seed {
        low: seed_low,
        high: seed_high,
    };
    match opened(alloc, catalogue, seed) {
        Ok(object) => {
            slot.put(object);
            0
        }
        Err(refusal) => refusal.number(),
    }
}

/// Sets a limit of a server, before its first connection.
pub fn lr_server_set(alloc: Global, slot: &mut Slot, what: u32, value: u64) -> i64
    ensures { OnServer (OnSet what value) (held_in slot.old) (held_in slot.new) result }
{
    slot.server(alloc, &mut |server| server.set(what, value))
}

/// Exchanges what a server has on offer and a catalogue that is in a slot.
fn swapped(alloc: Global, object: &mut Object, catalogue: &mut Slot) -> i64
    ensures { OnServerAndCatalogue OnSwap (Some object.old) (Some object.new) (held_in catalogue.old) (held_in catalogue.new) result }
{
    let Some(mut other) = catalogue.take(alloc) else {
        return Refusal::Empty.number();
    };
    let answer = paired::swap(object, &mut other);
    catalogue.put(other);
    answer
}

/// Exchanges what a server has on offer and a catalogue.
pub fn lr_server_swap(alloc: Global, slot: &mut Slot, catalogue: &mut Slot) -> i64
    ensures { OnServerAndCatalogue OnSwap (held_in slot.old) (held_in slot.new) (held_in catalogue.old) (held_in catalogue.new) result }
{
    let Some(mut object) = slot.take(alloc) else {
        return Refusal::Empty.number();
    };
    let answer = swapped(alloc, &mut object, catalogue);
    slot.put(object);
    answer
}

/// Opens a connection.
pub fn lr_server_connect(alloc: Global, slot: &mut Slot, connection: u64) -> i64
    ensures { OnServer (OnConnect connection) (held_in slot.old) (held_in slot.new) result }
{
    slot.server(alloc, &mut |server| server.connect(connection))
}

/// Forgets a connection that is gone.
pub fn lr_server_lost(alloc: Global, slot: &mut Slot, connection: u64) -> i64
    ensures { OnServer (OnLost connection) (held_in slot.old) (held_in slot.new) result }
{
    slot.server(alloc, &mut |server| server.lost(connection))
}

/// Says goodbye on a connection.
pub fn lr_server_farewell(alloc: Global, slot: &mut Slot, connection: u64) -> i64
    ensures { OnServer (OnFarewell connection) (held_in slot.old) (held_in slot.new) result }
{
    slot.server(alloc, &mut |server| server.farewell(connection))
}

/// Whether what comes on a connection has no meaning.
pub fn lr_server_is_closed(alloc: Global, slot: &mut Slot, connection: u64) -> i64
    ensures { OnServer (OnIsClosed connection) (held_in slot.old) (held_in slot.new) result }
{
    slot.server(alloc, &mut |server| Ok(server.is_closed(connection)))
}

/// Takes octets of a connection, and answers how many.
pub fn lr_server_feed(
    alloc: Global,
    slot: &mut Slot,
    connection: u64,
    moment: u64,
    octets: &[u8],
) -> i64
    ensures { OnServer (OnFeed connection moment octets.now) (held_in slot.old) (held_in slot.new) result }
{
    slot.server(alloc, &mut |server| server.feed(connection, moment, octets))
}

/// Says what waits: `lr_request`.
pub fn lr_server_asked(alloc: Global, slot: &mut Slot, room: &mut [u8]) -> i64
    ensures does { OnServer (OnAsked room.old room.new) (held_in slot.old) (held_in slot.new) result }
    ensures none { result ≤ℤ pos 0 → room.new ≡ room.old }
{
    slot.server(alloc, &mut |server| Ok(server.asked(room)))
}

/// Copies a part of the request of a ticket, which waits or is parked.
pub fn lr_server_part(
    alloc: Global,
    slot: &mut Slot,
    ticket: u64,
    part: u32,
    room: &mut [u8],
) -> i64
    ensures does { OnServer (OnPart ticket part room.old room.new) (held_in slot.old) (held_in slot.new) result }
    ensures room { HasNoServer (held_in slot.old) → room.new ≡ room.old }
{
    slot.server(alloc, &mut |server| server.part(ticket, part, room))
}

/// Answers by results.
pub fn lr_server_answer(
    alloc: Global,
    slot: &mut Slot,
    ticket: u64,
    order: u32,
    results: &[u8],
) -> i64
    ensures { OnServer (OnAnswer ticket order results.now) (held_in slot.old) (held_in slot.new) result }
{
    slot.server(alloc, &mut |server| server.answer(ticket, order, results))
}

/// Answers by an exception that the operation declares.
pub fn lr_server_raise(
    alloc: Global,
    slot: &mut Slot,
    ticket: u64,
    id: &[u8],
    order: u32,
    members: &[u8],
) -> i64
    ensures { OnServer (OnRaise ticket id.now order members.now) (held_in slot.old) (held_in slot.new) result }
{
    slot.server(
        alloc,
        &mut |server| server.raise(ticket, id, order, members),
    )
}

/// Answers by a system exception.
pub fn lr_server_system(
    alloc: Global,
    slot: &mut Slot,
    ticket: u64,
    name: u32,
    minor: u32,
    completed: u32,
) -> i64
    ensures { OnServer (OnSystem ticket name minor completed) (held_in slot.old) (held_in slot.new) result }
{
    slot.server(
        alloc,
        &mut |server| server.system(ticket, name, minor, completed),
    )
}

/// Answers a raw operation.
pub fn lr_server_answer_raw(
    alloc: Global,
    slot: &mut Slot,
    ticket: u64,
    status: u32,
    order: u32,
    body: &[u8],
) -> i64
    ensures { OnServer (OnAnswerRaw ticket status order body.now) (held_in slot.old) (held_in slot.new) result }
{
    slot.server(
        alloc,
        &mut |server| server.answer_raw(ticket, status, order, body),
    )
}

/// Answers by an outcome that its owner has stored, and keeps nothing.
pub fn lr_server_answer_unkept(
    alloc: Global,
    slot: &mut Slot,
    ticket: u64,
    status: u32,
    order: u32,
    body: &[u8],
) -> i64
    ensures { OnServer (OnAnswerUnkept ticket status order body.now) (held_in slot.old) (held_in slot.new) result }
{
    slot.server(
        alloc,
        &mut |server| server.answer_unkept(ticket, status, order, body),
    )
}

/// Answers `_is_a` and `_non_existent`.
pub fn lr_server_identify(alloc: Global, slot: &mut Slot, ticket: u64) -> i64
    ensures { OnServer (OnIdentify ticket) (held_in slot.old) (held_in slot.new) result }
{
    slot.server(alloc, &mut |server| server.identify(ticket))
}

/// Gives up the request that waits.
pub fn lr_server_give_up(alloc: Global, slot: &mut Slot, ticket: u64) -> i64
    ensures { OnServer (OnGiveUp ticket) (held_in slot.old) (held_in slot.new) result }
{
    slot.server(alloc, &mut |server| server.give_up(ticket))
}

/// Refuses the request of a ticket, for now.
pub fn lr_server_refuse(alloc: Global, slot: &mut Slot, ticket: u64, name: u32, minor: u32) -> i64
    ensures { OnServer (OnRefuse ticket name minor) (held_in slot.old) (held_in slot.new) result }
{
    slot.server(alloc, &mut |server| server.refuse(ticket, name, minor))
}

/// Gives up the request that waits, and says goodbye first.
pub fn lr_server_goodbye(alloc: Global, slot: &mut Slot, ticket: u64) -> i64
    ensures { OnServer (OnGoodbye ticket) (held_in slot.old) (held_in slot.new) result }
{
    slot.server(alloc, &mut |server| server.goodbye(ticket))
}

/// Moves octets that are due on a connection into a room.
pub fn lr_server_output(alloc: Global, slot: &mut Slot, connection: u64, room: &mut [u8]) -> i64
    ensures does { OnServer (OnOutput connection room.old room.new) (held_in slot.old) (held_in slot.new) result }
    ensures room { HasNoServer (held_in slot.old) → room.new ≡ room.old }
{
    slot.server(alloc, &mut |server| Ok(server.output(connection, room)))
}
