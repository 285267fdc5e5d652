//! A client that sends its calls again.
#![tactic(auto, using(crate::proofs::Doors::by_client))]

ghost use Rattle.std.specs.Prelude.{◌≡◌, ◌<ℤ◌, ◌≤ℤ◌, pos};
ghost use Rattle.lemonrudder.specs.Answers.{OnClient};
ghost use Rattle.lemonrudder.specs.Calls.{IsMade, OnBody, OnCancel, OnCompleted, OnConnected, OnFeed, OnIsConnected, OnLost, OnOutput, OnTick};
ghost use Rattle.lemonrudder.specs.Invokes.{OnCall, question};
ghost use Rattle.lemonrudder.specs.Opening.{OpensMade};
ghost use Rattle.lemonrudder.specs.Resuming.{OnForwarded, OnRecall, OnRedirect, OnResend, OnSkip};
ghost use Rattle.lemonrudder.specs.Adjusts.{OnSet};
ghost use Rattle.lemonrudder.specs.Slots.{held_in};

use crate::calling::{Calling, Question};
use crate::object::Object;
use crate::opened::open;
use crate::refusal::Refusal;
use crate::slot::Slot;
use std::alloc::Global;

/// Opens a client that is not connected.
pub fn lr_client_open(alloc: Global, slot: &mut Slot, id: &[u8]) -> i64
    ensures { OpensMade Object.Client (IsMade id.now) (held_in slot.old) (held_in slot.new) result }
{
    if !slot.is_empty() {
        return Refusal::Open.number();
    }
    match Calling::new(alloc, id) {
        Ok(calling) => open(alloc, slot, Object::Client(calling)),
        Err(refusal) => refusal.number(),
    }
}

/// The client is connected anew.
pub fn lr_client_connected(alloc: Global, slot: &mut Slot, now: u64) -> i64
    ensures { OnClient (OnConnected now) (held_in slot.old) (held_in slot.new) result }
{
    slot.client(alloc, &mut |client| client.connected(now))
}

/// The connection is lost.
pub fn lr_client_lost(alloc: Global, slot: &mut Slot) -> i64
    ensures { OnClient OnLost (held_in slot.old) (held_in slot.new) result }
{
    slot.client(alloc, &mut |client| Ok(client.lost()))
}

/// Whether the client is connected.
pub fn lr_client_is_connected(alloc: Global, slot: &mut Slot) -> i64
    ensures { OnClient OnIsConnected (held_in slot.old) (held_in slot.new) result }
{
    slot.client(alloc, &mut |client| Ok(client.is_connected()))
}

/// Sets what a client keeps, or what it is made with.
pub fn lr_client_set(alloc: Global, slot: &mut Slot, what: u32, value: u64) -> i64
    ensures { OnClient (OnSet what value) (held_in slot.old) (held_in slot.new) result }
{
    slot.client(alloc, &mut |client| client.set(what, value))
}

/// Calls an operation of an object, and answers the number of the call.
pub fn lr_client_call(
    alloc: Global,
    slot: &mut Slot,
    now: u64,
    expiration: u64,
    key: &[u8],
    operation: &[u8],
    types: &[u8],
    order: u32,
    arguments: &[u8],
) -> i64
    ensures { OnClient (OnCall now expiration (question key.now operation.now types.now order arguments.now)) (held_in slot.old) (held_in slot.new) result }
{
    let asked = Question {
        key,
        operation,
        types,
        order,
        arguments,
    };
    slot.client(alloc, &mut |client| client.call(now, expiration, &asked))
}

/// Takes a call of before up again, under its own number.
pub fn lr_client_recall(
    alloc: Global,
    slot: &mut Slot,
    call: i64,
    now: u64,
    expiration: u64,
    key: &[u8],
    operation: &[u8],
    types: &[u8],
    order: u32,
    arguments: &[u8],
) -> i64
    ensures { OnClient (OnRecall call now expiration (question key.now operation.now types.now order arguments.now)) (held_in slot.old) (held_in slot.new) result }
{
    let asked = Question {
        key,
        operation,
        types,
        order,
        arguments,
    };
    slot.client(
        alloc,
        &mut |client| client.recall(call, now, expiration, &asked),
    )
}

/// Numbers up to this one were given to calls of before.
pub fn lr_client_skip_to(alloc: Global, slot: &mut Slot, call: i64) -> i64
    ensures { OnClient (OnSkip call) (held_in slot.old) (held_in slot.new) result }
{
    slot.client(alloc, &mut |client| client.skip_to(call))
}

/// Sends what is pending and was not sent on this connection.
pub fn lr_client_resend(alloc: Global, slot: &mut Slot, now: u64) -> i64
    ensures { OnClient (OnResend now) (held_in slot.old) (held_in slot.new) result }
{
    slot.client(alloc, &mut |client| client.resend(now))
}

/// Says the first call that is led elsewhere, `lr_completion`, and copies the reference to which.
pub fn lr_client_forwarded(
    alloc: Global,
    slot: &mut Slot,
    completion: &mut [u8],
    room: &mut [u8],
) -> i64
    ensures told { OnClient (OnForwarded completion.old completion.new room.old room.new) (held_in slot.old) (held_in slot.new) result }
    ensures none { result ≤ℤ pos 0 → completion.new ≡ completion.old }
    ensures uncopied { result ≤ℤ pos 0 → room.new ≡ room.old }
{
    slot.client(alloc, &mut |client| Ok(client.forwarded(completion, room)))
}

/// Asks under another object key for a call that is led elsewhere.
pub fn lr_client_redirect(
    alloc: Global,
    slot: &mut Slot,
    call: i64,
    key: &[u8],
    operation: &[u8],
    types: &[u8],
    order: u32,
    arguments: &[u8],
) -> i64
    ensures { OnClient (OnRedirect call (question key.now operation.now types.now order arguments.now)) (held_in slot.old) (held_in slot.new) result }
{
    let asked = Question {
        key,
        operation,
        types,
        order,
        arguments,
    };
    slot.client(alloc, &mut |client| client.redirect(call, &asked))
}

/// Cancels a call.
pub fn lr_client_cancel(alloc: Global, slot: &mut Slot, call: i64) -> i64
    ensures { OnClient (OnCancel call) (held_in slot.old) (held_in slot.new) result }
{
    slot.client(alloc, &mut |client| client.cancel(call))
}

/// A moment has come.
pub fn lr_client_tick(alloc: Global, slot: &mut Slot, now: u64) -> i64
    ensures { OnClient (OnTick now) (held_in slot.old) (held_in slot.new) result }
{
    slot.client(alloc, &mut |client| Ok(client.tick(now)))
}

/// Takes octets that came on the connection.
pub fn lr_client_feed(alloc: Global, slot: &mut Slot, octets: &[u8]) -> i64
    ensures { OnClient (OnFeed octets.now) (held_in slot.old) (held_in slot.new) result }
{
    slot.client(alloc, &mut |client| client.feed(octets))
}

/// Takes the next completion: `lr_completion`.
pub fn lr_client_completed(alloc: Global, slot: &mut Slot, room: &mut [u8]) -> i64
    ensures taken { OnClient (OnCompleted room.old room.new) (held_in slot.old) (held_in slot.new) result }
    ensures none { result ≤ℤ pos 0 → room.new ≡ room.old }
{
    slot.client(alloc, &mut |client| Ok(client.completed(room)))
}

/// Copies the body of the completion that was taken last.
pub fn lr_client_body(alloc: Global, slot: &mut Slot, room: &mut [u8]) -> i64
    ensures copied { OnClient (OnBody room.old room.new) (held_in slot.old) (held_in slot.new) result }
    ensures refused { result <ℤ pos 0 → room.new ≡ room.old }
{
    slot.client(alloc, &mut |client| client.body(room))
}

/// Moves octets that are due into a room.
pub fn lr_client_output(alloc: Global, slot: &mut Slot, room: &mut [u8]) -> i64
    ensures moved { OnClient (OnOutput room.old room.new) (held_in slot.old) (held_in slot.new) result }
    ensures refused { result <ℤ pos 0 → room.new ≡ room.old }
{
    slot.client(alloc, &mut |client| Ok(client.output(room)))
}
