//! Raw calls of a client.

ghost use Rattle.lemonrudder.specs.Answers.{OnClient};
ghost use Rattle.lemonrudder.specs.RawCalls.{OnCallRaw, OnRecallRaw, OnRedirectRaw, raw_question};
ghost use Rattle.lemonrudder.specs.Slots.{held_in};

use lemonrudder::Slot;
use std::alloc::Global;

/// Calls an operation of an object by a body of octets, and answers the number of the call.
#[unsafe(no_mangle)]
pub extern "C" fn lr_client_call_raw(
    alloc: Global,
    slot: &mut Slot,
    now: u64,
    expiration: u64,
    wish: u32,
    key: &[u8],
    operation: &[u8],
    order: u32,
    contexts: &[u8],
    body: &[u8],
) -> i64
    ensures { OnClient (OnCallRaw now expiration (raw_question wish key.now operation.now order contexts.now body.now)) (held_in slot.old) (held_in slot.new) result }
{
    lemonrudder::lr_client_call_raw(
        alloc, slot, now, expiration, wish, key, operation, order, contexts, body,
    )
}

/// Takes a raw call of before up again, under its own number.
#[unsafe(no_mangle)]
pub extern "C" fn lr_client_recall_raw(
    alloc: Global,
    slot: &mut Slot,
    call: i64,
    now: u64,
    expiration: u64,
    wish: u32,
    key: &[u8],
    operation: &[u8],
    order: u32,
    contexts: &[u8],
    body: &[u8],
) -> i64
    ensures { OnClient (OnRecallRaw call now expiration (raw_question wish key.now operation.now order contexts.now body.now)) (held_in slot.old) (held_in slot.new) result }
{
    lemonrudder::lr_client_recall_raw(
        alloc, slot, call, now, expiration, wish, key, operation, order, contexts, body,
    )
}

/// Asks under another object key, by a body of octets, for a call that is led elsewhere.
#[unsafe(no_mangle)]
pub extern "C" fn lr_client_redirect_raw(
    alloc: Global,
    slot: &mut Slot,
    call: i64,
    wish: u32,
    key: &[u8],
    operation: &[u8],
    order: u32,
    contexts: &[u8],
    body: &[u8],
) -> i64
    ensures { OnClient (OnRedirectRaw call (raw_question wish key.now operation.now order contexts.now body.now)) (held_in slot.old) (held_in slot.new) result }
{
    lemonrudder::lr_client_redirect_raw(
        alloc, slot, call, wish, key, operation, order, contexts, body,
    )
}
