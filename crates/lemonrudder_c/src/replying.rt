//! What is asked of an outcome before it is handed in, and said of its replies.

ghost use Rattle.std.specs.Prelude.{◌≡◌, ◌<ℤ◌, pos};
ghost use Rattle.lemonrudder.specs.Answers.{OnServer};
ghost use Rattle.lemonrudder.specs.Beforehand.{OnCanAnswer, OnException, OnReplyContexts};
ghost use Rattle.lemonrudder.specs.Slots.{held_in};

use lemonrudder::Slot;
use std::alloc::Global;

/// Whether results would be taken.
#[unsafe(no_mangle)]
pub extern "C" fn lr_server_can_answer(
    alloc: Global,
    slot: &mut Slot,
    ticket: u64,
    order: u32,
    results: &[u8],
) -> i64
    ensures { OnServer (OnCanAnswer ticket order results.now) (held_in slot.old) (held_in slot.new) result }
{
    lemonrudder::lr_server_can_answer(alloc, slot, ticket, order, results)
}

/// Writes the body that raises an exception.
#[unsafe(no_mangle)]
pub extern "C" fn lr_server_exception(
    alloc: Global,
    slot: &mut Slot,
    ticket: u64,
    id: &[u8],
    order: u32,
    members: &[u8],
    room: &mut [u8],
) -> i64
    ensures told { OnServer (OnException ticket id.now order members.now room.old room.new) (held_in slot.old) (held_in slot.new) result }
    ensures refused { result <ℤ pos 0 → room.new ≡ room.old }
{
    lemonrudder::lr_server_exception(alloc, slot, ticket, id, order, members, room)
}

/// Says service contexts of the replies that the next answer of a ticket makes due.
#[unsafe(no_mangle)]
pub extern "C" fn lr_server_reply_contexts(
    alloc: Global,
    slot: &mut Slot,
    ticket: u64,
    order: u32,
    contexts: &[u8],
) -> i64
    ensures { OnServer (OnReplyContexts ticket order contexts.now) (held_in slot.old) (held_in slot.new) result }
{
    lemonrudder::lr_server_reply_contexts(alloc, slot, ticket, order, contexts)
}
