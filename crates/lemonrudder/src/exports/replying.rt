//! What is asked of an outcome before it is handed in, and said of its replies.
#![tactic(auto, using(crate::proofs::Doors::by_server))]

ghost use Rattle.std.specs.Prelude.{◌≡◌, ◌<ℤ◌, pos};
ghost use Rattle.lemonrudder.specs.Answers.{OnServer};
ghost use Rattle.lemonrudder.specs.Beforehand.{OnCanAnswer, OnException, OnReplyContexts};
ghost use Rattle.lemonrudder.specs.Slots.{held_in};

use crate::slot::Slot;
use std::alloc::Global;

/// Whether results would be taken.
pub fn lr_server_can_answer(
    alloc: Global,
    slot: &mut Slot,
    ticket: u64,
    order: u32,
    results: &[u8],
) -> i64
    ensures { OnServer (OnCanAnswer ticket order results.now) (held_in slot.old) (held_in slot.new) result }
{
    slot.server(
        alloc,
        &mut |server| server.can_answer(ticket, order, results),
    )
}

/// Writes the body that raises an exception.
pub fn lr_server_exception(
    alloc: Global,
    slot: &mut Slot,
    ticket: u64,
    id: &[u8],
    order: u32,
    members: &[u8],
    room: &mut [u8],
) -> i64
    ensures told { OnServer (OnException ticket id.now order members.now room.old room.new) (held_in slot.old) (held_in slot.new) result }
    ensures refused { result <ℤ pos 0 → room.new ≡ room.old }
{
    slot.server(
        alloc,
        &mut |server| server.exception(ticket, id, order, members, room),
    )
}

/// Says service contexts of the replies that the next answer of a ticket makes due.
pub fn lr_server_reply_contexts(
    alloc: Global,
    slot: &mut Slot,
    ticket: u64,
    order: u32,
    contexts: &[u8],
) -> i64
    ensures { OnServer (OnReplyContexts ticket order contexts.now) (held_in slot.old) (held_in slot.new) result }
{
    slot.server(
        alloc,
        &mut |server| server.reply_contexts(ticket, order, contexts),
    )
}
