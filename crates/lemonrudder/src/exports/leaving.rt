//! Why connections of a server end.
#![tactic(auto, using(crate::proofs::Doors::by_server))]

ghost use Rattle.lemonrudder.specs.Answers.{OnServer};
ghost use Rattle.lemonrudder.specs.Leaving.{OnWhy};
ghost use Rattle.lemonrudder.specs.Slots.{held_in};

use crate::slot::Slot;
use std::alloc::Global;

/// Why a connection ended: `LR_WHY_..`, or `LR_FAULT_..`.
pub fn lr_server_why(alloc: Global, slot: &mut Slot, connection: u64) -> i64
    ensures { OnServer (OnWhy connection) (held_in slot.old) (held_in slot.new) result }
{
    slot.server(alloc, &mut |server| server.why(connection))
}
