//! Why connections of a server end.

ghost use Rattle.lemonrudder.specs.Answers.{OnServer};
ghost use Rattle.lemonrudder.specs.Leaving.{OnWhy};
ghost use Rattle.lemonrudder.specs.Slots.{held_in};

use lemonrudder::Slot;
use std::alloc::Global;

/// Why a connection ended: `LR_WHY_..`, or `LR_FAULT_..`.
#[unsafe(no_mangle)]
pub extern "C" fn lr_server_why(alloc: Global, slot: &mut Slot, connection: u64) -> i64
    ensures { OnServer (OnWhy connection) (held_in slot.old) (held_in slot.new) result }
{
    lemonrudder::lr_server_why(alloc, slot, connection)
}
