//! Opening a slot.

ghost use Rattle.std.specs.Prelude.{◌≡◌};
ghost use Rattle.lemonrudder.specs.Answers.{Opens};
ghost use Rattle.lemonrudder.specs.Refusals.{error_number};
ghost use Rattle.lemonrudder.specs.Slots.{held_in};

use crate::object::Object;
use crate::refusal::Refusal;
use crate::slot::Slot;
use std::alloc::Global;

/// Drops what could not be put anywhere, and gives the number of the refusal.
fn refused<T: Drop>(_given: T, refusal: Refusal) -> i64
    ensures { result ≡ error_number refusal }
{
    refusal.number()
}

/// Puts an object into an empty slot.
pub fn open(alloc: Global, slot: &mut Slot, object: Object) -> i64
    ensures { Opens object (held_in slot.old) (held_in slot.new) result }
{
    if !slot.is_empty() {
        return refused(object, Refusal::Open);
    }
    match Box::new(alloc, object) {
        Ok(object) => {
            slot.put(object);
            0
        }
        Err(failed) => refused(failed, Refusal::Memory),
    }
}
