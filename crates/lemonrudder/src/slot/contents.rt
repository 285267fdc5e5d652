//! What is in a slot, and its ways in and out.

ghost use Rattle.std.specs.Prelude.{◌≡◌, not, Some, None};
ghost use Rattle.lemonrudder.specs.Ownership.{is_held};
ghost use Rattle.lemonrudder.specs.Slots.{held_in, in_box};

use super::Slot;
use crate::handle::Handle;
use crate::object::Object;
use std::alloc::Global;
use std::mem;

/// The kind of a slot with an object.
const FULL: u32 = 1;

impl Slot {
    /// Whether there is no object.
    pub(crate) fn is_empty(&self) -> bool
        ensures { result ≡ not (is_held (held_in self.now)) }
    {
        self.kind == 0
    }

    /// Takes the object out.
    pub(crate) fn take(&mut self, alloc: Global) -> Option<Box<Object>>
        ensures taken { in_box result ≡ held_in self.old }
        ensures left { held_in self.new ≡ None }
    {
        if self.is_empty() {
            return None;
        }
        let none = Slot {
            kind: 0,
            held: Handle::empty(),
        };
        let Slot { kind: _, held } = mem::replace(self, none);
        Some(held.into_box(alloc))
    }

    /// Puts an object into an empty slot.
    pub(crate) fn put(&mut self, object: Box<Object>)
        requires { held_in self.old ≡ None }
        ensures { held_in self.new ≡ Some object.value }
    {
        *self = Slot {
            kind: FULL,
            held: Handle::of(object),
        };
    }
}
