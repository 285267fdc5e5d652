//! What C has of an object.

ghost use Rattle.std.specs.Prelude.{◌≡◌, ◌==◌, not};
ghost use Rattle.lemonrudder.specs.Ownership.{is_held};

mod contents;
mod doors;

use crate::handle::Handle;

/// An object, or none where the kind is 0. Memory of zeros is an empty slot.
#[repr(C)]
#[derive(Drop)]
pub struct Slot {
    kind: u32,
    held: Handle,
    ghost agrees: { is_held held.held ≡ not (kind == 0) },
}
