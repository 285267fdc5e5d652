//! What the header declares.

ghost use Rattle.std.specs.Prelude.{◌≡◌, None};
ghost use Rattle.lemonrudder.specs.Moments.{moment_of};
ghost use Rattle.lemonrudder.specs.Slots.{held_in};

pub mod assembler;
pub mod catalogue;
pub mod cdr;
pub mod client;
pub mod ior;
pub mod leaving;
pub mod looking;
pub mod message;
pub mod parking;
pub mod raw_call;
pub mod replying;
pub mod server;

use crate::slot::Slot;
use giop_core::UNIX_EPOCH;
use std::alloc::Global;

/// The version of the library: major * 65536 + minor * 256 + patch.
pub fn lr_version() -> u32
    ensures { result ≡ 512 }
{
    512
}

/// Empties a slot of any kind, and frees what it held.
pub fn lr_close(alloc: Global, slot: &mut Slot)
    ensures { held_in slot.new ≡ None }
{
    let _object = slot.take(alloc);
}

/// How many units of 100 ns a second has.
const UNITS: u64 = 10_000_000;

/// The moment of seconds and nanoseconds since 1970. The greatest, where it lies beyond.
pub fn lr_moment(seconds: u64, nanoseconds: u32) -> u64
    ensures { result ≡ moment_of seconds nanoseconds }
{
    seconds
        .saturating_mul(UNITS)
        .saturating_add(u64::from(nanoseconds / 100))
        .saturating_add(UNIX_EPOCH)
}
