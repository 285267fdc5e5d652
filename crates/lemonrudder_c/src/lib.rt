//! The functions that C calls: lemonrudder.h.
//!
//! Each calls the function of its name in `lemonrudder`, with what it is given, and says the contract of that again.
#![tactic(auto)]

ghost use Rattle.std.specs.Prelude.{◌≡◌, None};
ghost use Rattle.lemonrudder.specs.Moments.{moment_of};
ghost use Rattle.lemonrudder.specs.Slots.{held_in};

mod assembler;
mod catalogue;
mod cdr;
mod client;
mod ior;
mod leaving;
mod looking;
mod message;
mod parking;
mod raw_call;
mod replying;
mod server;

use lemonrudder::Slot;
use std::alloc::Global;

/// The version of the library: major * 65536 + minor * 256 + patch.
#[unsafe(no_mangle)]
pub extern "C" fn lr_version() -> u32
    ensures { result ≡ 512 }
{
    lemonrudder::lr_version()
}

/// Empties a slot of any kind, and frees what it held.
#[unsafe(no_mangle)]
pub extern "C" fn lr_close(alloc: Global, slot: &mut Slot)
    ensures { held_in slot.new ≡ None }
{
    lemonrudder::lr_close(alloc, slot);
}

/// The moment of seconds and nanoseconds since 1970. The greatest, where it lies beyond.
#[unsafe(no_mangle)]
pub extern "C" fn lr_moment(seconds: u64, nanoseconds: u32) -> u64
    ensures { result ≡ moment_of seconds nanoseconds }
{
    lemonrudder::lr_moment(seconds, nanoseconds)
}
