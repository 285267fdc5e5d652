//! A wire and a clock in memory that say what they did: they keep what `ft_orb` asks of a `Wire` and a `Clock`, and tests
//! serve connections over them.
//!
//! It stands on `ft_orb`, whose traits these are. It promises that what a wire in memory says of itself is what its calls
//! did, and a clock's moments those of its list.
#![tactic(auto)]

mod clock;
mod tape;
mod wire;

pub use clock::MemoryClock;
pub use tape::Act;
pub use wire::{MemoryWire, Terms};
