//! Object URLs `corbaloc:` (IOP 7.6.10.1): texts that people write for where an object is reached
//! and what its key is there, and the references that they stand for.
#![tactic(auto)]

mod address;
mod error;
mod host;
mod key;
mod location;
mod places;
mod reference;

pub use address::Address;
pub use error::LocationError;
pub use location::{Location, parse_location};
pub use reference::reference_of;
