//! Octets that hexadecimal digits give, and the digits of octets, which are read and written a block at a time.
#![tactic(auto)]

mod lanes;
mod reading;
mod writing;

pub use reading::{DigitError, decode, octets_of, place_of_bad};
pub use writing::encode;
