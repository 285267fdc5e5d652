//! Object references (IOP 7.6 and IIOP 9.7): IORs, their IIOP profiles, and their text.
//!
//! It reads and writes what `cdr_core` has no types for: a reference is a structure of the
//! standard's IDL, a profile is an encapsulation, and a reference's text is `IOR:` with the
//! hexadecimal digits of an encapsulation. What is written is read as the same value (`laws`).
#![tactic(auto)]

mod error;
pub mod laws;
mod profile;
mod reference;
mod tagged;
mod text;
mod writable;

pub use error::IorError;
pub use profile::{IiopProfile, TAG_INTERNET_IOP, iiop_key, profile_key, read_iiop, write_iiop};
pub use reference::{Ior, object_key, read_ior, write_ior};
pub use tagged::{Component, Profile, Tagged, read_tagged};
pub use text::{parse_text, print_text};
