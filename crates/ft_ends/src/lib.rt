//! Clients that call again and the server that acts once, over one schedule of steps (CORBA 3.3 Part 2, chapter 9;
//! FT 23.2.7).
//!
//! What a client's call completes with is the outcome of its one performance, or a refusal of a transmission of it that was not
//! performed. The crate stands on `ft_client` and `ft_orb`.
#![tactic(auto)]

pub mod laws;
mod octets;
mod outcomes;
mod playing;
mod post;
mod steps;
mod taken;
mod way;
mod wire;

pub use playing::both_ends;
pub use steps::{Call, Step};
