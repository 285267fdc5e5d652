//! What a program that stands between clients and servers needs of messages that pass through it: what is told of those of
//! a stream, which goes on where one is too long or at fault in itself; a Request and a Reply that are written with their
//! body at the place that it came from; and a message of 1.1 that is cut where it was cut.
//!
//! It stands on `giop_core` for messages and on `giop_frames` for fragments. It promises that what is told is a function of
//! the stream alone, and that what is written is read again as the same message, with its body at the same place.
#![tactic(auto)]

mod cutting;
mod fields;
mod finishing;
pub mod laws;
mod passes;
mod placed;
pub mod placing_laws;

// what is told of the messages of a stream
pub use passes::Passing;
pub use passes::splitting::Frames;

// a message whose body stands at a place
pub use fields::PADDING;
pub use placed::{LONGEST, PlacingError, write_reply, write_request};

// a message of 1.1, cut at given places
pub use cutting::cut;
