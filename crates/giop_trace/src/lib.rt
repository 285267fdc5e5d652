//! A trace of GIOP connections (CORBA 3.3 Part 2, chapter 9): the messages of both sides in order, each with the request
//! that it answers or cancels and the one that it repeats, read of what `tshark` prints of a capture.
//!
//! It stands on `giop_tap`, which hears both sides of a connection, and on `giop_lines` for what is printed. It promises
//! whose octets a line of its input has.
#![tactic(auto)]

mod asked;
mod block;
mod choice;
mod coming;
mod direction;
mod follow;
mod frames;
mod headers;
mod item;
mod notes;
mod open;
mod opening;
mod packets;
mod program;
mod session;
mod sink;
mod steps;
mod stop;
mod telling;
mod text;
mod values;
mod yaml;

// what `giop trace` does
pub use choice::Choice;
pub use program::{KEYS, Options, trace};
pub use stop::{Failure, Stop};
