//! Both ends of a GIOP connection (GIOP 9.4): which messages a server or a client hears, how the
//! stream of its peer ends, and which ids a client gives and waits for.
//!
//! It stands on `giop_frames`, which makes messages of octets. It promises that what a link hears, and when it
//! has ended, are two functions of the stream alone, wherever the stream is cut into pieces.
#![tactic(auto)]

mod awaited;
mod client;
mod delivery;
mod error;
mod inbound;
pub mod laws;
mod listener;
mod server;

pub use client::{Client, ClientLink};
pub use delivery::Delivery;
pub use error::{LinkFault, SendError};
pub use inbound::Inbound;
pub use listener::{Listener, PeerEnd, Side};
pub use server::{Server, ServerLink};
