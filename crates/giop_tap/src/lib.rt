//! A reader beside GIOP connections (CORBA 3.3 Part 2, chapter 9): the messages of both sides in order, each with the
//! request that it answers or cancels and the one that it repeats.
//!
//! It stands on `giop_link`: a reader beside the connection is a side like a server's or a client's. It promises which
//! messages it hears of the octets of both sides, and which request each has to do with.
#![tactic(auto)]

mod either;
mod key;
mod keys;
mod pairing;
mod part;
mod place;
mod sender;
mod tracer;
mod waiting;

// the side that sent, and the side that hears all
pub use either::Either;
pub use sender::Sender;

// a reader beside connections, and what it lends
pub use pairing::Tie;
pub use tracer::{Ends, Seen, Trace};
