//! A server of `ft_orb` over TCP: the system's clock, an accepted socket, and connections that are served one after
//! another.
//!
//! It stands on `ft_orb`, which serves one connection over a wire. It promises that connections are numbered from 1,
//! that each is opened and served to its end before the next is accepted, and that the server afterwards stands for
//! just these.
#![tactic(auto)]

mod clock;
mod serving;
mod socket;

pub use clock::SystemClock;
pub use serving::{serve_connection, serve_on};
pub use socket::Socket;
