//! Tests of connections over a wire, and of those that the program serves: what a server does over a wire in memory, over
//! wires that fail, and over a socket.
#![tactic(auto)]

#[cfg(test)]
mod contexts;
#[cfg(test)]
mod ends;
#[cfg(test)]
mod faults;
#[cfg(test)]
mod messages;
#[cfg(test)]
mod owners;
#[cfg(test)]
mod sockets;
#[cfg(test)]
mod ticks;
#[cfg(test)]
mod visits;
