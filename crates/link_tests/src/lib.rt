//! Tests of `giop_link`: what a server's and a client's end of a connection lend of octets written out by hand, what a
//! client's end writes, and how each ends.
#![tactic(auto)]

#[cfg(test)]
mod client;
#[cfg(test)]
mod client_rows;
#[cfg(test)]
mod listener;
#[cfg(test)]
mod server;
