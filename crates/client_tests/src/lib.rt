//! Tests of the client that sends its calls again: octets written out by hand, what it writes, and what completes its
//! calls; and of the client and a server over octets in memory.
#![tactic(auto)]

#[cfg(test)]
mod both;
#[cfg(test)]
mod calls;
#[cfg(test)]
mod clients;
#[cfg(test)]
mod octets;
#[cfg(test)]
mod raw;
#[cfg(test)]
mod redirecting;
#[cfg(test)]
mod replies;
#[cfg(test)]
mod sessions;
#[cfg(test)]
mod steps;
#[cfg(test)]
mod trying;
