//! Tests of `giop_proxy`: octets written out by hand from the standard's layouts, what is told of the messages of streams,
//! and what is written of such that pass through.
#![tactic(auto)]

#[cfg(test)]
mod cut;
#[cfg(test)]
mod long;
#[cfg(test)]
mod octets;
#[cfg(test)]
mod passing;
#[cfg(test)]
mod placed;
#[cfg(test)]
mod placed_anywhere;
#[cfg(test)]
mod rows;
