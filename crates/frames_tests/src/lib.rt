//! Tests of `giop_frames`: streams of octets written out by hand from the standard's layouts and the messages that they
//! complete, messages that are cut, and limits.
#![tactic(auto)]

#[cfg(test)]
mod cutting;
#[cfg(test)]
mod faults;
#[cfg(test)]
mod limits;
#[cfg(test)]
mod samples;
#[cfg(test)]
mod stream_rows;
#[cfg(test)]
mod streams;
