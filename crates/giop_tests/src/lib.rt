//! Tests of `giop_core`: octets written out by hand from the standard's layouts, and what is read, written and judged of
//! them. What the program shows of messages stands in tests/rows.
#![tactic(auto)]

#[cfg(test)]
mod header;
#[cfg(test)]
mod lent;
#[cfg(test)]
mod printed;
#[cfg(test)]
mod put;
#[cfg(test)]
mod read;
#[cfg(test)]
mod said;
#[cfg(test)]
mod versions;
#[cfg(test)]
mod written_exceptions;
#[cfg(test)]
mod written_locates;
#[cfg(test)]
mod written_others;
#[cfg(test)]
mod written_replies;
#[cfg(test)]
mod written_requests;
