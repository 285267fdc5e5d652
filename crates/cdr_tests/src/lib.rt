//! Tests of `cdr_core` and `ior_core`: octets written out by hand from the standard's rules, and what a cursor reads
//! and a writer appends of them, part by part. How values, references and profiles are read and written stands in
//! tests/readings.
#![tactic(auto)]

#[cfg(test)]
mod cursor;
#[cfg(test)]
mod lists;
#[cfg(test)]
mod orders;
#[cfg(test)]
mod passing;
#[cfg(test)]
mod references;
#[cfg(test)]
mod steps;
#[cfg(test)]
mod writer;
