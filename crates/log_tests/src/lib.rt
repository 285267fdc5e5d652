//! Tests of the retention log: each call once with ample memory, what no contract says, and the plain
//! program of its definition beside it.
#![tactic(auto)]

#[cfg(test)]
mod comparing;
#[cfg(test)]
mod exceptions;
#[cfg(test)]
mod list_log;
#[cfg(test)]
mod logs;
#[cfg(test)]
mod many;
#[cfg(test)]
mod minors;
#[cfg(test)]
mod outcomes;
#[cfg(test)]
mod steps;
