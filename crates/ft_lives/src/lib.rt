//! Engines over one store, through crashes and on several machines: of each key at most one effect is ever committed, and
//! each reply is what the store has (CORBA 3.3 Part 2, chapter 9; FT 23.2.7).
//!
//! A life of an engine ends anywhere; its log ends with it, and the store stays. The crate has the law over lives, and the steps by
//! which an owner keeps to it.
#![tactic(auto)]

pub mod laws;
mod looking;
mod memory;
mod once;
mod row;
mod steps;
mod store;

pub use memory::MemoryStore;
pub use once::Verdict;
pub use steps::{look_once, perform_once};
pub use store::{Commit, Found, Store};
