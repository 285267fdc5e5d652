//! The retention log of a fault tolerant server (FT 23.2.7): the outcomes of requests,
//! kept by the client that asked and its number for the request, so that a repeat of a request gets the
//! first outcome.
//!
//! `Outcome` is what performing a request gave, `Key` names a request over all its transmissions, and a
//! `Log` keeps outcomes by their keys until they expire. The crate stands on `cdr_core` for values.
#![tactic(auto)]

mod counts;
mod due;
mod error;
mod held;
mod key;
pub mod laws;
mod log;
mod name;
mod order;
mod outcome;
mod queue;
mod retention;
mod room;
mod shelf;
mod stale;
mod store;
mod story;
mod system_exception;

// what performing a request gave
pub use outcome::{Outcome, RawStatus};
pub use system_exception::{Completion, SystemName};

// the log
pub use error::LogError;
pub use held::Held;
pub use key::Key;
pub use log::Log;
pub use retention::Retention;
