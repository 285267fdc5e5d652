//! The types of operations, as a table names them, and what bodies say by them: arguments, results and exceptions by
//! name, for a person or as JSON.
//!
//! It stands on `cdr_core`, by which bodies are read, and on `giop_text` for octets in lines. It promises that a body has
//! values of such types exactly where those types spell all of its octets.
#![tactic(auto)]

mod copies;
mod draft;
mod fault;
mod fields;
mod fit;
mod forms;
mod operations;
mod plain;
mod printing;
mod reader;
mod shape;
mod signature;
mod style;
mod table;
mod texts;
mod typed;

// types in order, and the values of a body
pub use shape::{Case, Member, Plain, Shape};
pub use signature::Signature;

// a table, and why it is refused
pub use fault::{TypesError, Why};
pub use table::{Table, Told};

// a body as types have it
pub use fit::Fit;

// in which form values are printed
pub use style::Style;
