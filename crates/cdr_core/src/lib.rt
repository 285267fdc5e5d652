//! Common Data Representation (CDR 9.3): values as octets, aligned and in either byte
//! order.
//!
//! `read` and `write` go between octets and a `Val` by a `Ty`; a `Cursor` reads part by part and
//! lends what it reads, a `Writer` appends part by part. Places count octets from the beginning of
//! the message or encapsulation, on which alignment rests.
#![tactic(auto)]

mod basic;
mod cursor;
mod fault;
mod fitting;
pub mod laws;
mod measuring;
mod numbers;
mod order;
mod parts;
mod passing;
mod reading;
mod runs;
mod types;
mod validity;
mod values;
mod writer;
mod writing;

pub use cursor::Cursor;
pub use fault::{CdrError, Fault, Kind};
pub use fitting::fits;
pub use measuring::{end_of, end_of_list};
pub use order::Order;
pub use parts::has_no_nul;
pub use passing::pass_list;
pub use reading::{read, read_list, read_list_into};
pub use types::{Case, Ty};
pub use validity::are_valid;
pub use values::Val;
pub use writer::Writer;
pub use writing::{are_writable, writable, write, write_list};
