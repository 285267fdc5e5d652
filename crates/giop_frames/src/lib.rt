//! Streams of GIOP messages (GIOP 9.4): an assembler that takes octets as they come and lends
//! each message that completes, its fragments joined; and a writer that cuts a message into fragments.
//!
//! It stands on `giop_core`, which reads and writes one message. It promises that the messages and the
//! first fault are those of the definitions in `specs/`, wherever the stream is cut into pieces, and that the
//! octets held stay within the limits.
#![tactic(auto)]

mod assembler;
mod deframer;
mod fault;
mod fragmenter;
mod in_place;
pub mod laws;
mod limits;
mod naming;
mod partial;
mod reassembly;

pub use assembler::Assembler;
pub use fault::StreamFault;
pub use fragmenter::{fragments, fragments_11, is_cuttable, is_cuttable_11};
pub use limits::{Cuts, Limits};
