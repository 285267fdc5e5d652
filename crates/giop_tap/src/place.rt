//! Where a request waits for its answer.

use crate::sender::Sender;

/// The kind of answer that a request waits for.
#[derive(Clone, Copy, Debug, PartialEq, Eq, PartialOrd, Ord)]
pub(crate) enum Wanted {
    /// A Reply, to a Request.
    Reply,
    /// A LocateReply, to a LocateRequest.
    Location,
}

/// Where a request waits: what its answer has in common with it.
#[derive(Clone, Copy, Debug, PartialEq, Eq, PartialOrd, Ord)]
pub(crate) struct Place {
    pub connection: u64,
    /// The side that asked.
    pub sender: Sender,
    pub wanted: Wanted,
    pub id: u32,
}
