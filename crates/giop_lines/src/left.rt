//! What is left of a side.

/// What is left of a side's octets at the end of its connection.
#[derive(Clone, Copy)]
pub enum Left {
    Nothing,
    /// So many octets of a frame that is not whole, and of partial messages.
    Rest(u64, u64),
    /// So many octets from this place on were passed over.
    Passed(u64, u64),
    /// So many octets were not read.
    Unread(u64),
}
