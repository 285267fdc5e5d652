//! How much a log keeps.

/// How many outcomes are kept at a time.
#[derive(Clone, Copy, Debug, PartialEq, Eq)]
pub struct Retention {
    /// In all.
    pub capacity: u32,
    /// Of each client.
    pub share: u32,
}
