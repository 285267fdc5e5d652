//! What names a request over all its transmissions.

/// A client and its number for a request (FT 23.2.7).
#[derive(Debug, PartialEq, Eq, PartialOrd, Ord, Drop)]
pub(crate) struct Key {
    pub client_id: Vec<u8>,
    pub retention_id: i32,
}
