//! What names a request over all its transmissions.

ghost use Rattle.std.specs.Prelude.{◌≡◌, ◌↔◌, IfOk, IsTrue};
ghost use Rattle.ft_log.specs.Keys.{same_key};
ghost use Rattle.ft_log.specs.View.{key_of};

use std::alloc::{AllocError, Global};

/// The client that asks, the octets of a string without the NUL at its end, and its number for the request: together they name the
/// request over all its transmissions (FT 23.2.7).
#[derive(Debug, Drop)]
pub struct Key {
    pub client_id: Vec<u8>,
    pub retention_id: i32,
}

impl Key {
    /// A key with a copy of these octets; an error if an allocation failed.
    pub fn new(alloc: Global, client_id: &[u8], retention_id: i32) -> Result<Key, AllocError>
        ensures { IfOk result (λ key. key_of key ≡ record { client_id = client_id.now; retention_id = retention_id }) }
    {
        Ok(Key {
            client_id: Vec::from_slice(alloc, client_id)?,
            retention_id,
        })
    }

    /// Whether both parts are equal.
    pub fn is_same(&self, other: &Key) -> bool
        ensures same { result ≡ same_key (key_of self.now) (key_of other.now) }
        ensures equal { IsTrue result ↔ (key_of self.now ≡ key_of other.now) }
    {
        self.retention_id == other.retention_id
            && self.client_id.as_slice() == other.client_id.as_slice()
    }

    /// An equal key in memory of its own; an error if an allocation failed.
    pub fn copy(&self, alloc: Global) -> Result<Key, AllocError>
        ensures { IfOk result (λ key. key_of key ≡ key_of self.now) }
    {
        Key::new(alloc, &self.client_id, self.retention_id)
    }
}
