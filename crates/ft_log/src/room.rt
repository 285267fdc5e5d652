//! What is made beforehand for an entry, so that keeping it takes no memory.

ghost use Rattle.std.specs.Prelude.{◌≡◌, IfOk, bytes_eq, true};
ghost use Rattle.ft_log.specs.View.{key_of};

use crate::key::Key;
use crate::story::Mark;
use std::alloc::{AllocError, Global};

/// The key that room is made for, which only proofs read, and its client, for the count where clients are counted.
#[derive(Drop)]
pub(crate) struct Room {
    pub(crate) key: Mark,
    pub(crate) client_id: Vec<u8>,
}

/// Room for a key; an error if an allocation failed.
pub(crate) fn room_for(is_counted: bool, alloc: Global, key: &Key) -> Result<Room, AllocError>
    ensures key { IfOk result (λ room. key_of room.key.key ≡ key_of key.now) }
    ensures client { IfOk result (λ room. is_counted ≡ true → bytes_eq room.client_id.items (key_of key.now).client_id ≡ true) }
{
    let client_id = copied_if(is_counted, alloc, key.client_id.as_slice())?;
    Ok(Room {
        key: Mark::of(key),
        client_id,
    })
}

/// A copy of a client's octets, where clients are counted.
fn copied_if(is_counted: bool, alloc: Global, client_id: &[u8]) -> Result<Vec<u8>, AllocError>
    ensures { IfOk result (λ v. is_counted ≡ true → v.items ≡ client_id.now) }
{
    if is_counted {
        Vec::from_slice(alloc, client_id)
    } else {
        Ok(Vec::new(alloc))
    }
}
