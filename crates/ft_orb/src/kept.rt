//! What an engine keeps for its clients, in numbers for an operator.

ghost use Rattle.std.specs.Prelude.{◌≡◌, length};
ghost use Rattle.ft_log.specs.Keys.{held_of};
ghost use Rattle.ft_log.specs.Kept.{keys_of, least_expiration};

use crate::engine::Engine;
use ft_objects::Catalogue;

impl<C: Catalogue + Drop> Engine<C> {
    ghost use Rattle.ft_orb.specs.Engines.{kept_in};

    /// How many outcomes it keeps, and places of outcomes that will come: of requests that carry FT_REQUEST. What has expired
    /// may count until the next `tick` or request with a key, and takes no place from a new key.
    pub fn kept_len(&self) -> usize
        ensures { result ≡ length (kept_in self.now) }
    {
        self.keeper.log.len()
    }

    /// How many of these are a client's.
    pub fn held_by(&self, client_id: &[u8]) -> u32
        ensures { result ≡ held_of client_id.now (keys_of (kept_in self.now)) }
    {
        self.keeper.log.held_by(client_id)
    }

    /// The least expiration under which something is kept. Once a moment after it has come, `tick` forgets that.
    pub fn next_expiry(&self) -> Option<u64>
        ensures { result ≡ least_expiration (kept_in self.now) }
    {
        self.keeper.log.next_expiry()
    }
}
