//! What is on offer: the objects and the types of their operations.

ghost use Rattle.std.specs.Prelude.{◌≡◌};
ghost use Rattle.ft_objects.specs.Catalogues.{IsOffer, Offer};
ghost use Rattle.ft_objects.specs.Interfaces.{interface_of};

use crate::decided::Decision;
use crate::servant::Servant;
use crate::signature::Lookup;
use giop_core::{Request, Version};

/// The objects that are served, and the types of their operations; not what they do.
pub trait Catalogue {
    /// What a catalogue offers.
    ghost offers: { Self → Offer };

    /// Types are valid; and a key names no object exactly where every look-up under it says so.
    ghost promises: { (catalogue : Self) → IsOffer (offers catalogue) };

    /// The types of an operation.
    fn interface(&self, object_key: &[u8], operation: &[u8]) -> Lookup<'_>
        ensures { interface_of result ≡ (offers self.now).interface object_key.now operation.now };

    /// Whether a key names an object.
    fn has_object(&self, object_key: &[u8]) -> bool
        ensures { result ≡ (offers self.now).knows object_key.now };

    /// Hears what becomes of a request that came on a connection, before anything is sent for it. Each is told once, which
    /// is tested and no clause. Who wants to note it keeps a cell; left out, it does nothing.
    fn decided(
        &self,
        _connection: u64,
        _version: Version,
        _request: &Request<'_>,
        _decision: Decision,
    ) {}
}

/// A servant offers what it performs.
impl<S: Servant> Catalogue for S {
    ghost offers = { λ servant. record { interface = S.Servant.meaning.interface; knows = S.Servant.meaning.knows } };

    ghost promises = { λ servant. record { valid = S.Servant.promises.valid; absent = S.Servant.promises.absent } };

    fn interface(&self, object_key: &[u8], operation: &[u8]) -> Lookup<'_> {
        Servant::interface(self, object_key, operation)
    }

    fn has_object(&self, object_key: &[u8]) -> bool {
        Servant::has_object(self, object_key)
    }

    fn decided(
        &self,
        connection: u64,
        version: Version,
        request: &Request<'_>,
        decision: Decision,
    ) {
        Servant::decided(self, connection, version, request, decision);
    }
}
