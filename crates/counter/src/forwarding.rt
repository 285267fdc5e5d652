//! The counter, and beside it an object that leads each caller elsewhere.

ghost use Rattle.std.specs.Prelude.{◌≡◌};
ghost use Rattle.counter.specs.Forwarding.{is_elsewhere};

use crate::servant::Counter;
use cdr_core::{Order, Val};
use ft_log::{Outcome, RawStatus};
use ft_objects::{Lookup, Servant};
use std::alloc::{AllocError, Global};

/// The nil reference (IOP 7.6.2): an empty type id, and no profiles.
const NIL: &[u8] = b"\0\0\0\x01\0\0\0\0\0\0\0\0";

/// The counter under the key `c`, and under the key `f` an object that forwards each request (GIOP 9.4.3.2). The reference is nil:
/// who plays both ends says where a call is asked for then.
#[derive(Drop)]
pub struct Forwarding {
    /// The counter.
    pub counter: Counter,
}

/// Whether a key is that of the object that forwards.
fn is_elsewhere(object_key: &[u8]) -> bool
    ensures { result ≡ is_elsewhere object_key.now }
{
    object_key == b"f".as_slice()
}

impl Servant for Forwarding {
    ghost use Rattle.counter.specs.Forwarding.{forwarding_meaning};
    ghost use Rattle.counter.specs.facts.Forwarding.{forwarding_is_servant};

    ghost meaning = { forwarding_meaning };

    ghost promises = { forwarding_is_servant };

    fn known(&self) {
        self.counter.known();
    }

    fn interface(&self, object_key: &[u8], operation: &[u8]) -> Lookup<'_> {
        if is_elsewhere(object_key) {
            return Lookup::Raw;
        }
        self.counter.interface(object_key, operation)
    }

    fn has_object(&self, object_key: &[u8]) -> bool {
        is_elsewhere(object_key) || self.counter.has_object(object_key)
    }

    fn perform(
        &mut self,
        alloc: Global,
        object_key: &[u8],
        operation: &[u8],
        arguments: &[Val],
    ) -> Result<Outcome, AllocError> {
        if is_elsewhere(object_key) {
            let reference = Vec::from_slice(alloc, NIL)?;
            return Ok(Outcome::Raw(RawStatus::LocationForward, Order::Big, reference));
        }
        self.counter
            .perform(alloc, object_key, operation, arguments)
    }
}
