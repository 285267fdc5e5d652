//! Vectors whose room is used again.

ghost use Rattle.std.specs.Prelude.{◌≡◌, OnOk};

use std::alloc::AllocError;

/// Octets, put into a vector in place of its own.
#[inline(always)]
pub(crate) fn put(own: &mut Vec<u8>, octets: &[u8]) -> Result<(), AllocError>
    ensures { OnOk result (own.new.items ≡ octets.now) }
{
    own.clear();
    own.extend_from_slice(octets)
}
