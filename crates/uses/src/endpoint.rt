//! Take a reference apart: where its object is reached.

ghost use Rattle.std.specs.Prelude.{OnOk};
ghost use Rattle.std.specs.String.{string_bytes};
ghost use Rattle.uses.specs.Endpoint.{IsText};

use ior_core::{IiopProfile, IorError, TAG_INTERNET_IOP, parse_text, read_iiop};
use std::alloc::Global;

/// The first IIOP profile of a reference that is given as text, `IOR:` and hexadecimal digits: its host,
/// its port and its object key. None where the reference has no such profile, as the nil reference.
pub fn first_endpoint(alloc: Global, text: &str) -> Result<Option<IiopProfile>, IorError>
    ensures { OnOk result (IsText text.now) }
{
    let ior = parse_text(alloc, text)?;
    for profile in &ior.profiles {
        if profile.tag == TAG_INTERNET_IOP {
            return Ok(Some(read_iiop(alloc, &profile.octets)?));
        }
    }
    Ok(None)
}
