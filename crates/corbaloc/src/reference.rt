//! The references that locations stand for.

ghost use Rattle.std.specs.Prelude.{◌≡◌, ◌≢◌, [], map, All, Any, IfErr, IfOk};
ghost use Rattle.cdr_core.specs.Writing.{IsWritable};
ghost use Rattle.ior_core.specs.Keys.{tag_and_octets_of};
ghost use Rattle.corbaloc.specs.Reference.{body, profile};

use crate::address::Address;
use crate::error::LocationError;
use crate::location::Location;
use ior_core::{IiopProfile, Ior, Profile, TAG_INTERNET_IOP, write_iiop};
use std::alloc::Global;

/// The profile of an address and a key.
fn profile_of(alloc: Global, address: &Address, key: &[u8]) -> Result<Profile, LocationError>
    ensures written { IfOk result (λ one. tag_and_octets_of one ≡ profile key.now address.now) }
    ensures refused { IfErr result (λ e. e ≢ LocationError.Memory → IsWritable (body key.now address.now) → ⊥) }
{
    let profile = IiopProfile {
        minor: address.minor,
        host: Vec::from_slice(alloc, &address.host)?,
        port: address.port,
        object_key: Vec::from_slice(alloc, key)?,
        components: Vec::new(alloc),
    };
    if !profile.is_writable() {
        return Err(LocationError::NotWritable);
    }
    let mut octets = Vec::new(alloc);
    write_iiop(&profile, &mut octets)?;
    let tag = TAG_INTERNET_IOP;
    Ok(Profile { tag, octets })
}

/// The reference that a location stands for: an empty type, and for each address in order an IIOP
/// profile with the key. Each profile holds the key, so the memory that it takes grows with the
/// number of addresses times the length of the key.
///
/// Errors are `NotWritable`, which no location that was read has unless its text is longer than
/// 4 GiB, and `Memory`.
pub fn reference_of(alloc: Global, location: &Location) -> Result<Ior, LocationError>
    ensures empty { IfOk result (λ ior. ior.type_id.items ≡ []) }
    ensures profiles { IfOk result (λ ior. map tag_and_octets_of ior.profiles.items ≡ map (profile location.now.key.items) location.now.addresses.items) }
    ensures refused { IfErr result (λ e. e ≢ LocationError.Memory → All (λ one. IsWritable (body location.now.key.items one)) location.now.addresses.items → ⊥) }
{
    let mut profiles = Vec::new(alloc);
    for address in &location.addresses {
        profiles.push(profile_of(alloc, address, &location.key)?)?;
    }
    let type_id = Vec::new(alloc);
    Ok(Ior { type_id, profiles })
}
