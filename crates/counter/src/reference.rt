//! The object reference of the counter: where it is reached.

ghost use Rattle.std.specs.Prelude.{◌≡◌, ◌++◌, [], ◌∷◌, codes, string_bytes, IfOk, IfErr};
ghost use Rattle.ior_core.specs.Profiles.{IsWritableProfile, iiop_body};
ghost use Rattle.ior_core.specs.Text.{reference_text};
ghost use Rattle.ior_core.specs.Writing.{encapsulation_of};
ghost use Rattle.counter.specs.Addresses.{counter_profile, counter_reference};

use ior_core::{IiopProfile, Ior, Profile, TAG_INTERNET_IOP, print_text, write_iiop};
use std::alloc::{AllocError, Global};

/// The repository id of the counter's type.
const TYPE_ID: &[u8] = b"IDL:Counter:1.0";

/// The host that its server listens on.
const HOST: &[u8] = b"127.0.0.1";

/// The counter's object key.
const OBJECT_KEY: &[u8] = b"c";

/// The IIOP profile of the counter at a port of this machine.
fn profile_at(alloc: Global, port: u16) -> Result<IiopProfile, AllocError>
    ensures { IfOk result (λ profile. IsWritableProfile profile × (iiop_body profile ≡ counter_profile port)) }
{
    Ok(IiopProfile {
        minor: 2,
        host: Vec::from_slice(alloc, HOST)?,
        port,
        object_key: Vec::from_slice(alloc, OBJECT_KEY)?,
        components: Vec::new(alloc),
    })
}

/// The text of the counter's reference: of the type `IDL:Counter:1.0`, with one profile of IIOP 1.2, of the host
/// 127.0.0.1, this port, and the object key `c`. An error means out of memory.
pub fn reference_text(alloc: Global, port: u16) -> Result<String, AllocError>
    ensures { IfOk result (λ text. string_bytes text ≡ reference_text (counter_reference port)) }
{
    let mut octets = Vec::new(alloc);
    write_iiop(&profile_at(alloc, port)?, &mut octets)?;
    let profile = Profile {
        tag: TAG_INTERNET_IOP,
        octets,
    };
    let reference = Ior {
        type_id: Vec::from_slice(alloc, TYPE_ID)?,
        profiles: vec![in alloc; profile]?,
    };
    print_text(alloc, &reference)
}
