//! Locations.

ghost use Rattle.std.specs.Prelude.{◌≢◌, ℕ, List, IfErr, IfNone, IfOk, IfSome};
ghost use Rattle.corbaloc.specs.Faults.{IsFault};
ghost use Rattle.corbaloc.specs.Grammar.{SpellsEnd, SpellsLocation, SpellsScheme};

use crate::address::{Address, addresses_in};
use crate::error::LocationError;
use crate::key::key_in;
use crate::places::{cut, place_of};
use std::alloc::Global;

/// What a `corbaloc:` URL says: the addresses where an object is reached, in their order, and the
/// octets of its key.
#[derive(Debug, Drop, PartialEq)]
pub struct Location {
    pub addresses: Vec<Address>,
    pub key: Vec<u8>,
}

/// What follows `corbaloc:`, whose letters may be in either case.
fn after_scheme(text: &str) -> Option<&str>
    ensures found { IfSome result (λ rest. SpellsScheme text.now rest.now) }
    ensures none { IfNone result ((rest : List ℕ) → SpellsScheme text.now rest → ⊥) }
{
    let (scheme, rest) = cut(text, ':')?;
    scheme.eq_ignore_ascii_case("corbaloc").then_some(rest)
}

/// The addresses, and the key as it is written, in what follows the scheme.
fn before_key(text: &str) -> (&str, &str)
    ensures { SpellsEnd text.now result.0.now result.1.now }
{
    match cut(text, '/') {
        Some((addresses, key)) => (addresses, key),
        None => (text, ""),
    }
}

/// Reads a `corbaloc:` URL with IIOP addresses: `corbaloc:`, addresses apart by commas, and `/` and
/// a key. An address is `iiop:` or `:`, then a version and `@`, a host, and `:` and a port; the
/// version is 1.0 and the port 2809 where they are left out.
///
/// These are own rules: a host is not empty, has letters, digits, `-`, `.` and `_` or in brackets
/// hexadecimal digits, `:` and `.`, and is not looked at further; numbers may begin with zeros; no
/// address may be `rir:` or of another protocol; octets after `#` are no fragment.
///
/// A text that is refused spells no location. The error is the first reason from the left, with its
/// place; `Memory` comes as soon as an allocation fails, and says nothing of the text.
pub fn parse_location(alloc: Global, text: &str) -> Result<Location, LocationError>
    ensures spelled { IfOk result (λ location. SpellsLocation text.now location) }
    ensures refused { IfErr result (λ e. e ≢ LocationError.Memory → (location : Location) → SpellsLocation text.now location → ⊥) }
    ensures fault { IfErr result (λ e. e ≢ LocationError.Memory → IsFault text.now e) }
{
    let rest = after_scheme(text).ok_or(LocationError::NoPrefix)?;
    let (addresses, key) = before_key(rest);
    let addresses = addresses_in(alloc, place_of(1, text.len(), rest.len()), addresses)?;
    let key = key_in(alloc, place_of(1, text.len(), key.len()), key.as_bytes())?;
    Ok(Location { addresses, key })
}
