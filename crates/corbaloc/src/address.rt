//! Addresses of locations.

ghost use Rattle.std.specs.Prelude.{◌≢◌, ℕ, IfErr, IfNone, IfOk, IfSome};
ghost use Rattle.corbaloc.specs.Faults.{IsAddressFault, IsAddressesFault, IsProtocolFault, IsVersionFault};
ghost use Rattle.corbaloc.specs.Grammar.{IsVersion, SpellsAddress, SpellsAddresses, SpellsProtocol, SpellsVersion};

use crate::error::LocationError;
use crate::host::host_and_port;
use crate::places::{cut, number, place_of};
use std::alloc::Global;

/// One way to reach an object: the minor version of IIOP 1, a host and a TCP port. The host is the
/// octets of a DNS name, of an IPv4 address, or of an IPv6 address without its brackets.
#[derive(Debug, Drop, PartialEq)]
pub struct Address {
    pub minor: u8,
    pub host: Vec<u8>,
    pub port: u16,
}

/// What follows the protocol of an address, which begins at this place.
fn after_protocol(at: usize, text: &str) -> Result<&str, LocationError>
    ensures spelled { IfOk result (λ rest. SpellsProtocol text.now rest.now) }
    ensures refused { IfErr result (λ e. IsProtocolFault at text.now e) }
{
    let (protocol, rest) = cut(text, ':').ok_or(LocationError::UnknownProtocol(at))?;
    if protocol.is_empty() {
        return Ok(rest);
    }
    match protocol {
        "iiop" => Ok(rest),
        "rir" => Err(LocationError::Rir(at)),
        _ => Err(LocationError::UnknownProtocol(at)),
    }
}

/// The minor version of a version 1.
fn minor_of(version: &str) -> Option<u8>
    ensures found { IfSome result (λ minor. IsVersion version.now minor) }
    ensures none { IfNone result ((minor : ℕ) → IsVersion version.now minor → ⊥) }
{
    let (major, minor) = cut(version, '.')?;
    if number(major)? != 1 {
        return None;
    }
    u8::try_from(number(minor)?).ok()
}

/// The minor version of an address, and what follows the version, which begins at this place.
fn after_version(at: usize, text: &str) -> Result<(u8, &str), LocationError>
    ensures spelled { IfOk result (λ x. SpellsVersion text.now x.0 x.1.now) }
    ensures refused { IfErr result (λ e. IsVersionFault at text.now e) }
{
    match cut(text, '@') {
        Some((version, rest)) => {
            let minor = minor_of(version).ok_or(LocationError::BadVersion(at))?;
            Ok((minor, rest))
        }
        None => Ok((0, text)),
    }
}

/// The address that a text spells, which begins at this place.
fn address_in(alloc: Global, at: usize, text: &str) -> Result<Address, LocationError>
    ensures spelled { IfOk result (λ one. SpellsAddress text.now one) }
    ensures refused { IfErr result (λ e. e ≢ LocationError.Memory → IsAddressFault at text.now e) }
{
    let rest = after_protocol(at, text)?;
    let (minor, place) = after_version(place_of(at, text.len(), rest.len()), rest)?;
    let (host, port) = host_and_port(place_of(at, text.len(), place.len()), place)?;
    let host = Vec::from_slice(alloc, host.as_bytes())?;
    Ok(Address { minor, host, port })
}

/// The addresses that a text spells, which begin at this place.
pub(crate) fn addresses_in(
    alloc: Global,
    at: usize,
    text: &str,
) -> Result<Vec<Address>, LocationError>
    ensures spelled { IfOk result (λ all. SpellsAddresses text.now all.items) }
    ensures refused { IfErr result (λ e. e ≢ LocationError.Memory → IsAddressesFault at text.now e) }
{
    let mut all = Vec::new(alloc);
    let mut left = text;
    while let Some((first, rest)) = cut(left, ',') {
        let one = address_in(alloc, place_of(at, text.len(), left.len()), first)?;
        all.push(one)?;
        left = rest;
    }
    let last = address_in(alloc, place_of(at, text.len(), left.len()), left)?;
    all.push(last)?;
    Ok(all)
}
