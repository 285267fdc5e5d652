//! Profiles of IIOP: one is `MINOR HEX PORT HEX LIST`, its minor version, its host, its port, its key and its
//! components.

use crate::tagged::list_in;
use ior_core::{IiopProfile, iiop_key, profile_key, read_iiop, write_iiop};
use std::alloc::Global;
use std::io::Write;
use trials::{Stop, parted, print_found, print_given, ulong};

/// A profile with the key and the components of `HEX LIST`.
fn located(
    alloc: Global,
    minor: u8,
    host: Vec<u8>,
    port: u16,
    words: &str,
) -> Result<IiopProfile, Stop> {
    let (key, list) = parted(words)?;
    Ok(IiopProfile {
        minor,
        host,
        port,
        object_key: hex::decode(alloc, key)?,
        components: list_in(alloc, list)?,
    })
}

/// The profile of `MINOR HEX PORT HEX LIST`.
fn profile_in(alloc: Global, words: &str) -> Result<IiopProfile, Stop> {
    let (minor, words) = parted(words)?;
    let (host, words) = parted(words)?;
    let (port, words) = parted(words)?;
    let minor = minor.parse().map_err(|_| Stop::BadLine)?;
    let port = port.parse().map_err(|_| Stop::BadLine)?;
    located(alloc, minor, hex::decode(alloc, host)?, port, words)
}

/// `read_iiop HEX`.
pub(crate) fn read<W: Write>(alloc: Global, digits: &str, out: &mut W) -> Result<(), Stop> {
    let octets = hex::decode(alloc, digits)?;
    print_given(read_iiop(alloc, &octets), out)
}

/// `write_iiop MINOR HEX PORT HEX LIST`: the octets of the output, in which 7 stood before.
pub(crate) fn write<W: Write>(alloc: Global, words: &str, out: &mut W) -> Result<(), Stop> {
    let profile = profile_in(alloc, words)?;
    if !profile.is_writable() {
        return Err(Stop::BadLine);
    }
    let mut octets = [7].to_vec(alloc)?;
    write_iiop(&profile, &mut octets)?;
    Ok(writeln!(out, "{}", hex::encode(alloc, &octets)?)?)
}

/// `is_writable_iiop MINOR HEX PORT HEX LIST`.
pub(crate) fn judge<W: Write>(alloc: Global, words: &str, out: &mut W) -> Result<(), Stop> {
    print_found(profile_in(alloc, words)?.is_writable(), out)
}

/// `iiop_key HEX`.
pub(crate) fn find_key<W: Write>(alloc: Global, digits: &str, out: &mut W) -> Result<(), Stop> {
    let octets = hex::decode(alloc, digits)?;
    print_found(iiop_key(&octets), out)
}

/// `profile_key TAG HEX`.
pub(crate) fn find_tagged_key<W: Write>(
    alloc: Global,
    words: &str,
    out: &mut W,
) -> Result<(), Stop> {
    let (tag, digits) = parted(words)?;
    let octets = hex::decode(alloc, digits)?;
    print_found(profile_key(ulong(tag)?, &octets), out)
}
