//! IIOP profiles (IIOP 9.7.2).

ghost use Rattle.std.specs.Prelude.{◌≡◌, ◌↔◌, ◌++◌, ◌<◌, ◌≤◌, ◌^◌, length, option_map, pos, Err, IfOk, IsTrue, MatchResult, OnErr, OnOk};
ghost use Rattle.cdr_core.specs.Private.{GivesUnlessMemory, Keeps, passing};
ghost use Rattle.cdr_core.specs.Writing.{Appends, AreWritable, PutsAll};
ghost use Rattle.cdr_core.specs.Reading.{value_at};
ghost use Rattle.cdr_core.specs.Value.{values};
ghost use Rattle.ior_core.specs.Calls.{GivesOnce};
ghost use Rattle.ior_core.specs.Grammar.{profile_1_0};
ghost use Rattle.ior_core.specs.Keys.{profile_key};
ghost use Rattle.ior_core.specs.Private.{components_at, head_value, head_values, is_0};
ghost use Rattle.ior_core.specs.Profiles.{body_of, components_of, iiop_body, key_of, HasNone, IsWritableProfile, ProfileMayRunOut, ReadsProfile, StoresComponents};
ghost use Rattle.ior_core.specs.Writing.{encapsulation_of};

use crate::error::IorError;
use crate::tagged::{Component, put_list, read_list, skip_list};
use crate::writable::{is_length, is_list_writable, is_string_writable};
use cdr_core::{CdrError, Cursor, Fault, Order, Writer};
use std::alloc::{AllocError, Global};

/// The tag of an IIOP profile (IOP 7.6.2).
pub const TAG_INTERNET_IOP: u32 = 0;

/// A profile of IIOP 1 (IIOP::ProfileBody_1_0 and _1_1): the host and the TCP port where the object
/// is reached, and its key there. The host is the octets of a string without its NUL. A profile of
/// 1.0 has no components; that each other minor version has them is an own rule.
#[derive(Debug, Drop, PartialEq)]
pub struct IiopProfile {
    pub minor: u8,
    pub host: Vec<u8>,
    pub port: u16,
    pub object_key: Vec<u8>,
    pub components: Vec<Component>,
}

impl IiopProfile {
    /// Whether the profile can be written: its host has no NUL, each length and the number of
    /// components fit an unsigned long, and a profile of 1.0 has no components.
    pub fn is_writable(&self) -> bool
        ensures { IsTrue result ↔ IsWritableProfile self.now }
    {
        let has_head = is_string_writable(&self.host) && is_length(self.object_key.len());
        has_head && are_components_writable(self.minor, &self.components)
    }
}

/// Whether a profile of this minor version can be written with these components.
fn are_components_writable(minor: u8, components: &[Component]) -> bool
    ensures { IsTrue result ↔ (AreWritable (values (components_of minor components.now)) × HasNone minor components.now) }
{
    if minor == 0 {
        return components.is_empty();
    }
    is_list_writable(components)
}

/// The members that a profile of each version has; strings and octets are lent.
#[derive(Clone, Copy)]
struct Head<'a> {
    major: u8,
    minor: u8,
    host: &'a [u8],
    port: u16,
    object_key: &'a [u8],
}

/// Reads the members that a profile of each version has.
#[tactic(auto, using(crate::proofs::Steps::profile_is))]
fn read_head<'a>(cursor: &mut Cursor<'a>) -> Result<Head<'a>, Fault>
    ensures { GivesOnce (λ h. head_value h.major h.minor h.host.now h.port h.object_key.now) result (value_at profile_1_0 cursor.old.order) cursor.old cursor.new }
{
    let major = cursor.octet()?;
    let minor = cursor.octet()?;
    let host = cursor.string()?;
    let port = cursor.ushort()?;
    let object_key = cursor.octets()?;
    Ok(Head {
        major,
        minor,
        host,
        port,
        object_key,
    })
}

/// Skips the components of a profile of this minor version.
fn skip_components(minor: u8, cursor: &mut Cursor) -> Result<(), Fault>
    ensures { GivesOnce (λ u. u) result (λ o octets. passing (components_at (is_0 minor) cursor.old.order o octets)) cursor.old cursor.new }
{
    if minor == 0 {
        return Ok(());
    }
    skip_list(cursor)
}

/// Reads the components of a profile of this minor version: none in 1.0.
fn read_components(
    alloc: Global,
    minor: u8,
    cursor: &mut Cursor,
) -> Result<Vec<Component>, CdrError>
    ensures gives { GivesUnlessMemory (λ v. values (components_of minor v.items)) result (components_at (is_0 minor) cursor.old.order) (StoresComponents (is_0 minor) cursor.old.order) cursor.old cursor.new }
    ensures none { IfOk result (λ v. HasNone minor v.items) }
{
    if minor == 0 {
        return Ok(Vec::new(alloc));
    }
    read_list(alloc, cursor)
}

/// The key in the octets of a valid profile, if its major version is 1.
#[tactic(auto, using(crate::proofs::Bodies::order_fails, crate::proofs::Bodies::head_fails, crate::proofs::Bodies::pass_fails, crate::proofs::Bodies::key_is))]
fn key_in(octets: &[u8]) -> Result<Option<&[u8]>, Fault>
    ensures { MatchResult result (λ k. option_map (λ key. key.now) k ≡ key_of (body_of octets.now)) (λ f. body_of octets.now ≡ Err f) }
{
    let mut cursor = Cursor::encapsulated(octets)?;
    let head = read_head(&mut cursor)?;
    skip_components(head.minor, &mut cursor)?;
    Ok((head.major == 1).then_some(head.object_key))
}

/// The object key in the octets of an IIOP profile. None where `read_iiop` would report a fault or
/// `BadMajor`. It takes no memory.
pub fn iiop_key(octets: &[u8]) -> Option<&[u8]>
    ensures { option_map (λ key. key.now) result ≡ key_of (body_of octets.now) }
{
    match key_in(octets) {
        Ok(key) => key,
        Err(_) => None,
    }
}

/// The object key in a tagged profile: where the tag is `TAG_INTERNET_IOP`, the `iiop_key` of its
/// octets; else None. It takes no memory.
pub fn profile_key(tag: u32, octets: &[u8]) -> Option<&[u8]>
    ensures { option_map (λ key. key.now) result ≡ profile_key (tag, octets.now) }
{
    if tag != TAG_INTERNET_IOP {
        return None;
    }
    iiop_key(octets)
}

/// Reads the octets of an IIOP profile: an encapsulation of a version, a host, a port, an object key,
/// and from 1.1 on components.
///
/// Errors are `Cdr`, the first fault, with its place counted from the encapsulation's first octet;
/// `BadMajor`; and `Memory`, only where a whole component or the whole profile was read. These rules
/// are own rules: octets after the last member are ignored, and `BadMajor` is reported only
/// where the whole profile is valid apart from its major version.
#[tactic(auto, using(crate::proofs::Bodies::order_fails, crate::proofs::Bodies::head_fails, crate::proofs::Bodies::components_fail, crate::proofs::Bodies::body_is))]
pub fn read_iiop(alloc: Global, octets: &[u8]) -> Result<IiopProfile, IorError>
    ensures reads { ReadsProfile (body_of octets.now) result }
    ensures memory { result ≡ Err IorError.Memory → ProfileMayRunOut octets.now }
{
    let mut cursor = Cursor::encapsulated(octets)?;
    let head = read_head(&mut cursor)?;
    let components = read_components(alloc, head.minor, &mut cursor)?;
    if head.major != 1 {
        return Err(IorError::BadMajor);
    }
    Ok(IiopProfile {
        minor: head.minor,
        host: Vec::from_slice(alloc, head.host)?,
        port: head.port,
        object_key: Vec::from_slice(alloc, head.object_key)?,
        components,
    })
}

/// Appends the members that a profile of each version has.
fn put_head(writer: &Writer, profile: &IiopProfile, out: &mut Vec<u8>) -> Result<(), AllocError>
    requires start { writer.now.start ≤ length out.old.items }
    requires writable { IsWritableProfile profile.now }
    ensures { MatchResult result (λ _. PutsAll writer.now (head_values 1 profile.now.minor profile.now.host.items profile.now.port profile.now.object_key.items) out.old.items out.new.items) (λ _. Keeps out.old.items out.new.items) }
{
    writer.octet(1, out)?;
    writer.octet(profile.minor, out)?;
    writer.string(&profile.host, out)?;
    writer.ushort(profile.port, out)?;
    writer.octets(&profile.object_key, out)?;
    Ok(())
}

/// Appends the components of a profile, where its version has them.
fn put_components(
    writer: &Writer,
    profile: &IiopProfile,
    out: &mut Vec<u8>,
) -> Result<(), AllocError>
    requires start { writer.now.start ≤ length out.old.items }
    requires writable { IsWritableProfile profile.now }
    ensures { MatchResult result (λ _. PutsAll writer.now (values (components_of profile.now.minor profile.now.components.items)) out.old.items out.new.items) (λ _. Keeps out.old.items out.new.items) }
{
    if profile.minor == 0 {
        return Ok(());
    }
    put_list(writer, &profile.components, out)
}

/// Appends a profile; at an error a part of it may be appended.
fn put(profile: &IiopProfile, out: &mut Vec<u8>) -> Result<(), AllocError>
    requires writable { IsWritableProfile profile.now }
    ensures { MatchResult result (λ _. out.new.items ≡ out.old.items ++ encapsulation_of (iiop_body profile.now)) (λ _. Keeps out.old.items out.new.items) }
{
    let writer = Writer::encapsulated(Order::Big, out)?;
    put_head(&writer, profile, out)?;
    put_components(&writer, profile, out)?;
    Ok(())
}

/// Appends the octets of a profile of IIOP 1, which is an encapsulation. It is big-endian, which
/// is an own rule; padding is zeros.
///
/// At an error, which means out of memory, `out` is as it was.
pub fn write_iiop(profile: &IiopProfile, out: &mut Vec<u8>) -> Result<(), AllocError>
    requires { IsWritableProfile profile.now }
    ensures ok { OnOk result (out.new.items ≡ out.old.items ++ encapsulation_of (iiop_body profile.now)) }
    ensures err { OnErr result (out.new.items ≡ out.old.items) }
{
    let start = out.len();
    let result = put(profile, out);
    if result.is_err() {
        out.truncate(start);
    }
    result
}
