//! The lines that show a reference to a person: with the standard's names, and what its octets say.

use giop_text::{digits_of, host_port, profile_name, put_component, text_of};
use ior_core::{Component, IiopProfile, Ior, IorError, Profile, TAG_INTERNET_IOP, read_iiop};
use std::alloc::{AllocError, Global};

/// Appends the line of a component.
fn put_line(alloc: Global, component: &Component, text: &mut String) -> Result<(), AllocError> {
    text.push_str("  ")?;
    put_component(alloc, component, text)?;
    text.push('\n')
}

/// Appends an object key, in digits and as text.
fn put_key(alloc: Global, key: &[u8], text: &mut String) -> Result<(), AllocError> {
    text.push_str(&digits_of(alloc, key)?)?;
    text.push(' ')?;
    text.push_str(&text_of(alloc, key)?)
}

/// Appends the lines of an IIOP profile.
fn put_iiop(alloc: Global, profile: &IiopProfile, text: &mut String) -> Result<(), AllocError> {
    let minor = profile.minor;
    write!(text, "iiop 1.{minor} ")?;
    text.push_str(&host_port(alloc, &profile.host, profile.port)?)?;
    text.push_str(" key ")?;
    put_key(alloc, &profile.object_key, text)?;
    text.push('\n')?;
    for component in &profile.components {
        put_line(alloc, component, text)?;
    }
    Ok(())
}

/// Appends the line of a profile that is none of IIOP.
fn put_other(profile: &Profile, text: &mut String) -> Result<(), AllocError> {
    let tag = profile.tag;
    let count = profile.octets.len();
    match profile_name(tag) {
        Some(name) => write!(text, "profile {name}, {count} octets\n"),
        None => write!(text, "profile {tag}, {count} octets\n"),
    }
}

/// Appends the lines of a profile.
fn put_profile(alloc: Global, profile: &Profile, text: &mut String) -> Result<(), AllocError> {
    if profile.tag != TAG_INTERNET_IOP {
        return put_other(profile, text);
    }
    match read_iiop(alloc, &profile.octets) {
        Ok(iiop) => put_iiop(alloc, &iiop, text),
        Err(IorError::Memory) => Err(AllocError),
        Err(_) => text.push_str("iiop bad\n"),
    }
}

/// Appends the lines of a reference that is not nil.
fn put_reference(alloc: Global, ior: &Ior, text: &mut String) -> Result<(), AllocError> {
    if !ior.type_id.is_empty() {
        let type_id = text_of(alloc, &ior.type_id)?;
        write!(text, "type {type_id}\n")?;
    }
    for profile in &ior.profiles {
        put_profile(alloc, profile, text)?;
    }
    Ok(())
}

/// The lines that show a reference to a person: `nil`, or its type, where it has one, and its addresses with their
/// components.
pub(crate) fn named_lines(alloc: Global, ior: &Ior) -> Result<String, AllocError> {
    if ior.type_id.is_empty() && ior.profiles.is_empty() {
        return String::from_str(alloc, "nil\n");
    }
    let mut text = String::new(alloc);
    put_reference(alloc, ior, &mut text)?;
    Ok(text)
}
