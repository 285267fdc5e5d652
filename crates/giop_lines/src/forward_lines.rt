//! The lines of the references that answers lead on to.

use crate::forwards::{Forward, forward_of};
use crate::objects::Objects;
use crate::page::Page;
use giop_core::Body;
use giop_text::{host_port, put_component};
use ior_core::{Component, IiopProfile, Ior, IorError, Profile, TAG_INTERNET_IOP, read_iiop};

/// Appends an object key by its letter, or by its digits where it has none.
pub(crate) fn put_key(key: &[u8], objects: &mut Objects, page: &mut Page) {
    let letter = objects.letter(key);
    match page.made(letter) {
        Some(letter) => page.put_all(&["object ", &letter]),
        None => {
            page.put("key ");
            page.digits(key)
        }
    }
}

/// Appends the line of a component of a profile.
fn put_component_line(component: &Component, page: &mut Page) {
    page.put("    ");
    let came = put_component(page.alloc, component, &mut page.text);
    page.note(came);
    page.put("\n");
}

/// Appends an address.
fn put_address(host: &[u8], port: u16, page: &mut Page) {
    match host_port(page.alloc, host, port) {
        Ok(address) => page.put(&address),
        Err(_) => page.is_whole = false,
    }
}

/// Appends the lines of an IIOP profile.
fn put_iiop(profile: &IiopProfile, objects: &mut Objects, page: &mut Page) {
    page.number("  to iiop 1.", u64::from(profile.minor), " ");
    put_address(&profile.host, profile.port, page);
    page.put(" ");
    put_key(&profile.object_key, objects, page);
    page.put("\n");
    for component in &profile.components {
        put_component_line(component, page);
    }
}

/// Appends the lines of a profile.
fn put_profile(profile: &Profile, objects: &mut Objects, page: &mut Page) {
    if profile.tag != TAG_INTERNET_IOP {
        page.number("  to a profile of tag ", u64::from(profile.tag), "");
        page.count(&profile.octets);
        return page.put("\n");
    }
    match read_iiop(page.alloc, &profile.octets) {
        Ok(profile) => put_iiop(&profile, objects, page),
        Err(IorError::Memory) => page.is_whole = false,
        Err(_) => page.put("  to iiop bad\n"),
    }
}

/// Appends the lines of the reference that an answer leads on to.
fn put_reference(ior: &Ior, objects: &mut Objects, page: &mut Page) {
    page.put("  to type ");
    page.octets(&ior.type_id);
    page.put("\n");
    for profile in &ior.profiles {
        put_profile(profile, objects, page);
    }
}

/// Appends the lines of where an answer of this body leads on to.
pub(crate) fn put_forward(body: &Body, objects: &mut Objects, page: &mut Page) {
    match forward_of(page.alloc, body) {
        Ok(Forward::To(ior)) => put_reference(&ior, objects, page),
        Ok(Forward::Bad) => page.put("  to bad\n"),
        Err(_) => page.is_whole = false,
    }
}
