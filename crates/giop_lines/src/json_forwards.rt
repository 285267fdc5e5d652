//! The references that answers lead on to, as objects of JSON.

use crate::fields::Value;
use crate::forwards::{Forward, forward_of};
use crate::json::{put_letter, put_meaning};
use crate::objects::Objects;
use crate::page::Page;
use giop_core::Body;
use giop_text::{component_meaning, component_name};
use ior_core::{Component, IiopProfile, Ior, IorError, Profile, TAG_INTERNET_IOP, read_iiop};

/// Appends a component.
fn put_component(component: &Component, page: &mut Page) {
    page.apart();
    page.put("{");
    page.fields(&[
        ("tag", Value::Number(u64::from(component.tag))),
        ("name", Value::word(component_name(component.tag))),
        ("octets", Value::Digits(&component.octets)),
    ]);
    let meaning = component_meaning(page.alloc, component.tag, &component.octets);
    put_meaning(meaning, page);
    page.put("}");
}

/// Appends a profile of which no more than its octets is known.
fn put_octets(profile: &Profile, page: &mut Page) {
    page.fields(&[
        ("tag", Value::Number(u64::from(profile.tag))),
        ("octets", Value::Digits(&profile.octets)),
        ("minor", Value::Null),
        ("host", Value::Null),
        ("port", Value::Null),
        ("key", Value::Null),
        ("object", Value::Null),
    ]);
    page.put(",\"components\":[]");
}

/// Appends a profile of IIOP, of which all is known but its octets.
fn put_iiop(iiop: &IiopProfile, objects: &mut Objects, page: &mut Page) {
    page.fields(&[
        ("tag", Value::Number(u64::from(TAG_INTERNET_IOP))),
        ("octets", Value::Null),
        ("minor", Value::Number(u64::from(iiop.minor))),
        ("host", Value::Octets(&iiop.host)),
        ("port", Value::Number(u64::from(iiop.port))),
        ("key", Value::Digits(&iiop.object_key)),
    ]);
    put_letter(true, &iiop.object_key, objects, page);
    page.put(",\"components\":[");
    for component in &iiop.components {
        put_component(component, page);
    }
    page.put("]");
}

/// Appends what is known of a profile.
fn put_known(profile: &Profile, objects: &mut Objects, page: &mut Page) {
    if profile.tag != TAG_INTERNET_IOP {
        return put_octets(profile, page);
    }
    match read_iiop(page.alloc, &profile.octets) {
        Ok(iiop) => put_iiop(&iiop, objects, page),
        Err(IorError::Memory) => page.is_whole = false,
        Err(_) => put_octets(profile, page),
    }
}

/// Appends a reference.
fn put_reference(ior: &Ior, objects: &mut Objects, page: &mut Page) {
    page.put("{\"valid\":true");
    page.field("type_id", &Value::Octets(&ior.type_id));
    page.put(",\"profiles\":[");
    for profile in &ior.profiles {
        page.apart();
        page.put("{");
        put_known(profile, objects, page);
        page.put("}");
    }
    page.put("]}");
}

/// Appends where an answer of this body leads on to.
pub(crate) fn put_forward(body: &Body, objects: &mut Objects, page: &mut Page) {
    match forward_of(page.alloc, body) {
        Ok(Forward::To(ior)) => put_reference(&ior, objects, page),
        Ok(Forward::Bad) => page.put("{\"valid\":false,\"type_id\":null,\"profiles\":[]}"),
        Err(_) => page.is_whole = false,
    }
}
