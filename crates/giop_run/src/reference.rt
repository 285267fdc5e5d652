//! The lines that show a reference.

ghost use Rattle.std.specs.Prelude.{◌≡◌, ◌++◌, string_bytes, IfOk, OnOk};
ghost use Rattle.ior_core.specs.Profiles.{body_of, iiop_body};
ghost use Rattle.ior_core.specs.View.{tagged_value, tagged_values};
ghost use Rattle.giop_run.specs.ReferenceLines as lines;

use giop_text::{digits_of, text_of};
use ior_core::{Component, IiopProfile, Ior, IorError, Profile, TAG_INTERNET_IOP, read_iiop};
use std::alloc::{AllocError, Global};

/// Appends the line of a component.
fn put_component(alloc: Global, component: &Component, text: &mut String) -> Result<(), AllocError>
    ensures { OnOk result (string_bytes text.new ≡ string_bytes text.old ++ lines.component_line (tagged_value component.now)) }
{
    let tag = component.tag;
    let digits = digits_of(alloc, &component.octets)?;
    write!(text, "  component {tag} {digits}\n")
}

/// Appends the lines of components.
fn put_components(alloc: Global, all: &[Component], text: &mut String) -> Result<(), AllocError>
    ensures { OnOk result (string_bytes text.new ≡ string_bytes text.old ++ lines.component_lines (tagged_values all.now)) }
{
    for component in all {
        put_component(alloc, component, text)?;
    }
    Ok(())
}

/// Appends the line of an IIOP profile that stands at a place.
fn put_iiop(
    alloc: Global,
    place: usize,
    profile: &IiopProfile,
    text: &mut String,
) -> Result<(), AllocError>
    ensures { OnOk result (string_bytes text.new ≡ string_bytes text.old ++ lines.iiop_line place (iiop_body profile.now)) }
{
    let minor = profile.minor;
    let host = text_of(alloc, &profile.host)?;
    let port = profile.port;
    let key = digits_of(alloc, &profile.object_key)?;
    write!(
        text,
        "profile {place} iiop 1.{minor} host {host} port {port} key {key}\n"
    )
}

/// Appends the lines of the IIOP profile that the octets are, and that stands at a place.
fn put_octets(
    alloc: Global,
    place: usize,
    octets: &[u8],
    text: &mut String,
) -> Result<(), AllocError>
    ensures { OnOk result (string_bytes text.new ≡ string_bytes text.old ++ lines.iiop_lines place (body_of octets.now)) }
{
    match read_iiop(alloc, octets) {
        Ok(profile) => {
            put_iiop(alloc, place, &profile, text)?;
            put_components(alloc, &profile.components, text)
        }
        Err(IorError::Memory) => Err(AllocError),
        Err(_) => write!(text, "profile {place} iiop bad\n"),
    }
}

/// Appends the lines of the profile at a place.
fn put_profile(
    alloc: Global,
    place: usize,
    profile: &Profile,
    text: &mut String,
) -> Result<(), AllocError>
    ensures { OnOk result (string_bytes text.new ≡ string_bytes text.old ++ lines.profile_lines place profile.now) }
{
    let tag = profile.tag;
    if tag == TAG_INTERNET_IOP {
        return put_octets(alloc, place, &profile.octets, text);
    }
    let digits = digits_of(alloc, &profile.octets)?;
    write!(text, "profile {place} tag {tag} {digits}\n")
}

/// Appends the lines of profiles, whose places count from 0.
fn put_profiles(alloc: Global, all: &[Profile], text: &mut String) -> Result<(), AllocError>
    ensures { OnOk result (string_bytes text.new ≡ string_bytes text.old ++ lines.lines_from 0 all.now) }
{
    for (place, profile) in all.iter().enumerate() {
        put_profile(alloc, place, profile, text)?;
    }
    Ok(())
}

/// The lines that show a reference: `nil`, or its type and its profiles.
pub fn reference_lines(alloc: Global, ior: &Ior) -> Result<String, AllocError>
    ensures { IfOk result (λ text. string_bytes text ≡ lines.reference_lines ior.now) }
{
    if ior.type_id.is_empty() && ior.profiles.is_empty() {
        return String::from_str(alloc, "nil\n");
    }
    let type_id = text_of(alloc, &ior.type_id)?;
    let mut text = format!(in alloc; "type {type_id}\n")?;
    put_profiles(alloc, &ior.profiles, &mut text)?;
    Ok(text)
}
