//! Bodies, and the targets of messages. A message is whole, and not cut.

use cdr_core::{Ty, are_valid};
use giop_core::{Body, Content, Header, IorView, Message, Target, read_message};
use std::alloc::Global;
use std::io::Write;
use trials::{Stop, input_in, parted, print_found, print_given, types_in, ulong};

/// Prints the values of these types in a body.
fn print_values<W: Write>(
    alloc: Global,
    body: &Body,
    types: &[Ty],
    out: &mut W,
) -> Result<(), Stop> {
    if !are_valid(types) || body.at > u64::from(u32::MAX) {
        return Err(Stop::BadLine);
    }
    print_given(body.read(alloc, types), out)
}

/// `body TYPES ORDER AT HEX`: the values.
pub(crate) fn read_body<W: Write>(alloc: Global, words: &str, out: &mut W) -> Result<(), Stop> {
    let (word, words) = parted(words)?;
    let types = types_in(alloc, word)?;
    let input = input_in(alloc, words)?;
    let body = Body {
        order: input.order,
        at: u64::from(input.at),
        octets: &input.octets,
    };
    print_values(alloc, &body, &types, out)
}

/// The message that octets are.
fn message_in(octets: &[u8]) -> Result<Message<'_>, Stop> {
    let (first, after) = octets
        .split_first_chunk::<{ Header::LEN }>()
        .ok_or(Stop::BadLine)?;
    let header = Header::read(first).map_err(|_| Stop::BadLine)?;
    if header.more || header.size as usize != after.len() {
        return Err(Stop::BadLine);
    }
    read_message(&header, after).map_err(|_| Stop::BadLine)
}

/// `arguments TYPES HEX`: the values in the body of a Request.
pub(crate) fn read_arguments<W: Write>(
    alloc: Global,
    words: &str,
    out: &mut W,
) -> Result<(), Stop> {
    let (word, digits) = parted(words)?;
    let types = types_in(alloc, word)?;
    let octets = hex::decode(alloc, digits)?;
    match message_in(&octets)?.content {
        Content::Request(request) => print_values(alloc, &request.body, &types, out),
        _ => Err(Stop::BadLine),
    }
}

/// The target of the LocateRequest that octets are.
fn target_in(octets: &[u8]) -> Result<Target<'_>, Stop> {
    match message_in(octets)?.content {
        Content::LocateRequest(request) => Ok(request.target),
        _ => Err(Stop::BadLine),
    }
}

/// Prints a target, and the key that it names. Of a reference these are the index of the profile, the type, and the
/// number of profiles.
fn print_target<W: Write>(target: &Target, out: &mut W) -> Result<(), Stop> {
    let key = target.object_key();
    match target {
        Target::Key(octets) => writeln!(out, "Key({octets:?}) {key:?}")?,
        Target::Profile(tag, octets) => writeln!(out, "Profile({tag}, {octets:?}) {key:?}")?,
        Target::Reference(index, found) => {
            let (type_id, count) = (found.type_id(), found.count());
            writeln!(out, "Reference({index}, {type_id:?}, {count}) {key:?}")?;
        }
    }
    Ok(())
}

/// `target HEX`: the target of a LocateRequest, and the key that it names.
pub(crate) fn show_target<W: Write>(alloc: Global, digits: &str, out: &mut W) -> Result<(), Stop> {
    let octets = hex::decode(alloc, digits)?;
    print_target(&target_in(&octets)?, out)
}

/// Prints the profiles of those numbers.
fn print_profiles<W: Write>(
    alloc: Global,
    found: &IorView,
    numbers: &str,
    out: &mut W,
) -> Result<(), Stop> {
    let mut all = Vec::new(alloc);
    for number in numbers.split(',') {
        all.push(found.profile(ulong(number)?))?;
    }
    print_found(all, out)
}

/// `profiles NUMBER,.. HEX`: the profiles of those numbers of the reference in a LocateRequest.
pub(crate) fn show_profiles<W: Write>(alloc: Global, words: &str, out: &mut W) -> Result<(), Stop> {
    let (numbers, digits) = parted(words)?;
    let octets = hex::decode(alloc, digits)?;
    match target_in(&octets)? {
        Target::Reference(_, found) => print_profiles(alloc, &found, numbers, out),
        _ => Err(Stop::BadLine),
    }
}
