//! What tshark says of a stream beside its octets, and what its lines without octets are.

use crate::follow::are_digits;
use std::str;

/// What a line says that has no octets.
#[derive(Clone, Copy)]
pub(crate) enum Note<'t> {
    /// The head of a connection whose octets stand in this form.
    Head(&'t [u8]),
    /// The number of its stream in the capture.
    Stream(u64),
    /// The address of one who speaks on it: false for the one whose lines have no tab.
    Node(bool, &'t [u8]),
}

/// The number in decimal digits.
fn number_in(digits: &[u8]) -> Option<u64> {
    str::from_utf8(digits).ok()?.parse().ok()
}

/// What a line says, if it is a note.
pub(crate) fn note_of(line: &[u8]) -> Option<Note<'_>> {
    if let Some(form) = line.strip_prefix(b"Follow: ") {
        return Some(Note::Head(form));
    }
    if let Some(digits) = line.strip_prefix(b"Filter: tcp.stream eq ") {
        return Some(Note::Stream(number_in(digits)?));
    }
    if let Some(address) = line.strip_prefix(b"Node 0: ") {
        return Some(Note::Node(false, address));
    }
    Some(Note::Node(true, line.strip_prefix(b"Node 1: ")?))
}

/// What tshark writes in the place of octets that the capture missed, around their number.
const BEFORE: &[u8] = b"[";

const AFTER: &[u8] = b" bytes missing in capture file]";

/// How many octets the capture missed, where these are what tshark writes in their place, with a NUL or without.
pub(crate) fn missing_in(octets: &[u8]) -> Option<u64> {
    let text = octets.strip_suffix(b"\0").unwrap_or(octets);
    number_in(text.strip_prefix(BEFORE)?.strip_suffix(AFTER)?)
}

/// Whether a line is one of a dump of packets: the place of its octets, two spaces, an octet and a space.
pub(crate) fn is_dump(line: &[u8]) -> bool {
    match line {
        [a, b, c, d, b' ', b' ', e, f, b' ', ..] => are_digits(&[*a, *b, *c, *d, *e, *f]),
        _ => false,
    }
}

/// Whether a line says nothing: it is blank, or a rule of equals signs.
pub(crate) fn is_silent(line: &[u8]) -> bool {
    for octet in line {
        if !octet.is_ascii_whitespace() && *octet != b'=' {
            return false;
        }
    }
    true
}

/// The first line of octets, and its end with what stands behind it, if one ends there.
pub(crate) fn first_line(octets: &[u8]) -> Option<(&[u8], &[u8])> {
    match octets
        .iter()
        .position(|octet| matches!(octet, b'\n' | b'\r'))
    {
        Some(place) => Some(octets.split_at(place)),
        None => None,
    }
}
