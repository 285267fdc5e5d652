//! What helps one who sits before a terminal.

ghost use Rattle.std.specs.Prelude.{◌≡◌};

use crate::setting::Form;
use giop_text::is_capture;
use std::fmt;

/// What helps where a stream was refused or doesn't end well.
#[derive(Clone, Copy)]
pub enum Hint {
    /// Input comes from a terminal.
    Waiting,
    /// The input is a packet capture.
    Capture,
    /// The input is no text.
    Binary,
    /// The input is what tshark prints of both sides of a connection.
    Follow,
    /// Colons stand between the digits.
    Colons,
}

impl fmt::Display for Hint {
    fn fmt<W: fmt::Write>(&self, f: &mut fmt::Formatter<W>) -> fmt::Result {
        let text = match self {
            Hint::Waiting => "hint: input is waited for on this terminal; Ctrl-D ends it",
            Hint::Capture => {
                "hint: the input is a packet capture; tshark -r CAPTURE -q -z follow,tcp,raw,N prints the octets of its TCP connection N as digits"
            }
            Hint::Binary => "hint: the input is binary; --raw takes octets as they are",
            Hint::Follow => {
                "hint: the input is what tshark prints of both sides of a connection; giop trace reads it"
            }
            Hint::Colons => "hint: the input has colons; tr -d : leaves them out",
        };
        f.write_str(text)
    }
}

/// What the line begins with that stands at the head of what tshark prints of a connection.
const FOLLOW: &[u8] = b"Follow: ";

/// Whether an octet stands in a text of digits, right or wrong.
fn is_text(octet: u8) -> bool {
    octet.is_ascii_graphic() || octet.is_ascii_whitespace()
}

/// Whether a text has that line.
fn has_head(text: &[u8]) -> bool {
    text.starts_with(FOLLOW)
        || text.windows(FOLLOW.len() + 1).any(
            |octets| matches!(octets, [b'\n', head @ ..] if head == FOLLOW),
        )
}

/// What helps with octets that are no stream in this form, if anything is known to.
pub(crate) fn hint_of(octets: &[u8], form: Form) -> Option<Hint> {
    if is_capture(octets) {
        return Some(Hint::Capture);
    }
    if form == Form::Raw {
        return None;
    }
    if octets.starts_with(b"GIOP") || !octets.iter().all(|octet| is_text(*octet)) {
        return Some(Hint::Binary);
    }
    if has_head(octets) {
        return Some(Hint::Follow);
    }
    if octets.contains(&b':') {
        return Some(Hint::Colons);
    }
    None
}
