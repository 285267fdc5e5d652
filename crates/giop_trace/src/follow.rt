//! A line of what `tshark -q -z follow,tcp,raw,N` prints.

ghost use Rattle.std.specs.Prelude.{◌≡◌, codes, IfOk};
ghost use Rattle.giop_trace.specs.Following as follow;
ghost use Rattle.hex.specs.Hex.{decode_of};
ghost use Rattle.giop_trace.specs.Private.{line_seen};

use digits::decode;
use giop_tap::Sender;
use hex::FromHexError;
use std::alloc::Global;

/// Why a line is refused.
#[derive(Clone, Copy)]
pub(crate) enum LineError {
    OddDigits,
    Colons,
    Memory,
}

/// What a line is.
#[derive(Drop)]
pub(crate) enum Line {
    /// The head of the next connection.
    Head,
    /// Octets of a side.
    Gives(Sender, Vec<u8>),
    /// One that is passed over.
    Other,
}

/// Whether an octet is a hexadecimal digit, of either case.
fn is_digit(octet: u8) -> bool {
    octet.is_ascii_hexdigit()
}

/// Whether all octets are hexadecimal digits.
pub(crate) fn are_digits(octets: &[u8]) -> bool {
    for octet in octets {
        if !is_digit(*octet) {
            return false;
        }
    }
    true
}

/// Whether all octets are hexadecimal digits or colons.
fn are_digits_and_colons(octets: &[u8]) -> bool {
    for octet in octets {
        if !is_digit(*octet) && *octet != b':' {
            return false;
        }
    }
    true
}

/// Whether digits have colons between them, the first behind two digits.
fn has_colons(digits: &[u8]) -> bool {
    match digits {
        [a, b, b':', ..] => is_digit(*a) && is_digit(*b) && are_digits_and_colons(digits),
        _ => false,
    }
}

/// Why digits that are no octets are refused, if they are.
fn refusal(digits: &[u8]) -> Option<LineError> {
    if !digits.is_empty() && are_digits(digits) {
        return Some(LineError::OddDigits);
    }
    if has_colons(digits) {
        return Some(LineError::Colons);
    }
    None
}

/// A line of digits of a side.
fn given_by(alloc: Global, sender: Sender, digits: &[u8]) -> Result<Line, LineError>
    ensures { IfOk result (λ line. line_seen line ≡ follow.given_by sender (decode_of digits.now)) }
{
    match decode(alloc, digits) {
        Ok(octets) if octets.is_empty() => Ok(Line::Other),
        Ok(octets) => Ok(Line::Gives(sender, octets)),
        Err(FromHexError::OutOfMemory) => Err(LineError::Memory),
        Err(_) => match refusal(digits) {
            Some(error) => Err(error),
            None => Ok(Line::Other),
        },
    }
}

/// Whether a line stands at the head of a connection.
fn is_head(line: &[u8]) -> bool
    ensures { result ≡ follow.begins (codes "Follow:") line.now }
{
    matches!(line, [b'F', b'o', b'l', b'l', b'o', b'w', b':', ..])
}

/// What a line is.
pub(crate) fn line_of(alloc: Global, line: &[u8]) -> Result<Line, LineError>
    ensures { IfOk result (λ l. line_seen l ≡ follow.line_of line.now) }
{
    if is_head(line) {
        return Ok(Line::Head);
    }
    match line {
        [] => Ok(Line::Other),
        [b'\t', digits @ ..] => given_by(alloc, Sender::Acceptor, digits),
        digits => given_by(alloc, Sender::Opener, digits),
    }
}
