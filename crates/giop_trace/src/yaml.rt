//! A line of what `tshark -q -z follow,tcp,yaml,N` prints, and of what `giop-capture` does, which adds keys to it.

ghost use Rattle.std.specs.Prelude.{◌≡◌, Ok, IfOk};
ghost use Rattle.base64.specs.GeneralPurpose.{decode_of};
ghost use Rattle.base64.specs.Engines.{standard};

use base64::DecodeAllocError;
use base64::engine::general_purpose::STANDARD;
use giop_lines::Closing;
use giop_tap::Sender;
use std::alloc::Global;
use std::str;

/// What a line says.
#[derive(Clone, Copy)]
pub(crate) enum YamlLine<'t> {
    /// The ends of the next connection follow.
    Peers,
    /// The number of the stream of the next connection.
    Stream(u64),
    /// An end of the connection begins.
    Peer(Sender),
    Host(&'t [u8]),
    Port(&'t [u8]),
    /// A packet of a number begins.
    Packet(u64),
    /// Which stream the packet is of.
    PacketStream(u64),
    /// Who sent it.
    Side(Sender),
    /// When it came, where that is known, in nanoseconds since 1970.
    Time(Option<u64>),
    /// So many octets are missing in its place.
    Missing(u64),
    /// It closes the connection.
    Closed(Closing),
    /// Its octets follow, of which these are the first digits.
    Data(&'t [u8]),
    /// Digits of octets.
    Digits(&'t [u8]),
    /// One that says nothing here.
    Other,
    /// One that is not read.
    Bad,
}

/// The number in decimal digits.
pub(crate) fn number_in(digits: &[u8]) -> Option<u64> {
    str::from_utf8(digits).ok()?.parse().ok()
}

/// The side of a peer's number: the first speaks as the side that opened the connection.
fn side_in(digits: &[u8]) -> Option<Sender> {
    match digits {
        [b'0'] => Some(Sender::Opener),
        [b'1'] => Some(Sender::Acceptor),
        _ => None,
    }
}

/// The nanoseconds of digits behind a point. None: they are no digits, or more than nine.
fn fraction_in(digits: &[u8]) -> Option<u64> {
    let number = number_in(digits)?;
    let scale = match digits.len() {
        1 => 100_000_000,
        2 => 10_000_000,
        3 => 1_000_000,
        4 => 100_000,
        5 => 10_000,
        6 => 1_000,
        7 => 100,
        8 => 10,
        9 => 1,
        _ => return None,
    };
    number.checked_mul(scale)
}

/// The time of seconds with a fraction, in nanoseconds. None where they are no such time, or 0, which tshark writes
/// where it knows none.
fn time_in(text: &[u8]) -> Option<u64> {
    let mut parts = text.splitn(2, |octet| *octet == b'.');
    let seconds = number_in(parts.next()?)?;
    let fraction = match parts.next() {
        Some(digits) => fraction_in(digits)?,
        None => 0,
    };
    let time = seconds.checked_mul(1_000_000_000)?.checked_add(fraction)?;
    if time == 0 { None } else { Some(time) }
}

/// How a connection is closed by a word.
fn closing_in(word: &[u8]) -> YamlLine<'_> {
    match word {
        b"FIN" => YamlLine::Closed(Closing::Fin),
        b"RST" => YamlLine::Closed(Closing::Reset),
        _ => YamlLine::Bad,
    }
}

/// A line of a packet, or of an end of the connection, behind its four spaces.
fn inner_line(line: &[u8]) -> YamlLine<'_> {
    if let Some(host) = line.strip_prefix(b"host: ") {
        return YamlLine::Host(host);
    }
    if let Some(port) = line.strip_prefix(b"port: ") {
        return YamlLine::Port(port);
    }
    if let Some(peer) = line.strip_prefix(b"peer: ") {
        return match side_in(peer) {
            Some(side) => YamlLine::Side(side),
            None => YamlLine::Bad,
        };
    }
    if let Some(time) = line.strip_prefix(b"timestamp: ") {
        return YamlLine::Time(time_in(time));
    }
    if let Some(digits) = line.strip_prefix(b"data: !!binary |") {
        return YamlLine::Data(digits);
    }
    if let Some(digits) = line.strip_prefix(b"data: !!binary ") {
        return YamlLine::Data(digits);
    }
    added_line(line)
}

/// A line that `giop-capture` adds to a packet, behind its four spaces; other keys are of no interest.
fn added_line(line: &[u8]) -> YamlLine<'_> {
    if let Some(digits) = line.strip_prefix(b"stream: ") {
        return match number_in(digits) {
            Some(stream) => YamlLine::PacketStream(stream),
            None => YamlLine::Bad,
        };
    }
    if let Some(digits) = line.strip_prefix(b"missing: ") {
        return match number_in(digits) {
            Some(octets) => YamlLine::Missing(octets),
            None => YamlLine::Bad,
        };
    }
    if let Some(word) = line.strip_prefix(b"closed: ") {
        return closing_in(word);
    }
    if line.starts_with(b"data:") {
        return YamlLine::Bad;
    }
    if line.contains(&b':') {
        YamlLine::Other
    } else {
        YamlLine::Bad
    }
}

/// A line that begins an item of a list, behind its hyphen.
fn item_line(line: &[u8]) -> YamlLine<'_> {
    if let Some(digits) = line.strip_prefix(b"packet: ") {
        return match number_in(digits) {
            Some(packet) => YamlLine::Packet(packet),
            None => YamlLine::Bad,
        };
    }
    if let Some(digits) = line.strip_prefix(b"peer: ") {
        return match side_in(digits) {
            Some(side) => YamlLine::Peer(side),
            None => YamlLine::Bad,
        };
    }
    YamlLine::Bad
}

/// A line at the margin.
fn outer_line(line: &[u8]) -> YamlLine<'_> {
    if let Some(digits) = line.strip_prefix(b"stream: ") {
        return match number_in(digits) {
            Some(stream) => YamlLine::Stream(stream),
            None => YamlLine::Bad,
        };
    }
    match line {
        b"peers:" => YamlLine::Peers,
        [] | [b'#', ..] | b"---" | b"..." => YamlLine::Other,
        _ if line.contains(&b':') => YamlLine::Other,
        _ => YamlLine::Bad,
    }
}

/// What a line says.
pub(crate) fn yaml_line(line: &[u8]) -> YamlLine<'_> {
    let line = line.trim_ascii_end();
    if let Some(digits) = line.strip_prefix(b"      ") {
        return YamlLine::Digits(digits);
    }
    if let Some(inner) = line.strip_prefix(b"    ") {
        return inner_line(inner);
    }
    if let Some(item) = line.strip_prefix(b"  - ") {
        return item_line(item);
    }
    outer_line(line)
}

/// Whether a line begins such an input.
pub(crate) fn is_yaml(line: &[u8]) -> bool {
    matches!(yaml_line(line), YamlLine::Peers | YamlLine::Stream(_))
}

/// The octets of digits in base 64.
pub(crate) fn octets_in(alloc: Global, digits: &[u8]) -> Result<Vec<u8>, DecodeAllocError>
    ensures { IfOk result (λ octets. decode_of standard digits.now ≡ Ok octets.items) }
{
    STANDARD.decode(alloc, digits)
}
