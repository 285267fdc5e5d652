//! Octets in lines of text: as characters where they print, and as hexadecimal digits.

ghost use Rattle.std.specs.Prelude.{◌≡◌, ◌++◌, string_bytes, IfOk, OnOk};
ghost use Rattle.giop_text.specs.Text as text;

use std::alloc::{AllocError, Global};

/// Whether an octet stands for itself: those of ASCII from the space on that print, but the
/// backslash.
fn is_plain(octet: u8) -> bool
    ensures { result ≡ text.is_plain octet }
{
    matches!(octet, 0x20..=0x7e) && octet != b'\\'
}

/// Appends an octet as it is, or as `\x` and two digits.
fn put_octet(alloc: Global, octet: u8, line: &mut String) -> Result<(), AllocError>
    ensures { OnOk result (string_bytes line.new ≡ string_bytes line.old ++ text.octet_text octet) }
{
    if is_plain(octet) {
        return line.push(char::from(octet));
    }
    let digits = hex::encode(alloc, [octet])?;
    line.push_str("\\x")?;
    line.push_str(&digits)
}

/// The text of octets: each as it is where it prints in ASCII and isn't the backslash, else as `\x`
/// and two digits.
pub fn text_of(alloc: Global, octets: &[u8]) -> Result<String, AllocError>
    ensures { IfOk result (λ line. string_bytes line ≡ text.text_of octets.now) }
{
    let mut line = String::new(alloc);
    for octet in octets {
        put_octet(alloc, *octet, &mut line)?;
    }
    Ok(line)
}

/// The hexadecimal digits of octets in lower case, or a dash where there are none.
pub fn digits_of(alloc: Global, octets: &[u8]) -> Result<String, AllocError>
    ensures { IfOk result (λ line. string_bytes line ≡ text.digits_of octets.now) }
{
    if octets.is_empty() {
        return String::from_str(alloc, "-");
    }
    digits::encode(alloc, octets)
}

/// Whether a host has colons, as an address of IPv6 has.
fn has_colons(host: &[u8]) -> bool
    ensures { result ≡ text.has_colons host.now }
{
    host.contains(&b':')
}

/// An address: its host and its port. A host that has colons, as an address of IPv6, stands in brackets.
pub fn host_port(alloc: Global, host: &[u8], port: u16) -> Result<String, AllocError>
    ensures { IfOk result (λ line. string_bytes line ≡ text.host_port host.now port) }
{
    let name = text_of(alloc, host)?;
    let mut line = String::new(alloc);
    if has_colons(host) {
        write!(line, "[{name}]:{port}")?;
        return Ok(line);
    }
    write!(line, "{name}:{port}")?;
    Ok(line)
}
