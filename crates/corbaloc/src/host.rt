//! Hosts and ports.

ghost use Rattle.std.specs.Prelude.{◌≡◌, ◌↔◌, ℕ, List, IfErr, IfNone, IfOk, IfSome, IsTrue};
ghost use Rattle.std.specs.List.{list_all};
ghost use Rattle.corbaloc.specs.Faults.{IsPlaceFault};
ghost use Rattle.corbaloc.specs.Grammar.{is_of_ipv6, is_of_name, IsCut, IsHostOf, IsUntil, SpellsHost, SpellsPlace, SpellsPort};

use crate::error::LocationError;
use crate::places::{cut, number, place_of, until};

/// The port of an address that has none.
const DEFAULT_PORT: u16 = 2809;

/// Whether an octet may stand in a DNS name or an IPv4 address.
fn is_of_name(octet: u8) -> bool
    ensures { result ≡ is_of_name octet }
{
    octet.is_ascii_alphanumeric() || b"-._".contains(&octet)
}

/// Whether an octet may stand in an IPv6 address.
fn is_of_ipv6(octet: u8) -> bool
    ensures { result ≡ is_of_ipv6 octet }
{
    octet.is_ascii_hexdigit() || b":.".contains(&octet)
}

/// Whether each octet may stand in a DNS name or an IPv4 address.
fn are_of_name(octets: &[u8]) -> bool
    ensures { result ≡ list_all is_of_name octets.now }
{
    octets.iter().all(|octet| is_of_name(*octet))
}

/// Whether each octet may stand in an IPv6 address.
fn are_of_ipv6(octets: &[u8]) -> bool
    ensures { result ≡ list_all is_of_ipv6 octets.now }
{
    octets.iter().all(|octet| is_of_ipv6(*octet))
}

/// Whether a text is a DNS name or an IPv4 address.
fn is_name(text: &str) -> bool
    ensures { IsTrue result ↔ IsHostOf is_of_name text.now }
{
    !text.is_empty() && are_of_name(text.as_bytes())
}

/// Whether a text is an IPv6 address, as far as its octets tell.
fn is_ipv6(text: &str) -> bool
    ensures { IsTrue result ↔ IsHostOf is_of_ipv6 text.now }
{
    !text.is_empty() && are_of_ipv6(text.as_bytes())
}

/// The port in what stands behind a host.
fn port_of(behind: &str) -> Option<u16>
    ensures found { IfSome result (λ port. SpellsPort behind.now port) }
    ensures none { IfNone result ((port : ℕ) → SpellsPort behind.now port → ⊥) }
{
    if behind.is_empty() {
        return Some(DEFAULT_PORT);
    }
    let port = number(behind.strip_prefix(':')?)?;
    (port != 0).then_some(port)
}

/// The host in brackets of which the first one is before the text, and what stands behind them.
fn bracketed(inside: &str) -> Option<(&str, &str)>
    ensures found { IfSome result (λ x. IsCut 93 inside.now x.0.now x.1.now × IsHostOf is_of_ipv6 x.0.now) }
    ensures none { IfNone result ((host behind : List ℕ) → IsCut 93 inside.now host behind → IsHostOf is_of_ipv6 host → ⊥) }
{
    let (host, behind) = cut(inside, ']')?;
    is_ipv6(host).then_some((host, behind))
}

/// The host that is a name, and what stands behind it, from a colon on.
fn named(text: &str) -> Option<(&str, &str)>
    ensures found { IfSome result (λ x. IsUntil 58 text.now x.0.now x.1.now × IsHostOf is_of_name x.0.now) }
    ensures none { IfNone result ((host behind : List ℕ) → IsUntil 58 text.now host behind → IsHostOf is_of_name host → ⊥) }
{
    let (host, behind) = until(text, ':');
    is_name(host).then_some((host, behind))
}

/// The host of an address, and what stands behind it.
fn split_host(text: &str) -> Option<(&str, &str)>
    ensures found { IfSome result (λ x. SpellsHost text.now x.0.now x.1.now) }
    ensures none { IfNone result ((host behind : List ℕ) → SpellsHost text.now host behind → ⊥) }
{
    match text.strip_prefix('[') {
        Some(inside) => bracketed(inside),
        None => named(text),
    }
}

/// The host and the port of an address, which begin at this place.
pub(crate) fn host_and_port(at: usize, text: &str) -> Result<(&str, u16), LocationError>
    ensures spelled { IfOk result (λ x. SpellsPlace text.now x.0.now x.1) }
    ensures refused { IfErr result (λ e. IsPlaceFault at text.now e) }
{
    let (host, behind) = split_host(text).ok_or(LocationError::BadHost(at))?;
    let place = place_of(at, text.len(), behind.len());
    let port = port_of(behind).ok_or(LocationError::BadPort(place))?;
    Ok((host, port))
}
