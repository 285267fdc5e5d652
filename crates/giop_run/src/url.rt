//! The texts that name an object: `IOR:` (IOP 7.6.9), and the URL `corbaloc:` (IOP 7.6.10).

use crate::stop::Stop;
use corbaloc::{parse_location, reference_of};
use ior_core::{Ior, parse_text};
use std::alloc::Global;

/// How many addresses of a URL are shown at most: each has the whole key.
const MOST_ADDRESSES: usize = 64;

/// Whether a text is meant as a URL.
fn is_url(text: &str) -> bool {
    match text.split_once(':') {
        Some((scheme, _)) => scheme.eq_ignore_ascii_case("corbaloc"),
        None => false,
    }
}

/// The reference that a text stands for.
pub(crate) fn reference_in(alloc: Global, text: &str) -> Result<Ior, Stop> {
    if !is_url(text) {
        return Ok(parse_text(alloc, text)?);
    }
    let location = parse_location(alloc, text)?;
    if location.addresses.len() > MOST_ADDRESSES {
        return Err(Stop::ManyAddresses);
    }
    Ok(reference_of(alloc, &location)?)
}
