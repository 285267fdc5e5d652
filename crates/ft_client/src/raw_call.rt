//! A call whose body goes out as it came.

ghost use Rattle.std.specs.Prelude.{◌≡◌, ◌≤◌, ◌==◌, ◌%◌, ◌||◌, ◌-◌, ◌∷◌, length, map, take, IfOk, not};
ghost use Rattle.std.specs.List.{list_any};
ghost use Rattle.cdr_core.specs.Parts.{octet_value};
ghost use Rattle.cdr_core.specs.View.{value_of};
ghost use Rattle.giop_core.specs.Items.{item_at};

use cdr_core::Val;
use giop_core::{Body, FT_REQUEST, ReplyWish, Version};
use std::alloc::{AllocError, Global};

/// A call whose body goes out as it came: from a gateway, a recorder, or a stub of another language.
#[derive(Clone, Copy, Debug, Drop)]
pub struct RawCall<'a> {
    pub object_key: &'a [u8],
    /// The name of the operation, without its NUL.
    pub operation: &'a [u8],
    /// Its service contexts in order, without FT_REQUEST, which the client puts before them.
    pub contexts: &'a [(u32, &'a [u8])],
    /// Its arguments: the octets, their byte order, which is that of the message, and the place from which they came.
    pub body: Body<'a>,
    pub wish: ReplyWish,
    /// The version of this call's message.
    pub version: Version,
    /// The moment after which it is not sent: a number of 100 ns since 15 October 1582, 00:00 UTC.
    pub expiration: u64,
}

/// Whether FT_REQUEST is among service contexts.
pub(crate) fn has_ft_request(contexts: &[(u32, &[u8])]) -> bool
    ensures { result ≡ list_any (λ x. x.0 == 13) contexts.now }
{
    contexts.iter().any(|one| one.0 == FT_REQUEST)
}

/// Whether a body is read from the end of a message as it was where it came from: its place is the same modulo 8
/// (CDR 9.3.1), or it has no octets.
pub(crate) fn is_placed(body: &Body<'_>, message: &[u8]) -> bool
    requires { length body.now.octets.now ≤ length message.now }
    ensures { result ≡ (length body.now.octets.now == 0 || (length message.now - length body.now.octets.now) % 8 == body.now.at % 8) }
{
    let place = message.len() - body.octets.len();
    body.octets.is_empty() || place as u64 % 8 == body.at % 8
}

/// Service contexts, with FT_REQUEST of these octets before them.
pub(crate) fn with_ft_request<'a>(
    alloc: Global,
    ft: &'a [u8],
    others: &[(u32, &'a [u8])],
) -> Result<Vec<(u32, &'a [u8])>, AllocError>
    ensures { IfOk result (λ all. map item_at all.items ≡ (13, ft.now) ∷ map item_at others.now) }
{
    let mut all = Vec::with_capacity(alloc, others.len() + 1)?;
    all.push((FT_REQUEST, ft))?;
    all.extend_from_slice(others)?;
    Ok(all)
}

/// Octets as values, one after another.
pub(crate) fn octet_values(alloc: Global, octets: &[u8]) -> Result<Vec<Val>, AllocError>
    ensures { IfOk result (λ values. map value_of values.items ≡ map octet_value octets.now) }
{
    let mut values = Vec::with_capacity(alloc, octets.len())?;
    for octet in octets {
        values.push(Val::Octet(*octet))?;
    }
    Ok(values)
}
