//! What a message has that is lent, of whichever type it is.

ghost use Rattle.std.specs.Prelude.{◌≡◌, IfOk, length, map, min, option_map};
ghost use Rattle.giop_core.specs.Ft.{ft_seen};
ghost use Rattle.giop_core.specs.Items.{contexts_left, item_at};
ghost use Rattle.giop_core.specs.Lent.{content_of};
ghost use Rattle.lemonrudder.specs.Lends.{body_in, client_by, context_in, contexts_in, copied_item, expiration_by, ft_carried, id_in, key_in, kind_number, operation_in, part_in, payload_in, place_in, retention_by, size_in, status_in, wish_in};

use crate::named::number_of_wish;
use crate::refusal::count_of;
use giop_core::{Content, Contexts, FtField, ft_request};
use std::alloc::{AllocError, Global};

/// The type of a message, as its header has it.
pub fn kind_of(content: &Content<'_>) -> u32
    ensures { result ≡ kind_number (content_of content.now) }
{
    match content {
        Content::Request(_) => 0,
        Content::Reply(_) => 1,
        Content::Cancel(_) => 2,
        Content::LocateRequest(_) => 3,
        Content::LocateReply(_) => 4,
        Content::Close => 5,
        Content::Error => 6,
        Content::Fragment(_) => 7,
    }
}

/// The request id.
pub fn id_of(content: &Content<'_>) -> u32
    ensures { result ≡ id_in (content_of content.now) }
{
    match content {
        Content::Request(request) => request.request_id,
        Content::Reply(reply) => reply.request_id,
        Content::Cancel(cancel) => cancel.request_id,
        Content::LocateRequest(locate) => locate.request_id,
        Content::LocateReply(reply) => reply.request_id,
        Content::Close | Content::Error => 0,
        Content::Fragment(fragment) => fragment.request_id.unwrap_or(0),
    }
}

/// The status of a reply.
pub fn status_of(content: &Content<'_>) -> u32
    ensures { result ≡ status_in (content_of content.now) }
{
    match content {
        Content::Reply(reply) => reply.status,
        Content::LocateReply(reply) => reply.status,
        _ => 0,
    }
}

/// The number of the wish of a Request.
pub fn wish_of(content: &Content<'_>) -> u32
    ensures { result ≡ wish_in (content_of content.now) }
{
    match content {
        Content::Request(request) => number_of_wish(request.reply),
        _ => 0,
    }
}

/// The object key that the target leads to.
pub fn key_of<'m>(content: &Content<'m>) -> Option<&'m [u8]>
    ensures { option_map (λ key. key.now) result ≡ key_in (content_of content.now) }
{
    match content {
        Content::Request(request) => request.target.object_key(),
        Content::LocateRequest(locate) => locate.target.object_key(),
        _ => None,
    }
}

/// The operation of a Request.
pub fn operation_of<'m>(content: &Content<'m>) -> Option<&'m [u8]>
    ensures { option_map (λ name. name.now) result ≡ operation_in (content_of content.now) }
{
    match content {
        Content::Request(request) => Some(request.operation),
        _ => None,
    }
}

/// The octets of the body.
pub fn body_of<'m>(content: &Content<'m>) -> Option<&'m [u8]>
    ensures { option_map (λ octets. octets.now) result ≡ body_in (content_of content.now) }
{
    match content {
        Content::Request(request) => Some(request.body.octets),
        Content::Reply(reply) => Some(reply.body.octets),
        Content::LocateReply(reply) => Some(reply.body.octets),
        _ => None,
    }
}

/// The place of the body in the message.
pub fn place_of(content: &Content<'_>) -> u64
    ensures { result ≡ place_in (content_of content.now) }
{
    match content {
        Content::Request(request) => request.body.at,
        Content::Reply(reply) => reply.body.at,
        Content::LocateReply(reply) => reply.body.at,
        _ => 0,
    }
}

/// The payload of a Fragment.
pub fn payload_of<'m>(content: &Content<'m>) -> Option<&'m [u8]>
    ensures { option_map (λ octets. octets.now) result ≡ payload_in (content_of content.now) }
{
    match content {
        Content::Fragment(fragment) => Some(fragment.payload),
        _ => None,
    }
}

/// The FT_REQUEST of a Request.
pub fn ft_of<'m>(content: &Content<'m>) -> FtField<'m>
    ensures { ft_seen result ≡ ft_carried (content_of content.now) }
{
    match content {
        Content::Request(request) => ft_request(&request.contexts),
        _ => FtField::Absent,
    }
}

/// The client id of an FT_REQUEST.
pub fn client_of<'m>(ft: &FtField<'m>) -> Option<&'m [u8]>
    ensures { option_map (λ id. id.now) result ≡ client_by (ft_seen ft.now) }
{
    match ft {
        FtField::Present {
            client_id,
            retention_id: _,
            expiration: _,
        } => Some(client_id),
        _ => None,
    }
}

/// The retention id of an FT_REQUEST.
pub fn retention_of(ft: &FtField<'_>) -> i32
    ensures { result ≡ retention_by (ft_seen ft.now) }
{
    match ft {
        FtField::Present {
            client_id: _,
            retention_id,
            expiration: _,
        } => *retention_id,
        _ => 0,
    }
}

/// The expiration of an FT_REQUEST.
pub fn expiration_of(ft: &FtField<'_>) -> u64
    ensures { result ≡ expiration_by (ft_seen ft.now) }
{
    match ft {
        FtField::Present {
            client_id: _,
            retention_id: _,
            expiration,
        } => *expiration,
        _ => 0,
    }
}

/// How many octets a part has: 0 where there is none.
pub fn size_of(part: Option<&[u8]>) -> u64
    ensures { result ≡ size_in (option_map (λ octets. octets.now) part.entry) }
{
    part.map_or(0, count_of)
}

/// A part of a message, by its number.
pub fn part_of<'m>(content: &Content<'m>, part: u32) -> Option<&'m [u8]>
    ensures { option_map (λ octets. octets.now) result ≡ part_in part (content_of content.now) }
{
    match part {
        0 => key_of(content),
        1 => operation_of(content),
        2 => body_of(content),
        3 => client_of(&ft_of(content)),
        4 => payload_of(content),
        _ => None,
    }
}

/// The service contexts.
pub fn contexts_of(content: Content<'_>) -> Option<Contexts<'_>>
    ensures { option_map contexts_left result ≡ contexts_in (content_of content.entry) }
{
    match content {
        Content::Request(request) => Some(request.contexts),
        Content::Reply(reply) => Some(reply.contexts),
        _ => None,
    }
}

/// How many service contexts there are.
pub fn count_of_contexts(content: Content<'_>) -> u32
    ensures { result ≡ min (size_in (contexts_in (content_of content.entry))) 4294967295 }
{
    match contexts_of(content) {
        Some(contexts) => length_of(contexts),
        None => 0,
    }
}

/// How many service contexts are left, or the greatest number.
pub fn length_of(contexts: Contexts<'_>) -> u32
    ensures { result ≡ min (length (contexts_left contexts.entry)) 4294967295 }
{
    let mut count: u32 = 0;
    for _ in contexts {
        count = count.saturating_add(1);
    }
    count
}

/// Copies of service contexts.
pub fn copies_of(alloc: Global, contexts: Contexts<'_>) -> Result<Vec<(u32, Vec<u8>)>, AllocError>
    ensures { IfOk result (λ v. map copied_item v.items ≡ contexts_left contexts.entry) }
{
    let mut copies = Vec::new(alloc);
    for (id, data) in contexts {
        let data = Vec::from_slice(alloc, data)?;
        copies.push((id, data))?;
    }
    Ok(copies)
}

/// A service context, by its index.
pub fn context_of(content: Content<'_>, index: u32) -> Option<(u32, &[u8])>
    ensures { option_map item_at result ≡ context_in index (content_of content.entry) }
{
    let mut contexts = contexts_of(content)?;
    contexts.nth(index as usize)
}
