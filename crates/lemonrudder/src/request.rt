//! What a request says, but its parts of any length, as the header has it.

ghost use Rattle.std.specs.Prelude.{◌≡◌};
ghost use Rattle.giop_core.specs.Items.{contexts_left};
ghost use Rattle.lemonrudder.specs.Asking.{with_question, with_refusal};
ghost use Rattle.lemonrudder.specs.Tickets.{ticket_of};

use crate::layout::Layout;
use crate::lent::length_of;
use crate::named::{minor_of, number_of_system_name, number_of_wish};
use crate::refusal::count_of;
use ft_log::SystemName;
use giop_core::{FtField, Request, Version, ft_request};

/// A request that waits for its outcome: `lr_request`.
#[derive(Clone, Copy, Debug, Drop)]
pub struct RequestHead {
    pub ticket: u64,
    pub connection: u64,
    pub key_size: u64,
    pub operation_size: u64,
    pub body_size: u64,
    pub body_at: u64,
    pub body_order: u32,
    pub is_raw: u32,
    pub request_id: u32,
    pub version: u32,
    pub wish: u32,
    pub has_client: u32,
    pub retention_id: i32,
    pub contexts: u32,
    pub client_size: u64,
    pub expiration: u64,
    pub is_refused: u32,
    pub refusal: u32,
}

impl RequestHead {
    ghost use Rattle.lemonrudder.specs.Asking.{no_request};
    ghost use Rattle.lemonrudder.specs.Layouts.{laid, octets_of_request};

    /// All zero.
    pub fn none() -> RequestHead
        ensures { result ≡ no_request }
    {
        RequestHead {
            ticket: 0,
            connection: 0,
            key_size: 0,
            operation_size: 0,
            body_size: 0,
            body_at: 0,
            body_order: 0,
            is_raw: 0,
            request_id: 0,
            version: 0,
            wish: 0,
            has_client: 0,
            retention_id: 0,
            contexts: 0,
            client_size: 0,
            expiration: 0,
            is_refused: 0,
            refusal: 0,
        }
    }

    /// Fills a room: with the octets of the struct, as many as it has, and with zeros behind.
    pub fn tell(&self, room: &mut [u8])
        ensures { room.new ≡ laid (octets_of_request self.now) room.old }
    {
        let mut layout = Layout::new();
        layout.put_u64(self.ticket);
        layout.put_u64(self.connection);
        layout.put_u64(self.key_size);
        layout.put_u64(self.operation_size);
        layout.put_u64(self.body_size);
        layout.put_u64(self.body_at);
        layout.put_u32(self.body_order);
        layout.put_u32(self.is_raw);
        layout.put_u32(self.request_id);
        layout.put_u32(self.version);
        layout.put_u32(self.wish);
        layout.put_u32(self.has_client);
        layout.put_i32(self.retention_id);
        layout.put_u32(self.contexts);
        layout.put_u64(self.client_size);
        layout.put_u64(self.expiration);
        layout.put_u32(self.is_refused);
        layout.put_u32(self.refusal);
        layout.fill(room);
    }
}

/// The ticket of the request of a number.
pub fn ticket_of(number: u64) -> u64
    ensures { result ≡ ticket_of number }
{
    number.saturating_add(1)
}

/// Says what would refuse a request, if anything would.
pub fn put_refusal(head: &mut RequestHead, refused: Option<SystemName>)
    ensures { head.new ≡ with_refusal refused head.old }
{
    if let Some(name) = refused {
        head.is_refused = 1;
        head.refusal = number_of_system_name(name);
    }
}

/// Says the version, the id, the wish, how many service contexts it has and the FT_REQUEST of a request.
#[inline(always)]
pub fn put_question(head: &mut RequestHead, version: Version, request: Request<'_>)
    ensures { head.new ≡ with_question version request.entry.request_id request.entry.reply (contexts_left request.entry.contexts) head.old }
{
    head.request_id = request.request_id;
    head.version = minor_of(version);
    head.wish = number_of_wish(request.reply);
    let ft = ft_request(&request.contexts);
    head.contexts = length_of(request.contexts);
    let FtField::Present {
        client_id,
        retention_id,
        expiration,
    } = ft
    else {
        return;
    };
    head.has_client = 1;
    head.retention_id = retention_id;
    head.client_size = count_of(client_id);
    head.expiration = expiration;
}
