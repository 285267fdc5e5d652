//! Messages that are written into the caller's room.

ghost use Rattle.giop_core.specs.declared.header.MessageKind.TheVariants as kind;
ghost use Rattle.lemonrudder.specs.Writes.{Writes, bare, cancel, context_of, ft_context, locate_reply, locate_request, manner, reply, request};

use std::alloc::Global;

/// Writes a Request to an object key.
#[unsafe(no_mangle)]
pub extern "C" fn lr_write_request(
    alloc: Global,
    room: &mut [u8],
    version: u32,
    order: u32,
    request_id: u32,
    wish: u32,
    key: &[u8],
    operation: &[u8],
    context_id: u32,
    context: &[u8],
    body: &[u8],
) -> i64
    ensures { Writes (manner version order (λ v o. request v o (record { id = request_id; wish = wish; key = key.now; operation = operation.now; contexts = context_of context_id context.now; body = body.now }))) room.old room.new result }
{
    lemonrudder::lr_write_request(
        alloc, room, version, order, request_id, wish, key, operation, context_id, context, body,
    )
}

/// Writes a Reply without service contexts.
#[unsafe(no_mangle)]
pub extern "C" fn lr_write_reply(
    alloc: Global,
    room: &mut [u8],
    version: u32,
    order: u32,
    request_id: u32,
    status: u32,
    body: &[u8],
) -> i64
    ensures { Writes (manner version order (λ v o. reply v o request_id status body.now)) room.old room.new result }
{
    lemonrudder::lr_write_reply(alloc, room, version, order, request_id, status, body)
}

/// Writes a CancelRequest.
#[unsafe(no_mangle)]
pub extern "C" fn lr_write_cancel(room: &mut [u8], version: u32, order: u32, request_id: u32) -> i64
    ensures { Writes (manner version order (λ v o. cancel v o request_id)) room.old room.new result }
{
    lemonrudder::lr_write_cancel(room, version, order, request_id)
}

/// Writes a LocateRequest of an object key.
#[unsafe(no_mangle)]
pub extern "C" fn lr_write_locate_request(
    alloc: Global,
    room: &mut [u8],
    version: u32,
    order: u32,
    request_id: u32,
    key: &[u8],
) -> i64
    ensures { Writes (manner version order (λ v o. locate_request v o request_id key.now)) room.old room.new result }
{
    lemonrudder::lr_write_locate_request(alloc, room, version, order, request_id, key)
}

/// Writes a LocateReply without a body.
#[unsafe(no_mangle)]
pub extern "C" fn lr_write_locate_reply(
    room: &mut [u8],
    version: u32,
    order: u32,
    request_id: u32,
    status: u32,
) -> i64
    ensures { Writes (manner version order (λ v o. locate_reply v o request_id status)) room.old room.new result }
{
    lemonrudder::lr_write_locate_reply(room, version, order, request_id, status)
}

/// Writes CloseConnection.
#[unsafe(no_mangle)]
pub extern "C" fn lr_write_close(room: &mut [u8]) -> i64
    ensures { Writes (bare kind.CloseConnection) room.old room.new result }
{
    lemonrudder::lr_write_close(room)
}

/// Writes MessageError.
#[unsafe(no_mangle)]
pub extern "C" fn lr_write_error(room: &mut [u8]) -> i64
    ensures { Writes (bare kind.MessageError) room.old room.new result }
{
    lemonrudder::lr_write_error(room)
}

/// Writes the data of an FT_REQUEST context.
#[unsafe(no_mangle)]
pub extern "C" fn lr_write_ft(
    alloc: Global,
    room: &mut [u8],
    order: u32,
    client: &[u8],
    retention_id: i32,
    expiration: u64,
) -> i64
    ensures { Writes (ft_context order client.now retention_id expiration) room.old room.new result }
{
    lemonrudder::lr_write_ft(alloc, room, order, client, retention_id, expiration)
}
