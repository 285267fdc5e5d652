//! The words and the lines that show a message.
//!
//! Each call appends to a text. Where an allocation fails, nothing is said of what the text is then: it is not printed.

ghost use Rattle.std.specs.Prelude.{◌≡◌, ◌++◌, ◌∷◌, ℕ, List, [], Option, Some, string_bytes, OnOk};
ghost use Rattle.giop_core.specs.Ft.{ft_seen};
ghost use Rattle.giop_core.specs.Items.{contexts_left};
ghost use Rattle.giop_core.specs.Lent.{addressed_by, content_of, reply_of, request_of};
ghost use Rattle.giop_text.specs.MessageLines as lines;

use crate::text::{digits_of, text_of};
use giop_core::{
    Body, Content, Contexts, FtField, LocateReply, LocateRequest, LocateStatus, Message, Reply,
    ReplyStatus, Request, Target, ft_request,
};
use std::alloc::{AllocError, Global};
use std::fmt;

/// Appends what a target is.
pub fn put_target(alloc: Global, target: &Target, text: &mut String) -> Result<(), AllocError>
    ensures { OnOk result (string_bytes text.new ≡ string_bytes text.old ++ lines.target_text (addressed_by target.now)) }
{
    match target {
        Target::Key(key) => {
            let key = digits_of(alloc, key)?;
            text.push_str("key ")?;
            text.push_str(&key)
        }
        Target::Profile(tag, octets) => {
            let octets = digits_of(alloc, octets)?;
            write!(text, "profile {tag} {octets}")
        }
        Target::Reference(index, _) => write!(text, "reference {index}"),
    }
}

/// Appends a service context.
pub fn put_context(
    alloc: Global,
    id: u32,
    octets: &[u8],
    text: &mut String,
) -> Result<(), AllocError>
    ensures { OnOk result (string_bytes text.new ≡ string_bytes text.old ++ lines.context_text id octets.now) }
{
    let octets = digits_of(alloc, octets)?;
    write!(text, "context {id} ")?;
    text.push_str(&octets)
}

/// Appends what an FT_REQUEST context says, if there is one, behind a space.
pub fn put_ft(alloc: Global, field: &FtField, text: &mut String) -> Result<(), AllocError>
    ensures { OnOk result (string_bytes text.new ≡ string_bytes text.old ++ lines.ft_text (ft_seen field.now)) }
{
    match field {
        FtField::Absent => Ok(()),
        FtField::Bad => text.push_str(" ft bad"),
        FtField::Present {
            client_id,
            retention_id,
            expiration,
        } => {
            let client = text_of(alloc, client_id)?;
            write!(
                text,
                " ft client {client} retention {retention_id} expiration {expiration}"
            )
        }
    }
}

/// Appends the octets of a body, behind a space.
pub fn put_body(alloc: Global, body: &Body, text: &mut String) -> Result<(), AllocError>
    ensures { OnOk result (string_bytes text.new ≡ string_bytes text.old ++ lines.body_text body.now.octets.now) }
{
    let body = digits_of(alloc, body.octets)?;
    text.push_str(" body ")?;
    text.push_str(&body)
}

/// Appends the name of a status, or a question mark for a number that has none.
fn put_status<T: fmt::Display + Drop>(
    status: Option<T>,
    text: &mut String,
) -> Result<(), AllocError>
    ensures { OnOk result ((name : T → List ℕ) → ((one : T) → T.output one ≡ Some (name one)) → string_bytes text.new ≡ string_bytes text.old ++ lines.text_by name status) }
{
    match status {
        Some(status) => write!(text, "{status}"),
        None => text.push('?'),
    }
}

/// Appends the status of a Reply by its number, behind a space.
pub fn put_reply_status(status: u32, text: &mut String) -> Result<(), AllocError>
    ensures { OnOk result (string_bytes text.new ≡ string_bytes text.old ++ lines.reply_status_words status) }
{
    text.push_str(" status ")?;
    put_status(ReplyStatus::from_number(status), text)
}

/// Appends the status of a LocateReply by its number, behind a space.
pub fn put_locate_status(status: u32, text: &mut String) -> Result<(), AllocError>
    ensures { OnOk result (string_bytes text.new ≡ string_bytes text.old ++ lines.locate_status_words status) }
{
    text.push_str(" status ")?;
    put_status(LocateStatus::from_number(status), text)
}

/// Appends what a Request says, but for its contexts.
pub fn put_request(alloc: Global, request: &Request, text: &mut String) -> Result<(), AllocError>
    ensures { OnOk result (string_bytes text.new ≡ string_bytes text.old ++ lines.request_text request.now.request_id request.now.reply (addressed_by request.now.target) request.now.operation.now request.now.body.octets.now) }
{
    let id = request.request_id;
    let wish = request.reply;
    write!(text, "Request id {id} reply {wish} ")?;
    put_target(alloc, &request.target, text)?;
    let operation = text_of(alloc, request.operation)?;
    write!(text, " operation {operation}")?;
    put_body(alloc, &request.body, text)
}

/// Appends what a LocateRequest says.
pub fn put_locate_request(
    alloc: Global,
    request: &LocateRequest,
    text: &mut String,
) -> Result<(), AllocError>
    ensures { OnOk result (string_bytes text.new ≡ string_bytes text.old ++ lines.locate_request_text request.now.request_id (addressed_by request.now.target)) }
{
    let id = request.request_id;
    write!(text, "LocateRequest id {id} ")?;
    put_target(alloc, &request.target, text)
}

/// Ends a line.
fn end_line(text: &mut String) -> Result<(), AllocError>
    ensures { OnOk result (string_bytes text.new ≡ string_bytes text.old ++ 10 ∷ []) }
{
    text.push('\n')
}

/// Appends a line for each service context.
fn put_contexts(alloc: Global, contexts: Contexts, text: &mut String) -> Result<(), AllocError>
    ensures { OnOk result (string_bytes text.new ≡ string_bytes text.old ++ lines.context_lines (contexts_left contexts.entry)) }
{
    for (id, octets) in contexts {
        put_context_line(alloc, id, octets, text)?;
    }
    Ok(())
}

/// Appends the line of a service context.
fn put_context_line(
    alloc: Global,
    id: u32,
    octets: &[u8],
    text: &mut String,
) -> Result<(), AllocError>
    ensures { OnOk result (string_bytes text.new ≡ string_bytes text.old ++ lines.context_line (id, octets.now)) }
{
    text.push_str("  ")?;
    put_context(alloc, id, octets, text)?;
    end_line(text)
}

/// Appends the line of an FT_REQUEST context, if there is one.
fn put_ft_line(alloc: Global, field: &FtField, text: &mut String) -> Result<(), AllocError>
    ensures { OnOk result (string_bytes text.new ≡ string_bytes text.old ++ lines.ft_lines (ft_seen field.now)) }
{
    if let FtField::Absent = field {
        return Ok(());
    }
    text.push(' ')?;
    put_ft(alloc, field, text)?;
    end_line(text)
}

/// Appends the line of a Request.
fn put_request_line(alloc: Global, request: &Request, text: &mut String) -> Result<(), AllocError>
    ensures { OnOk result (string_bytes text.new ≡ string_bytes text.old ++ lines.request_line request.now.request_id request.now.reply (addressed_by request.now.target) request.now.operation.now request.now.body.octets.now) }
{
    put_request(alloc, request, text)?;
    end_line(text)
}

/// Appends the lines of a Request.
fn put_request_lines(alloc: Global, request: Request, text: &mut String) -> Result<(), AllocError>
    ensures { OnOk result (string_bytes text.new ≡ string_bytes text.old ++ lines.content_lines (request_of request.entry)) }
{
    put_request_line(alloc, &request, text)?;
    let field = ft_request(&request.contexts);
    put_contexts(alloc, request.contexts, text)?;
    put_ft_line(alloc, &field, text)
}

/// Appends the line of a Reply.
fn put_reply_line(alloc: Global, reply: &Reply, text: &mut String) -> Result<(), AllocError>
    ensures { OnOk result (string_bytes text.new ≡ string_bytes text.old ++ lines.reply_line reply.now.request_id reply.now.status reply.now.body.octets.now) }
{
    let id = reply.request_id;
    write!(text, "Reply id {id}")?;
    put_reply_status(reply.status, text)?;
    put_body(alloc, &reply.body, text)?;
    end_line(text)
}

/// Appends the lines of a Reply.
fn put_reply_lines(alloc: Global, reply: Reply, text: &mut String) -> Result<(), AllocError>
    ensures { OnOk result (string_bytes text.new ≡ string_bytes text.old ++ lines.content_lines (reply_of reply.entry)) }
{
    put_reply_line(alloc, &reply, text)?;
    put_contexts(alloc, reply.contexts, text)
}

/// Appends the line of a CancelRequest.
fn put_cancel_line(id: u32, text: &mut String) -> Result<(), AllocError>
    ensures { OnOk result (string_bytes text.new ≡ string_bytes text.old ++ lines.cancel_line id) }
{
    write!(text, "CancelRequest id {id}\n")
}

/// Appends the line of a LocateRequest.
fn put_locate_request_line(
    alloc: Global,
    request: &LocateRequest,
    text: &mut String,
) -> Result<(), AllocError>
    ensures { OnOk result (string_bytes text.new ≡ string_bytes text.old ++ lines.locate_request_line request.now.request_id (addressed_by request.now.target)) }
{
    put_locate_request(alloc, request, text)?;
    end_line(text)
}

/// Appends the line of a LocateReply.
fn put_locate_reply_line(
    alloc: Global,
    reply: &LocateReply,
    text: &mut String,
) -> Result<(), AllocError>
    ensures { OnOk result (string_bytes text.new ≡ string_bytes text.old ++ lines.locate_reply_line reply.now.request_id reply.now.status reply.now.body.octets.now) }
{
    let id = reply.request_id;
    write!(text, "LocateReply id {id}")?;
    put_locate_status(reply.status, text)?;
    put_body(alloc, &reply.body, text)?;
    end_line(text)
}

/// Appends the lines of what a message says.
fn put_content(alloc: Global, content: Content, text: &mut String) -> Result<(), AllocError>
    ensures { OnOk result (string_bytes text.new ≡ string_bytes text.old ++ lines.content_lines (content_of content.entry)) }
{
    match content {
        Content::Request(request) => put_request_lines(alloc, request, text),
        Content::Reply(reply) => put_reply_lines(alloc, reply, text),
        Content::Cancel(cancel) => put_cancel_line(cancel.request_id, text),
        Content::LocateRequest(request) => put_locate_request_line(alloc, &request, text),
        Content::LocateReply(reply) => put_locate_reply_line(alloc, &reply, text),
        Content::Close => text.push_str("CloseConnection\n"),
        Content::Error => text.push_str("MessageError\n"),
        Content::Fragment(_) => text.push_str("Fragment\n"),
    }
}

/// Appends the lines that show a message: its version, its byte order, and what it says. Octets of
/// keys, contexts and bodies are shown as hexadecimal digits, texts as they are where they print.
pub fn put_message(alloc: Global, message: Message, text: &mut String) -> Result<(), AllocError>
    ensures { OnOk result (string_bytes text.new ≡ string_bytes text.old ++ lines.message_lines message.entry.version message.entry.order (content_of message.entry.content)) }
{
    let version = message.version;
    let order = message.order;
    write!(text, "{version} {order} ")?;
    put_content(alloc, message.content, text)
}
