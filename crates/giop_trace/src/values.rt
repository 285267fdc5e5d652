//! What a table of types tells of messages.

use crate::asked::Request;
use giop_core::{Content, Reply, ReplyStatus};
use giop_lines::Format;
use giop_text::exception_id;
use giop_types::{Fit, Style, Table, Told};
use std::alloc::{AllocError, Global};

/// What is printed of the values in a message's body.
#[derive(Drop)]
pub(crate) struct Values {
    /// None: there are no types for it.
    pub text: Option<String>,
    /// How many operations of its name a request is not of.
    pub others: usize,
}

/// The style of values in lines of a form.
fn style_of(format: Format) -> Style {
    match format {
        Format::Lines => Style::Words,
        Format::Json => Style::Json,
    }
}

/// What is printed where types do not fit.
fn unfit(alloc: Global, style: Style) -> Result<Option<String>, AllocError> {
    let text = match style {
        Style::Words => "types do not fit",
        Style::Json => "null",
    };
    Ok(Some(String::from_str(alloc, text)?))
}

/// What is printed of a request's arguments.
fn arguments_in(
    alloc: Global,
    types: &Table,
    style: Style,
    request: &giop_core::Request,
) -> Result<Values, AllocError> {
    match types.arguments(request.operation, &request.body)? {
        Told::Unknown => Ok(Values {
            text: None,
            others: 0,
        }),
        Told::Unfit => Ok(Values {
            text: unfit(alloc, style)?,
            others: 0,
        }),
        Told::Fits(fit) => call_of(alloc, style, request.operation, &fit),
    }
}

/// What is printed of arguments that fit.
fn call_of(alloc: Global, style: Style, operation: &[u8], fit: &Fit) -> Result<Values, AllocError> {
    let text = fit.call_text(alloc, style, operation)?;
    Ok(Values {
        text: Some(text),
        others: fit.place,
    })
}

/// What is printed of the results of a reply to a request.
fn results_in(
    alloc: Global,
    types: &Table,
    style: Style,
    reply: &Reply,
    request: Option<&Request>,
) -> Result<Option<String>, AllocError> {
    let Some(request) = request else {
        return Ok(None);
    };
    let Some(operation) = request.operation() else {
        return Ok(None);
    };
    match types.results(operation, request.others(), &reply.body)? {
        Told::Unknown => Ok(None),
        Told::Unfit => unfit(alloc, style),
        Told::Fits(fit) => Ok(Some(fit.results_text(alloc, style)?)),
    }
}

/// What is printed of a user exception.
fn exception_in(
    alloc: Global,
    types: &Table,
    style: Style,
    reply: &Reply,
) -> Result<Option<String>, AllocError> {
    let Some(id) = exception_id(&reply.body) else {
        return Ok(None);
    };
    match types.raised(id, &reply.body)? {
        Told::Unknown => Ok(None),
        Told::Unfit => unfit(alloc, style),
        Told::Fits(fit) => Ok(Some(fit.raised_text(alloc, style, id)?)),
    }
}

/// What is printed of what a reply to a request has.
fn outcome_in(
    alloc: Global,
    types: &Table,
    style: Style,
    reply: &Reply,
    request: Option<&Request>,
) -> Result<Option<String>, AllocError> {
    match ReplyStatus::from_number(reply.status) {
        Some(ReplyStatus::NoException) => results_in(alloc, types, style, reply, request),
        Some(ReplyStatus::UserException) => exception_in(alloc, types, style, reply),
        _ => Ok(None),
    }
}

/// What is printed of the values in a message's body, which answers this request, if it answers one.
pub(crate) fn values_in(
    alloc: Global,
    types: &Table,
    format: Format,
    content: &Content,
    request: Option<&Request>,
) -> Result<Values, AllocError> {
    let style = style_of(format);
    match content {
        Content::Request(request) => arguments_in(alloc, types, style, request),
        Content::Reply(reply) => Ok(Values {
            text: outcome_in(alloc, types, style, reply, request)?,
            others: 0,
        }),
        _ => Ok(Values {
            text: None,
            others: 0,
        }),
    }
}
