//! Forward a call: the request that asks another server for it, and what its reply reports.

ghost use Rattle.std.specs.Prelude.{◌≡◌, Some, IfErr, IfOk, OnOk, map, option_map};
ghost use Rattle.cdr_core.specs.Parts.{octet_value};
ghost use Rattle.cdr_core.specs.View.{value_of, values_of};
ghost use Rattle.giop_core.specs.Content.{Rest};
ghost use Rattle.giop_core.specs.Lent.{content_of, rest_of};
ghost use Rattle.ft_log.specs.View.{performed_in};
ghost use Rattle.ft_objects.specs.Interfaces.{raw_arguments};
ghost use Rattle.uses.specs.Forwarding.{CanBeForwarded, can_stand, completion_of, first_said, forwarded_octets, kept_status, outcome_of, told_by, untold};
ghost use Rattle.uses.specs.declared.forwarding.ForwardError.TheVariants.{Memory, Unfit};

use cdr_core::{Order, Val, has_no_nul};
use ft_log::{Completion, Outcome, RawStatus, SystemName};
use ft_objects::{boolean_at, octets_at, ulong_at};
use giop_core::{Body, Content, Message, ReplyWish, Target, Version, WriteError, write_request};
use giop_frames::{Assembler, Limits, StreamFault};
use std::alloc::{AllocError, Global};
use thiserror::Error;

/// Why a call is not forwarded.
#[derive(Clone, Copy, Debug, PartialEq, Eq, Error)]
pub enum ForwardError {
    /// It can't be sent as it came: its body has octets at a place that is not divisible by 8, its operation has a NUL, or
    /// it is too long.
    #[error("unfit")]
    Unfit,
    /// An allocation failed.
    #[error("memory")]
    Memory,
}

/// An allocation failed.
impl From<AllocError> for ForwardError {
    ghost from_gives = { λ e f. f ≡ Memory };

    fn from(_: AllocError) -> ForwardError {
        ForwardError::Memory
    }
}

/// The body of the request that a raw call came in, by its arguments.
pub(crate) fn body_of(arguments: &[Val]) -> Option<Body<'_>>
    ensures { (body : Rest) → values_of arguments.now ≡ raw_arguments body → option_map rest_of result ≡ Some body }
{
    let octets = octets_at(arguments, 0)?;
    let order = if boolean_at(arguments, 1)? {
        Order::Little
    } else {
        Order::Big
    };
    let at = u64::from(ulong_at(arguments, 2)?);
    Some(Body { order, at, octets })
}

/// Whether a body can stand at a place divisible by 8 as it came (CDR 9.3.1).
fn can_stand(body: &Body<'_>) -> bool
    ensures { result ≡ can_stand (rest_of body.now) }
{
    body.octets.is_empty() || body.at % 8 == 0
}

/// Octets as values, one after another.
fn octet_values(alloc: Global, octets: &[u8]) -> Result<Vec<Val>, AllocError>
    ensures { IfOk result (λ values. map value_of values.items ≡ map octet_value octets.now) }
{
    let mut values = Vec::with_capacity(alloc, octets.len())?;
    for octet in octets {
        values.push(Val::Octet(*octet))?;
    }
    Ok(values)
}

/// The Request of 1.2 that asks another server for a call, under an id of the caller's own and without service
/// contexts: its body as it came, in its byte order.
pub fn forward_request(
    alloc: Global,
    request_id: u32,
    object_key: &[u8],
    operation: &[u8],
    body: &Body<'_>,
) -> Result<Vec<u8>, ForwardError>
    ensures ok { IfOk result (λ message. message.items ≡ forwarded_octets request_id object_key.now operation.now (rest_of body.now)) }
    ensures fit { OnOk result (CanBeForwarded request_id object_key.now operation.now (rest_of body.now)) }
    ensures why { IfErr result (λ e. e ≡ Unfit → CanBeForwarded request_id object_key.now operation.now (rest_of body.now) → ⊥) }
{
    giop_core::laws::octets_bodies();
    if !can_stand(body) || u32::try_from(body.octets.len()).is_err() || !has_no_nul(operation) {
        return Err(ForwardError::Unfit);
    }
    let octets = Val::Array(octet_values(alloc, body.octets)?);
    let mut message = Vec::new(alloc);
    match write_request(
        Version::V12,
        body.order,
        request_id,
        ReplyWish::Full,
        &Target::Key(object_key),
        operation,
        &[],
        &[octets],
        &mut message,
    ) {
        Ok(()) => Ok(message),
        Err(WriteError::TooLong) => Err(ForwardError::Unfit),
        Err(WriteError::Memory) => Err(ForwardError::Memory),
    }
}

/// The status with which an outcome keeps the octets of a reply.
fn kept_status(number: u32) -> Option<RawStatus>
    ensures { result ≡ kept_status number }
{
    match number {
        0 => Some(RawStatus::NoException),
        1 => Some(RawStatus::UserException),
        2 => Some(RawStatus::SystemException),
        3 => Some(RawStatus::LocationForward),
        _ => None,
    }
}

/// Whether the operation was completed that a reply of the status answers.
fn completion_of(status: RawStatus) -> Completion
    ensures { result ≡ completion_of status }
{
    match status {
        RawStatus::NoException | RawStatus::UserException => Completion::Yes,
        RawStatus::SystemException => Completion::Maybe,
        RawStatus::LocationForward => Completion::No,
    }
}

/// The outcome of a reply: its octets with their status and order, or IMP_LIMIT where an outcome can't keep them.
fn outcome_of(alloc: Global, status: u32, body: &Body<'_>) -> Result<Outcome, AllocError>
    ensures { IfOk result (λ outcome. performed_in outcome ≡ outcome_of (kept_status status) (rest_of body.now)) }
{
    let Some(status) = kept_status(status) else {
        return Ok(Outcome::System(SystemName::ImpLimit, 0, Completion::No));
    };
    if !can_stand(body) {
        let completion = completion_of(status);
        return Ok(Outcome::System(SystemName::ImpLimit, 0, completion));
    }
    let octets = Vec::from_slice(alloc, body.octets)?;
    Ok(Outcome::Raw(status, body.order, octets))
}

/// The outcome of a request of which nobody can tell what came of it: it may have been performed.
pub(crate) fn untold() -> Outcome
    ensures { performed_in result ≡ untold }
{
    Outcome::System(SystemName::Unknown, 0, Completion::Maybe)
}

/// What is answered for the request of an id, by what the server behind said first, if it said anything.
fn told_by(
    alloc: Global,
    request_id: u32,
    said: Option<Message<'_>>,
) -> Result<Option<Outcome>, AllocError>
    ensures { IfOk result (λ told. option_map performed_in told ≡ told_by request_id (option_map (λ m. content_of m.content) said.entry)) }
{
    let Some(message) = said else {
        return Ok(Some(untold()));
    };
    match message.content {
        Content::Reply(reply) => {
            if reply.request_id != request_id {
                return Ok(Some(untold()));
            }
            Ok(Some(outcome_of(alloc, reply.status, &reply.body)?))
        }
        Content::Close => Ok(None),
        _ => Ok(Some(untold())),
    }
}

/// What is answered for the request of an id, by the octets that the server behind wrote for it, up to its reply or
/// to the loss of its connection: the outcome of the reply; UNKNOWN, COMPLETED_MAYBE where there is none; and
/// nothing where the server closed the connection and so did not begin (GIOP 9.4.7).
pub fn read_reply(
    alloc: Global,
    limits: Limits,
    request_id: u32,
    octets: &[u8],
) -> Result<Option<Outcome>, AllocError>
    ensures { IfOk result (λ told. option_map performed_in told ≡ told_by request_id (first_said limits octets.now)) }
{
    giop_frames::laws::streams_grow();
    let mut assembler = Assembler::new(alloc, limits);
    match assembler.feed(octets) {
        Ok(_) => told_by(alloc, request_id, assembler.message()),
        Err(fault) => match fault {
            StreamFault::Memory => Err(AllocError),
            _ => Ok(Some(untold())),
        },
    }
}
