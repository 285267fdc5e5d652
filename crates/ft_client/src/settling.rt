//! How replies complete calls, or leave them pending.

ghost use Rattle.std.specs.Prelude.{◌≡◌, ◌≤◌, ◌+◌, IfOk, length, map, position, vec_len};
ghost use Rattle.std.specs.Option.{option_map};
ghost use Rattle.std.specs.VecDeque.{deque_capacity, deque_len};
ghost use Rattle.giop_core.specs.Lent.{rest_of};
ghost use Rattle.giop_core.specs.Statuses.{reply_status_of};
ghost use Rattle.giop_frames.specs.Standing.{HasPlace};
ghost use Rattle.giop_link.specs.ClientLinking.{IsNearBody, delivered_at};
ghost use Rattle.ft_client.specs.Clients.{Client, asks_again, completed_if, is_sent_as, is_transient, put_off, waiting};
ghost use Rattle.ft_client.specs.Ends.{body_of, ended_of};
ghost use Rattle.ft_client.specs.Keeping.{kept_by, kept_of};
ghost use Rattle.ft_client.specs.Private.{CallsStand, left_as, left_in, plain_end, reply_as, reply_in};

use crate::ended::{Ended, ReplyBody};
use crate::ending::complete;
use crate::pending::Pending;
use crate::sending::leave;
use cdr_core::Cursor;
use giop_core::{Body, ReplyStatus};
use giop_link::Delivery;
use std::alloc::{AllocError, Global};
use std::collections::VecDeque;

/// The repository id of the system exception that asks for another try (CORBA 3.3 Part 1, A.3).
const TRANSIENT: &[u8] = b"IDL:omg.org/CORBA/TRANSIENT:1.0";

/// How many completion statuses there are: COMPLETED_YES, COMPLETED_NO and COMPLETED_MAYBE (GIOP 9.4.3.2).
const COMPLETIONS: u32 = 3;

const COMPLETED_YES: u32 = 0;

/// The place of the call that was sent under a request id.
fn place_sent(pending: &[Pending], request_id: u32) -> Option<usize>
    ensures { result ≡ position (λ p. is_sent_as request_id p.sent) pending.now }
{
    pending.iter().position(|one| one.sent == Some(request_id))
}

/// A copy of a body that a link lends.
fn copied(alloc: Global, body: &Body<'_>) -> Result<ReplyBody, AllocError>
    requires { HasPlace (rest_of body.now) }
    ensures { IfOk result (λ b. body_of b ≡ rest_of body.now) }
{
    Ok(ReplyBody {
        order: body.order,
        at: body.at,
        octets: Vec::from_slice(alloc, body.octets)?,
    })
}

/// How a reply that neither forwards nor asks for another addressing ends its call: by its status
/// (GIOP 9.4.3).
fn plain_end(status: u32, body: ReplyBody) -> Ended
    ensures { ended_of result ≡ plain_end (reply_status_of status) (body_of body) }
{
    match ReplyStatus::from_number(status) {
        Some(ReplyStatus::NoException) => Ended::Returned(body),
        Some(ReplyStatus::UserException) => Ended::Raised(body),
        _ => Ended::System(body),
    }
}

/// The request id that a delivery answers, and how it ends its call: None where it is no reply to a request. Its body
/// is copied.
pub(crate) fn reply_in(
    alloc: Global,
    delivery: &Delivery<'_>,
) -> Result<Option<(u32, Ended)>, AllocError>
    requires { IsNearBody delivery.now }
    ensures { IfOk result (λ r. option_map reply_as r ≡ reply_in (delivered_at delivery.now)) }
{
    Ok(match delivery {
        Delivery::Reply(id, status, body) => Some((*id, plain_end(*status, copied(alloc, body)?))),
        Delivery::Forward(id, body) => Some((*id, Ended::Forwarded(copied(alloc, body)?))),
        Delivery::NeedsAddressing(id) => Some((*id, Ended::NeedsAddressing)),
        Delivery::Located(_, _, _) | Delivery::Closed | Delivery::PeerError => None,
    })
}

/// Whether a body is that of TRANSIENT, of an operation that was not completed or may have been (GIOP 9.4.3.2).
fn is_transient(body: &Body<'_>) -> bool
    requires { HasPlace (rest_of body.now) }
    ensures { result ≡ is_transient (rest_of body.now) }
{
    let mut cursor = Cursor::new(body.octets, body.order, body.at);
    let Ok(id) = cursor.string() else {
        return false;
    };
    if id != TRANSIENT || cursor.ulong().is_err() {
        return false;
    }
    match cursor.ordinal(COMPLETIONS) {
        Ok(completion) => completion != COMPLETED_YES,
        Err(_) => false,
    }
}

/// Whether a reply of this status asks for another try (GIOP 9.4.3.2).
fn asks_again(status: u32, body: &Body<'_>) -> bool
    requires { HasPlace (rest_of body.now) }
    ensures { result ≡ asks_again (reply_status_of status) (rest_of body.now) }
{
    match ReplyStatus::from_number(status) {
        Some(ReplyStatus::SystemException) => is_transient(body),
        _ => false,
    }
}

/// The request id of a reply that leaves its call pending, if a delivery is one, and the reference to which that is led, if it
/// is led elsewhere: one that asks for another try, where that is kept to, and one that forwards, where that is. The reference is
/// copied.
pub(crate) fn left_in(
    alloc: Global,
    keeps: bool,
    leads: bool,
    delivery: &Delivery<'_>,
) -> Result<Option<(u32, Option<ReplyBody>)>, AllocError>
    requires { IsNearBody delivery.now }
    ensures { IfOk result (λ r. option_map left_as r ≡ left_in keeps leads (delivered_at delivery.now)) }
{
    match delivery {
        Delivery::Reply(id, status, body) => {
            if keeps && asks_again(*status, body) {
                return Ok(Some((*id, None)));
            }
            Ok(None)
        }
        Delivery::Forward(id, body) => {
            if leads {
                return Ok(Some((*id, Some(copied(alloc, body)?))));
            }
            Ok(None)
        }
        _ => Ok(None),
    }
}

/// The call that was sent under a request id is no longer sent on the present link, and pending still: led elsewhere, to a
/// reference, or not. Where there is none nothing changes.
pub(crate) fn put_off(pending: &mut [Pending], request_id: u32, led: Option<ReplyBody>)
    ensures kept { (m : Client) → map kept_by pending.old ≡ map (kept_of m.version m.client_id) m.pending
        → map kept_by pending.new ≡ map (kept_of m.version m.client_id) (put_off request_id (option_map body_of led) m.pending) }
    ensures len { length pending.new ≡ length pending.old }
{
    if let Some(place) = place_sent(pending, request_id) {
        leave(pending, place, led);
    }
}

/// The call that was sent under a request id has ended so. Where there is none nothing changes. There is room for its
/// completion.
pub(crate) fn settle(
    pending: &mut Vec<Pending>,
    completions: &mut VecDeque<(i32, Ended)>,
    request_id: u32,
    ended: Ended,
)
    requires { deque_len completions.old + vec_len pending.old ≤ deque_capacity completions.old }
    ensures stands { (m : Client) → CallsStand pending.old.items completions.old.items m → CallsStand pending.new.items completions.new.items (completed_if (waiting request_id m.pending) (ended_of ended) m) }
    ensures room { deque_len completions.new + vec_len pending.new ≤ deque_capacity completions.new }
    ensures few { vec_len pending.new ≤ vec_len pending.old }
{
    if let Some(place) = place_sent(pending.as_slice(), request_id) {
        complete(pending, completions, place, ended);
    }
}
