//! Which pending calls were sent on the present link, and how the others are sent on it.

ghost use Rattle.std.specs.Prelude.{◌≡◌, ◌≢◌, ◌≤◌, ◌<◌, ◌+◌, ◌++◌, [], ℕ, List, true, length, map, slice_set, take, vec_len, IfOk, IfErr, OnOk, OnErr};
ghost use Rattle.ft_client.specs.Keeping.{ids_after_sending, ids_awaited, is_due, kept_by, left_at, marked, octets_again, sent_again, unmarked};
ghost use Rattle.std.specs.Option.{option_map};
ghost use Rattle.ft_client.specs.Ends.{body_of};
ghost use Rattle.ft_client.specs.Private.{IsSentOn};
ghost use Rattle.ft_client.specs.Standing.{waiting_ids};

use crate::ended::ReplyBody;
use crate::pending::Pending;
use crate::requests::transmit;
use giop_link::ClientLink;
use std::alloc::AllocError;

/// Notes under which request id the call at a place was sent on the present link, if it was.
pub(crate) fn mark(pending: &mut [Pending], place: usize, sent: Option<u32>)
    requires { place < length pending.old }
    ensures { map kept_by pending.new ≡ marked place sent (map kept_by pending.old) }
{
    pending[place].sent = sent;
}

/// Notes that the call at a place is not sent on the present link, and the reference to which it is led, if it is led elsewhere.
pub(crate) fn leave(pending: &mut [Pending], place: usize, led: Option<ReplyBody>)
    requires { place < length pending.old }
    ensures { map kept_by pending.new ≡ left_at place (option_map body_of led) (map kept_by pending.old) }
{
    let one = &mut pending[place];
    one.sent = None;
    one.led = led;
}

/// A call in place of the one at a place.
pub(crate) fn put_for(pending: &mut [Pending], place: usize, call: Pending)
    requires { place < length pending.old }
    ensures kept { map kept_by pending.new ≡ slice_set (map kept_by pending.old) place (kept_by call) }
    ensures len { length pending.new ≡ length pending.old }
{
    pending[place] = call;
}

/// Notes that no call was sent on the present link.
pub(crate) fn forget_sent(pending: &mut [Pending])
    ensures kept { map kept_by pending.new ≡ unmarked (map kept_by pending.old) }
    ensures len { length pending.new ≡ length pending.old }
{
    for place in 0..pending.len() {
        mark(pending, place, None);
    }
}

/// Sends a kept call on a link where it is due, and returns the request id under which it was sent on it, now or before, if it
/// was. Where an allocation fails nothing is appended.
fn send_one(
    link: &mut ClientLink,
    call: &Pending,
    now: u64,
    out: &mut Vec<u8>,
) -> Result<Option<u32>, AllocError>
    ensures ok { IfOk result (λ sent. IsSentOn now (kept_by call.now) link.old link.new sent out.old.items out.new.items) }
    ensures err { OnErr result (out.new.items ≡ out.old.items) }
    ensures due { OnErr result (is_due now link.old.ids.given (kept_by call.now) ≡ true) }
{
    if !call.is_due(now, link.given()) {
        return Ok(call.sent);
    }
    Ok(Some(transmit(link, call, out)?))
}

/// Sends each pending call that is due on a link, in order.
pub(crate) fn send_again(
    link: &mut ClientLink,
    pending: &mut [Pending],
    now: u64,
    out: &mut Vec<u8>,
) -> Result<(), AllocError>
    ensures pending { OnOk result (map kept_by pending.new ≡ sent_again now link.old.ids.given (map kept_by pending.old)) }
    ensures out { OnOk result (out.new.items ≡ out.old.items ++ octets_again now link.old.ids.given (map kept_by pending.old)) }
    ensures link { OnOk result ((is : List ℕ) → link.old.ids ≡ waiting_ids link.old.ids.given is
        → link.new ≡ record link.old { ids = waiting_ids (ids_after_sending now link.old.ids.given (map kept_by pending.old)) (is ++ ids_awaited now link.old.ids.given (map kept_by pending.old)) }) }
    ensures needed { OnErr result (octets_again now link.old.ids.given (map kept_by pending.old) ≢ []) }
    ensures front { take (length out.old.items) out.new.items ≡ out.old.items }
    ensures kept { unmarked (map kept_by pending.new) ≡ unmarked (map kept_by pending.old) }
    ensures len { length pending.new ≡ length pending.old }
{
    for place in 0..pending.len() {
        let sent = send_one(link, &pending[place], now, out)?;
        mark(pending, place, sent);
    }
    Ok(())
}
