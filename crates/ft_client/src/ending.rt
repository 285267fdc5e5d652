//! The pending calls of a client, and how they end.

ghost use Rattle.std.specs.Prelude.{◌≡◌, ◌<◌, ◌≤◌, ◌+◌, ◌++◌, ℕ, [], ◌∷◌, Some, None, true, is_some, OnErr, OnOk, if◌then◌else◌, position, remove, slice_get, vec_len};
ghost use Rattle.std.specs.Ordering.{int_eq};
ghost use Rattle.std.specs.VecDeque.{deque_capacity, deque_len};
ghost use Rattle.giop_link.specs.ClientLinking.{ClientLinked, cancel_octets};
ghost use Rattle.giop_link.specs.Ids.{given_up, is_outstanding};
ghost use Rattle.ft_client.specs.declared.pending.Pending as pend;
ghost use Rattle.ft_client.specs.Clients.{Client, sent_off};
ghost use Rattle.ft_client.specs.Private.{CallsStand};

use crate::ended::Ended;
use crate::pending::Pending;
use giop_link::ClientLink;
use std::alloc::AllocError;
use std::collections::VecDeque;

/// The place of the call of a number.
pub(crate) fn place_of(pending: &[Pending], id: i32) -> Option<usize>
    ensures { result ≡ position (λ p. int_eq p.id id) pending.now }
{
    pending.iter().position(|one| one.id == id)
}

/// The place of the first call that is led elsewhere.
pub(crate) fn place_led(pending: &[Pending]) -> Option<usize>
    ensures { result ≡ position (λ p. is_some p.led) pending.now }
{
    pending.iter().position(|one| one.led.is_some())
}

/// Withdraws the request of a call that was sent on the present link, if it was.
pub(crate) fn withdraw(
    link: &mut Option<ClientLink>,
    sent: Option<u32>,
    out: &mut Vec<u8>,
) -> Result<(), AllocError>
    ensures unsent { sent ≡ None → (link.new ≡ link.old) × (out.new.items ≡ out.old.items) }
    ensures unlinked { link.old ≡ None → (link.new ≡ None) × (out.new.items ≡ out.old.items) }
    ensures sent { OnOk result ((l : ClientLinked) (r : ℕ) → link.old ≡ Some l → sent ≡ Some r
        → (link.new ≡ Some (record l { ids = given_up r l.ids })) × (out.new.items ≡ out.old.items ++ (if is_outstanding r l.ids.outstanding then cancel_octets l.terms.version r else []))) }
    ensures same { OnErr result ((link.new ≡ link.old) × (out.new.items ≡ out.old.items)) }
    ensures needed { OnErr result (is_some sent ≡ true) }
{
    let Some(link) = link else {
        return Ok(());
    };
    let Some(request_id) = sent else {
        return Ok(());
    };
    link.cancel(request_id, out)?;
    Ok(())
}

/// Gives up the request of a call that was sent on the present link, if it was, and writes nothing.
pub(crate) fn give_up(link: &mut Option<ClientLink>, sent: Option<u32>)
    ensures unsent { sent ≡ None → link.new ≡ link.old }
    ensures unlinked { link.old ≡ None → link.new ≡ None }
    ensures sent { (l : ClientLinked) (r : ℕ) → link.old ≡ Some l → sent ≡ Some r → link.new ≡ Some (record l { ids = given_up r l.ids }) }
{
    let Some(link) = link else {
        return;
    };
    let Some(request_id) = sent else {
        return;
    };
    link.abandon(request_id);
}

/// The call at a place has ended so. There is room for its completion.
pub(crate) fn complete(
    pending: &mut Vec<Pending>,
    completions: &mut VecDeque<(i32, Ended)>,
    place: usize,
    ended: Ended,
)
    requires place { place < vec_len pending.old }
    requires room { deque_len completions.old < deque_capacity completions.old }
    ensures pending { pending.new.items ≡ remove pending.old.items place }
    ensures len { vec_len pending.new + 1 ≡ vec_len pending.old }
    ensures ended { (p : pend.Pending) → slice_get pending.old.items place ≡ Some p → completions.new.items ≡ completions.old.items ++ (p.id, ended) ∷ [] }
    ensures more { deque_len completions.new ≡ deque_len completions.old + 1 }
    ensures capacity { deque_capacity completions.new ≡ deque_capacity completions.old }
{
    let call = pending.remove(place);
    completions.push_back_reserved((call.id, ended));
}

/// Each call that was sent and wishes for no reply has ended, in the order of the numbers. There is room for their
/// completions.
pub(crate) fn end_sent(pending: &mut Vec<Pending>, completions: &mut VecDeque<(i32, Ended)>)
    requires { deque_len completions.old + vec_len pending.old ≤ deque_capacity completions.old }
    ensures stands { (m : Client) → CallsStand pending.old.items completions.old.items m → CallsStand pending.new.items completions.new.items (sent_off m) }
    ensures room { deque_len completions.new + vec_len pending.new ≤ deque_capacity completions.new }
    ensures few { vec_len pending.new ≤ vec_len pending.old }
{
    let mut place = 0;
    while place < pending.len() {
        if pending[place].is_oneway() && pending[place].sent.is_some() {
            complete(pending, completions, place, Ended::Sent);
        } else {
            place += 1;
        }
    }
}
