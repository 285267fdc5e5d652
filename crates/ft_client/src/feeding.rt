//! What a client does with the octets that come on its link.

ghost use Rattle.std.specs.Prelude.{◌≡◌, ◌≢◌, ◌<◌, ◌≤◌, ◌+◌, ℕ, Some, true, IfOk, OnErr, OnOk, is_some, length, take, vec_len};
ghost use Rattle.std.specs.VecDeque.{deque_capacity, deque_len};
ghost use Rattle.giop_frames.specs.declared.fault.StreamFault.TheVariants.{Memory};
ghost use Rattle.giop_link.specs.ClientLinking.{delivered_at, end_in};
ghost use Rattle.giop_link.specs.declared.error.LinkFault.TheVariants.{Stream};
ghost use Rattle.ft_client.specs.Clients.{Client, Linked, told_of};
ghost use Rattle.ft_client.specs.Private.{CallsStand, IsFedTo, taken_in};
ghost use Rattle.ft_client.specs.Standing.{IsLinked, down};

use crate::ended::Ended;
use crate::pending::Pending;
use crate::settling::{left_in, put_off, reply_in, settle};
use giop_link::{ClientLink, Delivery, LinkFault};
use std::alloc::{AllocError, Global};
use std::collections::VecDeque;

/// Whether a delivery is the end that the peer made.
fn is_end(delivery: &Delivery<'_>) -> bool
    ensures { result ≡ is_some (end_in (Some (delivered_at delivery.now))) }
{
    matches!(delivery, Delivery::Closed | Delivery::PeerError)
}

/// What a fault of its link is to a client: that an allocation failed, or else that the link has ended.
fn ended_by(fault: LinkFault) -> Result<bool, AllocError>
    ensures ok { IfOk result (λ ended. (ended ≡ true) × (fault ≢ Stream Memory)) }
    ensures err { OnErr result (fault ≡ Stream Memory) }
{
    if fault.is_memory() {
        return Err(AllocError);
    }
    Ok(true)
}

/// Completes the call whose reply a link lends, if it lends one, or leaves it pending. True: it lends the end that the peer
/// made. Where an allocation fails nothing changes.
fn take_in(
    alloc: Global,
    link: &ClientLink,
    keeps: bool,
    leads: bool,
    pending: &mut Vec<Pending>,
    completions: &mut VecDeque<(i32, Ended)>,
) -> Result<bool, AllocError>
    requires { deque_len completions.old + vec_len pending.old ≤ deque_capacity completions.old }
    ensures end { IfOk result (λ end. end ≡ is_some (end_in link.now.delivery)) }
    ensures stands { OnOk result ((m : Client) → m.keeps_transient ≡ keeps → m.keeps_forwards ≡ leads → CallsStand pending.old.items completions.old.items m → CallsStand pending.new.items completions.new.items (taken_in link.now.delivery m)) }
    ensures same { OnErr result ((pending.new.items ≡ pending.old.items) × (completions.new.items ≡ completions.old.items)) }
    ensures room { deque_len completions.new + vec_len pending.new ≤ deque_capacity completions.new }
    ensures few { vec_len pending.new ≤ vec_len pending.old }
{
    let Some(delivery) = link.delivery() else {
        return Ok(false);
    };
    if let Some((request_id, led)) = left_in(alloc, keeps, leads, &delivery)? {
        put_off(pending, request_id, led);
    } else if let Some((request_id, ended)) = reply_in(alloc, &delivery)? {
        settle(pending, completions, request_id, ended);
    }
    Ok(is_end(&delivery))
}

/// Feeds octets to a link that goes on, and completes each call whose reply they bring, or leaves it pending. True: the link
/// has ended with them. Where an allocation fails some of them were fed, and not all.
pub(crate) fn feed_on(
    alloc: Global,
    link: &mut ClientLink,
    keeps: bool,
    leads: bool,
    pending: &mut Vec<Pending>,
    completions: &mut VecDeque<(i32, Ended)>,
    piece: &[u8],
) -> Result<bool, AllocError>
    requires { deque_len completions.old + vec_len pending.old ≤ deque_capacity completions.old }
    ensures stands { IfOk result (λ ended. (m : Client) (l : Linked) → m.keeps_transient ≡ keeps → m.keeps_forwards ≡ leads → CallsStand pending.old.items completions.old.items m → IsLinked link.old m l
        → IsFedTo m l piece.now ended pending.new.items completions.new.items link.new) }
    ensures err { OnErr result ((m : Client) (l : Linked) → m.keeps_transient ≡ keeps → m.keeps_forwards ≡ leads → CallsStand pending.old.items completions.old.items m → IsLinked link.old m l
        → (n : ℕ) × (n < length piece.now) × CallsStand pending.new.items completions.new.items (told_of (down m.limits) (take n piece.now) m (Some l))) }
    ensures room { deque_len completions.new + vec_len pending.new ≤ deque_capacity completions.new }
    ensures few { vec_len pending.new ≤ vec_len pending.old }
{
    giop_link::laws::streams_are_heard::<giop_link::Client>();
    let mut taken = 0;
    while taken < piece.len() {
        let (_, left) = piece.split_at(taken);
        let n = match link.feed(left) {
            Ok(n) => n,
            Err(fault) => return ended_by(fault),
        };
        if take_in(alloc, link, keeps, leads, pending, completions)? {
            return Ok(true);
        }
        taken += n;
    }
    Ok(false)
}
