//! Hear a client: count the requests that it makes of a server.

ghost use Rattle.std.specs.Prelude.{◌≡◌, IfOk, if◌then◌else◌, count_by};
ghost use Rattle.giop_link.specs.Hearing.{heard};
ghost use Rattle.giop_link.specs.Listening.{heard_in};
ghost use Rattle.uses.specs.Hearing.{is_request};

use giop_frames::Limits;
use giop_link::{Inbound, LinkFault, ServerLink};
use std::alloc::Global;

/// Whether a link lends a request.
fn lends_request(link: &ServerLink) -> bool
    ensures { count_by is_request (heard_in link.now.inbound) ≡ (if result then 1 else 0) }
{
    matches!(link.inbound(), Some(Inbound::Request(_, _)))
}

/// How many requests a server hears in the octets of a client, up to the end that the client makes, if it makes
/// one; or why the link is closed.
pub fn requests_heard(alloc: Global, limits: Limits, octets: &[u8]) -> Result<usize, LinkFault>
    ensures { IfOk result (λ n. n ≡ count_by is_request (heard limits octets.now)) }
{
    let mut link = ServerLink::new(alloc, limits);
    let mut requests = 0;
    let mut taken = 0;
    while taken < octets.len() {
        taken += link.feed(&octets[taken..])?;
        if lends_request(&link) {
            requests += 1;
        }
    }
    Ok(requests)
}
