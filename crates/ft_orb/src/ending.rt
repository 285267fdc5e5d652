//! Why nothing more is heard of a connection.

ghost use Rattle.std.specs.Prelude.{◌≡◌, ◌==◌, ℕ, if◌then◌else◌, false, None, Some};
ghost use Rattle.std.specs.BTreeMap.{get};
ghost use Rattle.std.specs.Ordering.{nat_cmp};

use giop_link::{LinkFault, ServerLink};
use std::collections::BTreeMap;

/// Why nothing more is heard of a connection, other than that its owner lost it.
#[derive(Clone, Copy, Debug, PartialEq, Eq)]
pub enum Ending {
    /// Its stream has a fault, or a message that only a server sends.
    Faulty(LinkFault),
    /// The peer has sent CloseConnection.
    PeerClosed,
    /// The peer has sent MessageError.
    PeerError,
    /// The owner closed it.
    Closed,
    /// The owner gave up a request that came on it.
    GivenUp,
    /// An allocation failed.
    Memory,
}

/// A connection that ended, and why.
#[derive(Clone, Copy)]
pub(crate) struct Ended {
    pub(crate) connection: u64,
    pub(crate) why: Ending,
}

impl Ended {
    ghost use Rattle.ft_orb.specs.Endings.{ending_of};
    ghost use Rattle.ft_orb.specs.declared.ending.Ending.TheVariants.{Closed};

    /// Why a connection ended, if it is the one that did last.
    pub(crate) fn of(last: Option<Ended>, connection: u64) -> Option<Ending>
        ensures { result ≡ ending_of last connection }
    {
        let last = last?;
        if last.connection == connection {
            Some(last.why)
        } else {
            None
        }
    }

    /// The connection that ended last, once the owner closes one, which had ended before or had not.
    pub(crate) fn closed(last: Option<Ended>, connection: u64, had_ended: bool) -> Option<Ended>
        ensures { result ≡ (if had_ended then last else Some (record { connection = connection; why = Closed })) }
    {
        if had_ended {
            return last;
        }
        let why = Ending::Closed;
        Some(Ended { connection, why })
    }
}

/// Forgets a connection, which is the one that ended last. A function of its own, since what is taken out is large: those that
/// seldom come here have no room for it.
#[inline(never)]
pub(crate) fn end_link(
    links: &mut BTreeMap<u64, ServerLink>,
    last: &mut Option<Ended>,
    connection: u64,
    why: Ending,
)
    ensures gone { get nat_cmp links.new connection ≡ None }
    ensures others { (q : ℕ) → (connection == q) ≡ false → get nat_cmp links.new q ≡ get nat_cmp links.old q }
    ensures last { last.new ≡ Some (record { connection = connection; why = why }) }
{
    links.remove(&connection);
    *last = Some(Ended { connection, why });
}
