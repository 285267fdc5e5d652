//! What a capture tells of a message beside its octets: packets, times and addresses.

ghost use Rattle.std.specs.Prelude.{◌≡◌};
ghost use Rattle.giop_lines.specs.Times as times;

use crate::printing::Endpoints;
use giop_tap::Sender;

/// The packet that octets came in.
#[derive(Clone, Copy)]
pub struct Stamp {
    /// Its number in the capture.
    pub frame: u64,
    /// When it came, in nanoseconds since 1970, where that is known.
    pub time: Option<u64>,
}

/// What a capture tells of a line.
#[derive(Clone, Copy)]
pub struct Caught<'t> {
    pub stamp: Stamp,
    /// The first time in the capture.
    pub beginning: Option<u64>,
    pub ends: Endpoints<'t>,
    /// How long after the request that it answers it came, in nanoseconds.
    pub latency: Option<u64>,
}

/// How long after one time another is. None: one of them is not known, or it lies before.
pub fn time_between(earlier: Option<u64>, later: Option<u64>) -> Option<u64>
    ensures { result ≡ times.between earlier later }
{
    later?.checked_sub(earlier?)
}

/// The later of two times, as far as they are known.
pub fn later_time(one: Option<u64>, other: Option<u64>) -> Option<u64>
    ensures { result ≡ times.later_of one other }
{
    match (one, other) {
        (Some(one), Some(other)) => Some(one.max(other)),
        (None, time) => time,
        (time, None) => time,
    }
}

impl Caught<'_> {
    /// How long after the beginning it came.
    pub fn since(&self) -> Option<u64> {
        time_between(self.beginning, self.stamp.time)
    }

    /// The addresses of the side that sent, and of the other.
    pub fn sent_between(&self, sender: Sender) -> (&[u8], &[u8]) {
        match sender {
            Sender::Opener => (self.ends.opener, self.ends.acceptor),
            Sender::Acceptor => (self.ends.acceptor, self.ends.opener),
        }
    }
}
