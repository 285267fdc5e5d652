//! The clock of the system, in the units of a request's expiration.

ghost use Rattle.std.specs.Prelude.{◌≡◌, ◌≤◌, ◌^◌, MatchOption};
ghost use Rattle.std.specs.Duration.{as_nanos};
ghost use Rattle.ft_tcp.specs.Moments.{moment_at};

use ft_orb::Clock;
use giop_core::UNIX_EPOCH;
use std::rt;
use std::time::{Duration, SystemTime};

/// How many units of 100 ns a second has.
const UNITS: u64 = 10_000_000;

/// The moment so long after 1 January 1970, in whole units of 100 ns since 15 October 1582. None where that is no
/// unsigned long long.
fn moment_at(since_1970: Duration) -> Option<u64>
    ensures { MatchOption result (2 ^ 64 ≤ moment_at (as_nanos since_1970)) (λ moment. moment ≡ moment_at (as_nanos since_1970)) }
{
    let seconds = since_1970.as_secs().checked_mul(UNITS)?;
    let units = seconds.checked_add(u64::from(since_1970.subsec_nanos() / 100))?;
    units.checked_add(UNIX_EPOCH)
}

/// The moment that the system's clock shows. None where it can't be read or stands before 1970.
fn moment_on<R: rt::Clock>(rt: &R) -> Option<u64> {
    let now = SystemTime::now(rt).ok()?;
    let since_1970 = now.duration_since(SystemTime::UNIX_EPOCH).ok()?;
    moment_at(since_1970)
}

/// The clock of the system. Where it shows no moment, the moment given last is given again, and at first that of
/// 1 January 1970.
#[derive(Drop)]
pub struct SystemClock<'r, R> {
    rt: &'r R,
    given: u64,
}

impl<'r, R: rt::Clock> SystemClock<'r, R> {
    /// The clock of this runtime.
    pub fn new(rt: &'r R) -> SystemClock<'r, R>
        ensures { result.given ≡ UNIX_EPOCH }
    {
        SystemClock {
            rt,
            given: UNIX_EPOCH,
        }
    }
}

impl<'r, R: rt::Clock> Clock for SystemClock<'r, R> {
    ghost use Rattle.std.specs.Prelude.{None};

    ghost given = { λ _. None };

    fn now(&mut self) -> u64 {
        if let Some(moment) = moment_on(self.rt) {
            self.given = moment;
        }
        self.given
    }
}
