//! Moments of FT_REQUEST, and those of packets, as times of UTC.

use giop_core::UNIX_EPOCH;
use jiff::Timestamp;

/// The time of a moment. None: it lies after the year 9999.
pub(crate) fn time_of(moment: u64) -> Option<Timestamp> {
    let since = i128::from(moment) - i128::from(UNIX_EPOCH);
    Timestamp::from_nanosecond(since * 100).ok()
}

/// The time of a moment in nanoseconds since 1970. None: it lies after the year 9999.
pub(crate) fn moment_of(nanoseconds: u64) -> Option<Timestamp> {
    Timestamp::from_nanosecond(i128::from(nanoseconds)).ok()
}
