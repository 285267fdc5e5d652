//! Limits by their numbers.

use giop_frames::{Cuts, Limits};
use std::process::Abort;

/// How many octets a message may have, how many messages may be partial, and whether both numbers lie in
/// their ranges.
static ROWS: [(u32, u8, bool); 7] = [
    (4_096, 1, true),
    (16_777_216, 16, true),
    (1_048_576, 8, true),
    (4_095, 8, false),
    (16_777_217, 8, false),
    (4_096, 0, false),
    (4_096, 17, false),
];

/// Whether these are the limits.
fn are(limits: Limits, message: u32, partials: u8) -> bool {
    limits.message == message && limits.partials == partials && limits.cuts == Cuts::Aligned
}

#[test]
fn limits_have_ranges(rt: HostRuntime) {
    for (message, partials, expected) in &ROWS {
        let found = Limits::new(*message, *partials);
        let is_right = match found {
            Some(limits) => *expected && are(limits, *message, *partials),
            None => !*expected,
        };
        assert!(rt; is_right, "{message} and {partials}");
    }
}

#[test]
fn limits_by_default(rt: HostRuntime) {
    assert!(rt; are(Limits::default(), 1_048_576, 8));
}

#[test]
fn limits_with_other_cuts(rt: HostRuntime) {
    let limits = Limits::default().with_cuts(Cuts::Anywhere);
    assert!(rt; limits.message == 1_048_576 && limits.partials == 8);
    assert!(rt;
        limits.cuts == Cuts::Anywhere && are(limits.with_cuts(Cuts::Aligned), 1_048_576, 8)
    );
}
