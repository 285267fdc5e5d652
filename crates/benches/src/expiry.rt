//! When outcomes come, and when they expire.
//!
//! Of `Rising` and `Scattered` each outcome comes one moment after the one before it, and one expires with each once so many
//! are kept, in the order in which they were kept, or in another. Of `Together` so many come at one moment, which is the
//! last at which they are kept.

/// In which order outcomes expire.
#[derive(Clone, Copy)]
pub(crate) enum Expiry {
    Rising,
    Scattered,
    Together,
}

/// The moment of the first outcome.
const FIRST: u64 = 1000;

/// The moment at which an outcome comes, and the last one at which it is kept, where `entries` are kept.
pub(crate) fn moments(expiry: Expiry, entries: u32, index: u32) -> (u64, u64) {
    let (entries, index) = (u64::from(entries), u64::from(index));
    let mask = entries.wrapping_sub(1);
    let place = index & mask;
    let round = FIRST.wrapping_add(index.wrapping_sub(place));
    let least = round.wrapping_add(mask);
    let now = FIRST.wrapping_add(index);
    match expiry {
        Expiry::Rising => (now, least.wrapping_add(place)),
        Expiry::Scattered => (
            now,
            least.wrapping_add(place.wrapping_mul(40_503).wrapping_add(97) & mask),
        ),
        Expiry::Together => (round, round),
    }
}
