//! The samples on which each call is made.

use crate::calls::Call;
use crate::log_samples::{KEYS, RAISED, RETURNED};
use crate::outcomes::Performed;
use crate::server_samples::ASKED;
use trials::{CLOSINGS, Room, Sample, Samples, Suite};

/// A set of samples.
pub enum Set {
    /// CloseConnection.
    Closings,
    /// Clients, and the keys of requests of theirs.
    Keys,
    /// Structs, and their members as results.
    Returned,
    /// Structs, and their members as those of an exception.
    Raised,
    /// Requests that a server is asked.
    Asked,
}

impl Samples for Set {
    fn samples(&self) -> &'static [Sample] {
        match self {
            Set::Closings => &CLOSINGS,
            Set::Keys => &KEYS,
            Set::Returned => &RETURNED,
            Set::Raised => &RAISED,
            Set::Asked => &ASKED,
        }
    }
}

/// The calls of `ft_log` and `ft_orb`.
pub static SUITES: [Suite<Call, Set>; 13] = [
    Suite("new_key", Call::NewKey, Set::Keys),
    Suite("copy_key", Call::CopyKey, Set::Keys),
    Suite(
        "copy_returned",
        Call::CopyOutcome(Performed::Returned),
        Set::Returned,
    ),
    Suite(
        "copy_raised",
        Call::CopyOutcome(Performed::Raised),
        Set::Raised,
    ),
    Suite("keep_first", Call::Keep(0), Set::Keys),
    Suite("keep_fifth", Call::Keep(4), Set::Keys),
    Suite("keep_sixth", Call::Keep(5), Set::Keys),
    Suite("ask_server", Call::Ask, Set::Asked),
    Suite("ask_server_again", Call::AskAgain, Set::Asked),
    Suite(
        "close_server_empty",
        Call::CloseServer(Room::Empty),
        Set::Closings,
    ),
    Suite(
        "close_server_full",
        Call::CloseServer(Room::Full),
        Set::Closings,
    ),
    Suite(
        "close_server_without_allocation",
        Call::CloseServer(Room::Ample),
        Set::Closings,
    ),
    Suite("feed_server_without_allocation", Call::Idle, Set::Asked),
];
