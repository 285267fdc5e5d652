//! The samples on which each call is made.

use crate::call_samples::{CALLED, CALLED_AGAIN, CALLED_TWICE, COMPLETED, UNSENT};
use crate::calling::Act;
use crate::calls::Call;
use crate::link_samples::{ANSWERED, HEARD, SENT_CANCELS, SENT_LOCATES, SENT_REQUESTS};
use crate::sending::Sent;
use trials::{CLOSINGS, Room, Sample, Samples, Suite};

/// A set of samples.
pub enum Set {
    /// CloseConnection.
    Closings,
    /// Streams in which a request is heard.
    Heard,
    /// What a client's request is written as.
    SentRequests,
    /// What its locate is written as.
    SentLocates,
    /// What its cancel is written as.
    SentCancels,
    /// Streams in which a client hears a reply.
    Answered,
    /// What a client writes for a call.
    Called,
    /// What it writes for one that is sent again.
    CalledAgain,
    /// What it writes for two.
    CalledTwice,
    /// What it writes for a call without a connection.
    Unsent,
    /// Streams that complete a call.
    Completed,
}

impl Samples for Set {
    fn samples(&self) -> &'static [Sample] {
        match self {
            Set::Closings => &CLOSINGS,
            Set::Heard => &HEARD,
            Set::SentRequests => &SENT_REQUESTS,
            Set::SentLocates => &SENT_LOCATES,
            Set::SentCancels => &SENT_CANCELS,
            Set::Answered => &ANSWERED,
            Set::Called => &CALLED,
            Set::CalledAgain => &CALLED_AGAIN,
            Set::CalledTwice => &CALLED_TWICE,
            Set::Unsent => &UNSENT,
            Set::Completed => &COMPLETED,
        }
    }
}

/// Half as many octets as the first request of `HEARD` has.
const HALF: usize = 26;

/// As many octets as a piece needs to hold any stream of the samples.
const WHOLE: usize = 4096;

/// The calls of `giop_link` and `ft_client`.
pub static SUITES: [Suite<Call, Set>; 33] = [
    Suite("hear_whole", Call::Hear(WHOLE), Set::Heard),
    Suite("hear_in_two", Call::Hear(HALF), Set::Heard),
    Suite(
        "close_link_empty",
        Call::CloseLink(Room::Empty),
        Set::Closings,
    ),
    Suite(
        "close_link_full",
        Call::CloseLink(Room::Full),
        Set::Closings,
    ),
    Suite(
        "close_link_without_allocation",
        Call::CloseLink(Room::Ample),
        Set::Closings,
    ),
    Suite(
        "send_request_empty",
        Call::Send(Sent::Request, Room::Empty),
        Set::SentRequests,
    ),
    Suite(
        "send_request_full",
        Call::Send(Sent::Request, Room::Full),
        Set::SentRequests,
    ),
    Suite(
        "send_request_ample",
        Call::Send(Sent::Request, Room::Ample),
        Set::SentRequests,
    ),
    Suite(
        "send_locate_empty",
        Call::Send(Sent::Locate, Room::Empty),
        Set::SentLocates,
    ),
    Suite(
        "send_locate_full",
        Call::Send(Sent::Locate, Room::Full),
        Set::SentLocates,
    ),
    Suite(
        "send_cancel_empty",
        Call::Send(Sent::Cancel, Room::Empty),
        Set::SentCancels,
    ),
    Suite(
        "send_cancel_full",
        Call::Send(Sent::Cancel, Room::Full),
        Set::SentCancels,
    ),
    Suite(
        "send_cancel_without_allocation",
        Call::Send(Sent::Cancel, Room::Ample),
        Set::SentCancels,
    ),
    Suite("attend_whole", Call::Attend(WHOLE), Set::Answered),
    Suite("attend_in_two", Call::Attend(HALF), Set::Answered),
    Suite(
        "client_call_unconnected",
        Call::Act(Act::CallUnconnected, Room::Full),
        Set::Unsent,
    ),
    Suite(
        "client_call_empty",
        Call::Act(Act::Call, Room::Empty),
        Set::Called,
    ),
    Suite(
        "client_call_full",
        Call::Act(Act::Call, Room::Full),
        Set::Called,
    ),
    Suite(
        "client_recall_empty",
        Call::Act(Act::Recall, Room::Empty),
        Set::Called,
    ),
    Suite(
        "client_recall_full",
        Call::Act(Act::Recall, Room::Full),
        Set::Called,
    ),
    Suite(
        "client_recall_raw_empty",
        Call::Act(Act::RecallRaw, Room::Empty),
        Set::Called,
    ),
    Suite(
        "client_recall_raw_full",
        Call::Act(Act::RecallRaw, Room::Full),
        Set::Called,
    ),
    Suite(
        "client_resend_empty",
        Call::Act(Act::Resend, Room::Empty),
        Set::CalledAgain,
    ),
    Suite(
        "client_resend_full",
        Call::Act(Act::Resend, Room::Full),
        Set::CalledAgain,
    ),
    Suite(
        "client_connect_empty",
        Call::Act(Act::Connect, Room::Empty),
        Set::CalledTwice,
    ),
    Suite(
        "client_connect_full",
        Call::Act(Act::Connect, Room::Full),
        Set::CalledTwice,
    ),
    Suite(
        "client_cancel_empty",
        Call::Act(Act::Cancel, Room::Empty),
        Set::SentCancels,
    ),
    Suite(
        "client_cancel_full",
        Call::Act(Act::Cancel, Room::Full),
        Set::SentCancels,
    ),
    Suite(
        "client_cancel_without_allocation",
        Call::Act(Act::Cancel, Room::Ample),
        Set::SentCancels,
    ),
    Suite(
        "client_rest_without_allocation",
        Call::Act(Act::Rest, Room::Full),
        Set::Unsent,
    ),
    Suite("client_feed_whole", Call::Complete(WHOLE), Set::Completed),
    Suite(
        "client_feed_by_thirteen",
        Call::Complete(13),
        Set::Completed,
    ),
    Suite("client_feed_by_one", Call::Complete(1), Set::Completed),
];
