//! The samples on which each call is made.

use crate::calls::Call;
use crate::message_samples::{
    CANCELS, CLIENTS, ERRORS, EXCEPTIONS, LOCATE_REPLIES, LOCATE_REQUESTS, REPLIES, REQUESTS,
};
use crate::stream_samples::{CUT, CUTTABLE, STREAMS, UNCUT};
use trials::{CLOSINGS, Room, Sample, Samples, Suite};

/// A set of samples.
pub enum Set {
    /// Requests.
    Requests,
    /// Replies.
    Replies,
    /// Replies that carry an exception.
    Exceptions,
    /// CancelRequests.
    Cancels,
    /// LocateRequests.
    LocateRequests,
    /// LocateReplies.
    LocateReplies,
    /// CloseConnection.
    Closings,
    /// MessageError.
    Errors,
    /// Contexts FT_REQUEST.
    Clients,
    /// Streams.
    Streams,
    /// Streams of whole messages, none of them cut.
    Uncut,
    /// Messages whose fragments all come.
    Cut,
    /// Messages that can be cut, and the octets of their frames of at most 32 octets.
    Cuttable,
}

impl Samples for Set {
    fn samples(&self) -> &'static [Sample] {
        match self {
            Set::Requests => &REQUESTS,
            Set::Replies => &REPLIES,
            Set::Exceptions => &EXCEPTIONS,
            Set::Cancels => &CANCELS,
            Set::LocateRequests => &LOCATE_REQUESTS,
            Set::LocateReplies => &LOCATE_REPLIES,
            Set::Closings => &CLOSINGS,
            Set::Errors => &ERRORS,
            Set::Clients => &CLIENTS,
            Set::Streams => &STREAMS,
            Set::Uncut => &UNCUT,
            Set::Cut => &CUT,
            Set::Cuttable => &CUTTABLE,
        }
    }
}

/// As many octets as a piece needs to hold any stream of the samples.
const WHOLE: usize = 4096;

/// The calls of `giop_core` and `giop_frames`.
pub static SUITES: [Suite<Call, Set>; 39] = [
    Suite(
        "write_request_empty",
        Call::WriteMessage(Room::Empty),
        Set::Requests,
    ),
    Suite(
        "write_request_full",
        Call::WriteMessage(Room::Full),
        Set::Requests,
    ),
    Suite(
        "write_request_without_allocation",
        Call::WriteMessage(Room::Ample),
        Set::Requests,
    ),
    Suite(
        "write_reply_empty",
        Call::WriteMessage(Room::Empty),
        Set::Replies,
    ),
    Suite(
        "write_reply_full",
        Call::WriteMessage(Room::Full),
        Set::Replies,
    ),
    Suite(
        "write_reply_without_allocation",
        Call::WriteMessage(Room::Ample),
        Set::Replies,
    ),
    Suite(
        "write_exception_empty",
        Call::WriteException(Room::Empty),
        Set::Exceptions,
    ),
    Suite(
        "write_exception_full",
        Call::WriteException(Room::Full),
        Set::Exceptions,
    ),
    Suite(
        "write_exception_without_allocation",
        Call::WriteException(Room::Ample),
        Set::Exceptions,
    ),
    Suite(
        "write_cancel_empty",
        Call::WriteMessage(Room::Empty),
        Set::Cancels,
    ),
    Suite(
        "write_cancel_full",
        Call::WriteMessage(Room::Full),
        Set::Cancels,
    ),
    Suite(
        "write_cancel_without_allocation",
        Call::WriteMessage(Room::Ample),
        Set::Cancels,
    ),
    Suite(
        "write_locate_request_empty",
        Call::WriteMessage(Room::Empty),
        Set::LocateRequests,
    ),
    Suite(
        "write_locate_request_full",
        Call::WriteMessage(Room::Full),
        Set::LocateRequests,
    ),
    Suite(
        "write_locate_request_without_allocation",
        Call::WriteMessage(Room::Ample),
        Set::LocateRequests,
    ),
    Suite(
        "write_locate_reply_empty",
        Call::WriteMessage(Room::Empty),
        Set::LocateReplies,
    ),
    Suite(
        "write_locate_reply_full",
        Call::WriteMessage(Room::Full),
        Set::LocateReplies,
    ),
    Suite(
        "write_locate_reply_without_allocation",
        Call::WriteMessage(Room::Ample),
        Set::LocateReplies,
    ),
    Suite(
        "write_close_empty",
        Call::WriteMessage(Room::Empty),
        Set::Closings,
    ),
    Suite(
        "write_close_full",
        Call::WriteMessage(Room::Full),
        Set::Closings,
    ),
    Suite(
        "write_close_without_allocation",
        Call::WriteMessage(Room::Ample),
        Set::Closings,
    ),
    Suite(
        "write_error_empty",
        Call::WriteMessage(Room::Empty),
        Set::Errors,
    ),
    Suite(
        "write_error_full",
        Call::WriteMessage(Room::Full),
        Set::Errors,
    ),
    Suite(
        "write_error_without_allocation",
        Call::WriteMessage(Room::Ample),
        Set::Errors,
    ),
    Suite(
        "write_ft_empty",
        Call::WriteClient(Room::Empty),
        Set::Clients,
    ),
    Suite("write_ft_full", Call::WriteClient(Room::Full), Set::Clients),
    Suite(
        "write_ft_without_allocation",
        Call::WriteClient(Room::Ample),
        Set::Clients,
    ),
    Suite("feed_whole", Call::Feed(1, WHOLE), Set::Streams),
    Suite("feed_by_thirteen", Call::Feed(1, 13), Set::Streams),
    Suite("feed_by_one", Call::Feed(1, 1), Set::Streams),
    Suite("feed_uncut_whole_once", Call::Feed(1, WHOLE), Set::Uncut),
    Suite(
        "feed_uncut_whole_a_hundred_times",
        Call::Feed(100, WHOLE),
        Set::Uncut,
    ),
    Suite("feed_uncut_by_thirteen_once", Call::Feed(1, 13), Set::Uncut),
    Suite(
        "feed_uncut_by_thirteen_a_hundred_times",
        Call::Feed(100, 13),
        Set::Uncut,
    ),
    Suite("feed_a_hundred_cut_whole", Call::Feed(100, WHOLE), Set::Cut),
    Suite(
        "feed_a_hundred_cut_by_thirteen",
        Call::Feed(100, 13),
        Set::Cut,
    ),
    Suite("fragments_empty", Call::Cut(Room::Empty), Set::Cuttable),
    Suite("fragments_full", Call::Cut(Room::Full), Set::Cuttable),
    Suite(
        "fragments_without_allocation",
        Call::Cut(Room::Ample),
        Set::Cuttable,
    ),
];
