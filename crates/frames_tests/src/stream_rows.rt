//! Frames written out by hand, and what each gives as a stream.

use crate::samples::{
    CANCEL, CANCEL_11, FIRST, FIRST_11, LAST, LAST_11, MIDDLE, MIDDLE_11, WHOLE, WHOLE_11,
};
use cdr_core::{Fault, Kind};
use giop_core::MessageFault;
use giop_frames::StreamFault;

/// First frames of 1.2 with the ids 0 to 7.
const EIGHT: &[u8] =
    b"GIOP\x01\x02\x02\x00\x00\x00\x00\x14\x00\x00\x00\x00\x03\x00\x00\x00\x00\x00\x00\x00\x00\x00\x00\x01c\x00\x00\x00\
GIOP\x01\x02\x02\x00\x00\x00\x00\x14\x00\x00\x00\x01\x03\x00\x00\x00\x00\x00\x00\x00\x00\x00\x00\x01c\x00\x00\x00\
GIOP\x01\x02\x02\x00\x00\x00\x00\x14\x00\x00\x00\x02\x03\x00\x00\x00\x00\x00\x00\x00\x00\x00\x00\x01c\x00\x00\x00\
GIOP\x01\x02\x02\x00\x00\x00\x00\x14\x00\x00\x00\x03\x03\x00\x00\x00\x00\x00\x00\x00\x00\x00\x00\x01c\x00\x00\x00\
GIOP\x01\x02\x02\x00\x00\x00\x00\x14\x00\x00\x00\x04\x03\x00\x00\x00\x00\x00\x00\x00\x00\x00\x00\x01c\x00\x00\x00\
GIOP\x01\x02\x02\x00\x00\x00\x00\x14\x00\x00\x00\x05\x03\x00\x00\x00\x00\x00\x00\x00\x00\x00\x00\x01c\x00\x00\x00\
GIOP\x01\x02\x02\x00\x00\x00\x00\x14\x00\x00\x00\x06\x03\x00\x00\x00\x00\x00\x00\x00\x00\x00\x00\x01c\x00\x00\x00\
GIOP\x01\x02\x02\x00\x00\x00\x00\x14\x00\x00\x00\x07\x03\x00\x00\x00\x00\x00\x00\x00\x00\x00\x00\x01c\x00\x00\x00";

/// Frames, and what they give: how many messages complete, how many are partial then, and the fault.
pub(crate) struct Row {
    pub frames: &'static [&'static [u8]],
    pub messages: usize,
    pub partial: usize,
    pub fault: Option<StreamFault>,
}

pub(crate) static ROWS: [Row; 33] = [
    Row {
        frames: &[FIRST, MIDDLE, LAST],
        messages: 1,
        partial: 0,
        fault: None,
    },
    Row {
        frames: &[WHOLE, WHOLE],
        messages: 2,
        partial: 0,
        fault: None,
    },
    Row {
        frames: &[FIRST, CANCEL],
        messages: 1,
        partial: 0,
        fault: None,
    },
    Row {
        frames: &[FIRST],
        messages: 0,
        partial: 1,
        fault: None,
    },
    // A Fragment of 1.2 with more to come, of 17 octets.
    Row {
        frames: &[b"GIOP\x01\x02\x02\x07\x00\x00\x00\x05"],
        messages: 0,
        partial: 0,
        fault: Some(StreamFault::UnalignedFragment),
    },
    Row {
        frames: &[b"GIOP\x01\x02\x00\x07\x00\x00\x00\x04\x00\x00\x00\x09"],
        messages: 0,
        partial: 0,
        fault: Some(StreamFault::StrayFragment),
    },
    // A Fragment of 1.2 without its request id.
    Row {
        frames: &[b"GIOP\x01\x02\x00\x07\x00\x00\x00\x00"],
        messages: 0,
        partial: 0,
        fault: Some(StreamFault::Body(MessageFault::Cdr(Fault {
            kind: Kind::Short,
            at: 12,
        }))),
    },
    Row {
        frames: &[FIRST, FIRST],
        messages: 0,
        partial: 0,
        fault: Some(StreamFault::TwiceStarted),
    },
    // A Fragment in little order.
    Row {
        frames: &[
            FIRST,
            b"GIOP\x01\x02\x01\x07\x08\x00\x00\x00\x05\x00\x00\x00\x07\x00\x00\x00",
        ],
        messages: 0,
        partial: 0,
        fault: Some(StreamFault::MixedOrder),
    },
    // A Fragment of 1.1 where no message of 1.1 is partial.
    Row {
        frames: &[b"GIOP\x01\x01\x00\x07\x00\x00\x00\x00"],
        messages: 0,
        partial: 0,
        fault: Some(StreamFault::StrayFragment),
    },
    Row {
        frames: &[FIRST, WHOLE],
        messages: 0,
        partial: 0,
        fault: Some(StreamFault::TwiceStarted),
    },
    // A message of 1.1 in three frames.
    Row {
        frames: &[FIRST_11, MIDDLE_11, LAST_11],
        messages: 1,
        partial: 0,
        fault: None,
    },
    Row {
        frames: &[FIRST_11],
        messages: 0,
        partial: 1,
        fault: None,
    },
    // A CancelRequest of its id, of 1.1 or 1.2, drops it; one of another id, or before its id is there, does not.
    Row {
        frames: &[FIRST_11, CANCEL_11, MIDDLE_11],
        messages: 1,
        partial: 0,
        fault: Some(StreamFault::StrayFragment),
    },
    Row {
        frames: &[FIRST_11, CANCEL, LAST_11],
        messages: 1,
        partial: 0,
        fault: Some(StreamFault::StrayFragment),
    },
    Row {
        frames: &[
            FIRST_11,
            b"GIOP\x01\x01\x00\x02\x00\x00\x00\x04\x00\x00\x00\x06",
            MIDDLE_11,
            LAST_11,
        ],
        messages: 2,
        partial: 0,
        fault: None,
    },
    Row {
        frames: &[
            b"GIOP\x01\x01\x02\x00\x00\x00\x00\x08\x00\x00\x00\x01\x00\x00\x00\x01",
            CANCEL_11,
        ],
        messages: 1,
        partial: 1,
        fault: None,
    },
    // So it is where contexts come in pieces: the first of two, the second, and then the id.
    Row {
        frames: &[
            b"GIOP\x01\x01\x02\x00\x00\x00\x00\x10\x00\x00\x00\x02\x00\x00\x00\x07\x00\x00\x00\x01\xff\xee\xee\xee",
            CANCEL_11,
            b"GIOP\x01\x01\x02\x07\x00\x00\x00\x08\x00\x00\x00\x05\x00\x00\x00\x00",
            CANCEL_11,
            b"GIOP\x01\x01\x02\x07\x00\x00\x00\x08\x00\x00\x00\x05\x01\x00\x00\x00",
            b"GIOP\x01\x01\x00\x02\x00\x00\x00\x04\x00\x00\x00\x07",
            CANCEL_11,
            LAST_11,
        ],
        messages: 4,
        partial: 0,
        fault: Some(StreamFault::StrayFragment),
    },
    // No other frame comes between.
    Row {
        frames: &[FIRST_11, WHOLE_11],
        messages: 0,
        partial: 0,
        fault: Some(StreamFault::TwiceStarted),
    },
    Row {
        frames: &[FIRST_11, FIRST_11],
        messages: 0,
        partial: 0,
        fault: Some(StreamFault::TwiceStarted),
    },
    Row {
        frames: &[FIRST, FIRST_11, MIDDLE],
        messages: 0,
        partial: 0,
        fault: Some(StreamFault::TwiceStarted),
    },
    Row {
        frames: &[FIRST_11, b"GIOP\x01\x00\x00\x05\x00\x00\x00\x00"],
        messages: 0,
        partial: 0,
        fault: Some(StreamFault::TwiceStarted),
    },
    // A partial message of 1.2 stays beside it.
    Row {
        frames: &[FIRST, FIRST_11, MIDDLE_11, LAST_11, MIDDLE, LAST],
        messages: 2,
        partial: 0,
        fault: None,
    },
    // A first frame of 1.1 of 32 octets, and a Fragment with more to come of 16.
    Row {
        frames: &[b"GIOP\x01\x01\x02\x00\x00\x00\x00\x14"],
        messages: 0,
        partial: 0,
        fault: Some(StreamFault::UnalignedFragment),
    },
    Row {
        frames: &[FIRST_11, b"GIOP\x01\x01\x02\x07\x00\x00\x00\x04"],
        messages: 0,
        partial: 0,
        fault: Some(StreamFault::UnalignedFragment),
    },
    // A Fragment of 1.1 in little order.
    Row {
        frames: &[FIRST_11, b"GIOP\x01\x01\x01\x07\x00\x00\x00\x00"],
        messages: 0,
        partial: 0,
        fault: Some(StreamFault::MixedOrder),
    },
    // A cancel drops both that it names, and it may come in another byte order.
    Row {
        frames: &[FIRST, FIRST_11, CANCEL],
        messages: 1,
        partial: 0,
        fault: None,
    },
    Row {
        frames: &[
            FIRST_11,
            b"GIOP\x01\x01\x01\x02\x04\x00\x00\x00\x05\x00\x00\x00",
        ],
        messages: 1,
        partial: 0,
        fault: None,
    },
    // A LocateRequest comes between, and a Fragment of 1.2 without its request id.
    Row {
        frames: &[
            FIRST_11,
            b"GIOP\x01\x02\x00\x03\x00\x00\x00\x0d\x00\x00\x00\x01\x00\x00\x00\x00\x00\x00\x00\x01c",
        ],
        messages: 0,
        partial: 0,
        fault: Some(StreamFault::TwiceStarted),
    },
    Row {
        frames: &[FIRST_11, b"GIOP\x01\x02\x00\x07\x00\x00\x00\x00"],
        messages: 0,
        partial: 0,
        fault: Some(StreamFault::TwiceStarted),
    },
    // Eight messages are partial, and one more of 1.1 or of 1.2 starts.
    Row {
        frames: &[EIGHT, FIRST_11],
        messages: 0,
        partial: 0,
        fault: Some(StreamFault::TooManyPartial),
    },
    Row {
        frames: &[
            EIGHT,
            b"GIOP\x01\x02\x02\x00\x00\x00\x00\x14\x00\x00\x00\x08\x03\x00\x00\x00\x00\x00\x00\x00\x00\x00\x00\x01c\x00\x00\x00",
        ],
        messages: 0,
        partial: 0,
        fault: Some(StreamFault::TooManyPartial),
    },
    // The last Fragment has no octets.
    Row {
        frames: &[
            b"GIOP\x01\x01\x02\x00\x00\x00\x00\x20\x00\x00\x00\x00\x00\x00\x00\x05\x01\x00\x00\x00\x00\x00\x00\x01c\x00\x00\x00\x00\x00\x00\x04get\x00\x00\x00\x00\x00",
            b"GIOP\x01\x01\x00\x07\x00\x00\x00\x00",
        ],
        messages: 1,
        partial: 0,
        fault: None,
    },
];
