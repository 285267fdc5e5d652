//! The streams that a server or a client hears, and what a client sends, written out from the layouts of their
//! frames.

use cdr_core::Order;
use trials::{Gives, Sample};

/// A Request of 1.2 with the id 5: the key `c`, the operation `add`, and a body at 48.
const REQUEST: Sample = Sample {
    name: "request",
    shape: None,
    order: Order::Big,
    at: 0,
    octets: &[
        0x47, 0x49, 0x4f, 0x50, 1, 2, 0, 0, 0, 0, 0, 0x28, 0, 0, 0, 5, 3, 0, 0, 0, 0, 0, 0, 0, 0,
        0, 0, 1, 0x63, 0, 0, 0, 0, 0, 0, 4, 0x61, 0x64, 0x64, 0, 0, 0, 0, 0, 0, 0, 0, 0, 0, 0, 0,
        7,
    ],
    gives: Gives::Value("Heard { requests: 1, id: Some(5), held: 52, is_closed: false }"),
};

/// The same Request in a first piece and two Fragments.
const THREE_FRAGMENTS: Sample = Sample {
    name: "three_fragments",
    shape: None,
    order: Order::Big,
    at: 0,
    octets: &[
        0x47, 0x49, 0x4f, 0x50, 1, 2, 2, 0, 0, 0, 0, 0x14, 0, 0, 0, 5, 3, 0, 0, 0, 0, 0, 0, 0, 0,
        0, 0, 1, 0x63, 0, 0, 0, 0x47, 0x49, 0x4f, 0x50, 1, 2, 2, 7, 0, 0, 0, 0x14, 0, 0, 0, 5, 0,
        0, 0, 4, 0x61, 0x64, 0x64, 0, 0, 0, 0, 0, 0, 0, 0, 0, 0x47, 0x49, 0x4f, 0x50, 1, 2, 0, 7,
        0, 0, 0, 8, 0, 0, 0, 5, 0, 0, 0, 7,
    ],
    gives: Gives::Value("Heard { requests: 1, id: Some(5), held: 52, is_closed: false }"),
};

/// The same Request, and CloseConnection.
const CLOSED: Sample = Sample {
    name: "closed",
    shape: None,
    order: Order::Big,
    at: 0,
    octets: &[
        0x47, 0x49, 0x4f, 0x50, 1, 2, 0, 0, 0, 0, 0, 0x28, 0, 0, 0, 5, 3, 0, 0, 0, 0, 0, 0, 0, 0,
        0, 0, 1, 0x63, 0, 0, 0, 0, 0, 0, 4, 0x61, 0x64, 0x64, 0, 0, 0, 0, 0, 0, 0, 0, 0, 0, 0, 0,
        7, 0x47, 0x49, 0x4f, 0x50, 1, 2, 0, 5, 0, 0, 0, 0,
    ],
    gives: Gives::Value("Heard { requests: 1, id: Some(5), held: 0, is_closed: true }"),
};

/// Streams in which a request is heard.
pub static HEARD: [Sample; 3] = [REQUEST, THREE_FRAGMENTS, CLOSED];

/// A Request of 1.2 with the id 1: the key `c`, the operation `add`, and a body at 48.
const SENT_REQUEST: Sample = Sample {
    name: "request",
    shape: None,
    order: Order::Big,
    at: 0,
    octets: &[
        0x47, 0x49, 0x4f, 0x50, 1, 2, 0, 0, 0, 0, 0, 0x28, 0, 0, 0, 1, 3, 0, 0, 0, 0, 0, 0, 0, 0,
        0, 0, 1, 0x63, 0, 0, 0, 0, 0, 0, 4, 0x61, 0x64, 0x64, 0, 0, 0, 0, 0, 0, 0, 0, 0, 0, 0, 0,
        7,
    ],
    gives: Gives::Value("()"),
};

/// A LocateRequest of 1.2 with the id 1: the key `c`.
const SENT_LOCATE: Sample = Sample {
    name: "locate",
    shape: None,
    order: Order::Big,
    at: 0,
    octets: &[
        0x47, 0x49, 0x4f, 0x50, 1, 2, 0, 3, 0, 0, 0, 0x0d, 0, 0, 0, 1, 0, 0, 0, 0, 0, 0, 0, 1, 0x63,
    ],
    gives: Gives::Value("()"),
};

/// A CancelRequest of 1.2 with the id 1.
const SENT_CANCEL: Sample = Sample {
    name: "cancel",
    shape: None,
    order: Order::Big,
    at: 0,
    octets: &[0x47, 0x49, 0x4f, 0x50, 1, 2, 0, 2, 0, 0, 0, 4, 0, 0, 0, 1],
    gives: Gives::Value("()"),
};

/// What a client's request is written as.
pub static SENT_REQUESTS: [Sample; 1] = [SENT_REQUEST];

/// What its locate is written as.
pub static SENT_LOCATES: [Sample; 1] = [SENT_LOCATE];

/// What its cancel is written as.
pub static SENT_CANCELS: [Sample; 1] = [SENT_CANCEL];

/// A Reply of 1.2 with the id 1: no exception, no contexts, and a body at 24.
const ANSWER: Sample = Sample {
    name: "reply",
    shape: None,
    order: Order::Big,
    at: 0,
    octets: &[
        0x47, 0x49, 0x4f, 0x50, 1, 2, 0, 1, 0, 0, 0, 0x10, 0, 0, 0, 1, 0, 0, 0, 0, 0, 0, 0, 0, 0,
        0, 0, 7,
    ],
    gives: Gives::Value(
        "Attended { replies: 1, id: Some(1), outstanding: 0, held: 28, is_closed: false }",
    ),
};

/// The same Reply in a first piece and a Fragment, and a Reply that nobody wants between them.
const CUT_ANSWER: Sample = Sample {
    name: "cut_reply",
    shape: None,
    order: Order::Big,
    at: 0,
    octets: &[
        0x47, 0x49, 0x4f, 0x50, 1, 2, 2, 1, 0, 0, 0, 0x0c, 0, 0, 0, 1, 0, 0, 0, 0, 0, 0, 0, 0,
        0x47, 0x49, 0x4f, 0x50, 1, 2, 0, 1, 0, 0, 0, 0x0c, 0, 0, 0, 2, 0, 0, 0, 0, 0, 0, 0, 0,
        0x47, 0x49, 0x4f, 0x50, 1, 2, 0, 7, 0, 0, 0, 8, 0, 0, 0, 1, 0, 0, 0, 7,
    ],
    gives: Gives::Value(
        "Attended { replies: 1, id: Some(1), outstanding: 0, held: 28, is_closed: false }",
    ),
};

/// CloseConnection, and the Reply after it.
const CLOSED_ANSWER: Sample = Sample {
    name: "closed",
    shape: None,
    order: Order::Big,
    at: 0,
    octets: &[
        0x47, 0x49, 0x4f, 0x50, 1, 0, 0, 5, 0, 0, 0, 0, 0x47, 0x49, 0x4f, 0x50, 1, 2, 0, 1, 0, 0,
        0, 0x10, 0, 0, 0, 1, 0, 0, 0, 0, 0, 0, 0, 0, 0, 0, 0, 7,
    ],
    gives: Gives::Value(
        "Attended { replies: 0, id: None, outstanding: 0, held: 0, is_closed: true }",
    ),
};

/// Streams that a client hears, which waits for the reply of id 1.
pub static ANSWERED: [Sample; 3] = [ANSWER, CUT_ANSWER, CLOSED_ANSWER];
