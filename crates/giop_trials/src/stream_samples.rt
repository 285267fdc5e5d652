//! The streams that are fed, and the messages that are cut, written out from the layouts of their frames.

use cdr_core::Order;
use trials::{Gives, Sample};

/// A Request of 1.2 with the id 5: the key `c`, the operation `add`, and a body at 48.
const REQUEST: Sample = Sample {
    name: "request",
    shape: None,
    order: Order::Big,
    at: 0,
    octets: &[
        0x47, 0x49, 0x4f, 0x50, 1, 2, 0, 0, 0, 0, 0, 0x28, 0, 0, 0, 5, 3, 0, 0, 0, 0, 0, 0, 0, 0,
        0, 0, 1, 0x63, 0, 0, 0, 0, 0, 0, 4, 0x61, 0x64, 0x64, 0, 0, 0, 0, 0, 0, 0, 0, 0, 0, 0, 0,
        7,
    ],
    gives: Gives::Value("Given { messages: 1, id: Some(5), pending: 0, partial: 0, fault: None }"),
};

/// The same in little order.
const REQUEST_LITTLE: Sample = Sample {
    name: "request_in_little_order",
    shape: None,
    order: Order::Little,
    at: 0,
    octets: &[
        0x47, 0x49, 0x4f, 0x50, 1, 2, 1, 0, 0x28, 0, 0, 0, 5, 0, 0, 0, 3, 0, 0, 0, 0, 0, 0, 0, 1,
        0, 0, 0, 0x63, 0, 0, 0, 4, 0, 0, 0, 0x61, 0x64, 0x64, 0, 0, 0, 0, 0, 0, 0, 0, 0, 7, 0, 0,
        0,
    ],
    gives: Gives::Value("Given { messages: 1, id: Some(5), pending: 0, partial: 0, fault: None }"),
};

/// The same Request in a first piece and two Fragments.
const THREE_FRAGMENTS: Sample = Sample {
    name: "three_fragments",
    shape: None,
    order: Order::Big,
    at: 0,
    octets: &[
        0x47, 0x49, 0x4f, 0x50, 1, 2, 2, 0, 0, 0, 0, 0x14, 0, 0, 0, 5, 3, 0, 0, 0, 0, 0, 0, 0, 0,
        0, 0, 1, 0x63, 0, 0, 0, 0x47, 0x49, 0x4f, 0x50, 1, 2, 2, 7, 0, 0, 0, 0x14, 0, 0, 0, 5, 0,
        0, 0, 4, 0x61, 0x64, 0x64, 0, 0, 0, 0, 0, 0, 0, 0, 0, 0x47, 0x49, 0x4f, 0x50, 1, 2, 0, 7,
        0, 0, 0, 8, 0, 0, 0, 5, 0, 0, 0, 7,
    ],
    gives: Gives::Value("Given { messages: 1, id: Some(5), pending: 0, partial: 0, fault: None }"),
};

/// The same Request in little order, in a first piece and one Fragment.
const TWO_FRAGMENTS_LITTLE: Sample = Sample {
    name: "two_fragments_in_little_order",
    shape: None,
    order: Order::Little,
    at: 0,
    octets: &[
        0x47, 0x49, 0x4f, 0x50, 1, 2, 3, 0, 0x24, 0, 0, 0, 5, 0, 0, 0, 3, 0, 0, 0, 0, 0, 0, 0, 1,
        0, 0, 0, 0x63, 0, 0, 0, 4, 0, 0, 0, 0x61, 0x64, 0x64, 0, 0, 0, 0, 0, 0, 0, 0, 0, 0x47,
        0x49, 0x4f, 0x50, 1, 2, 1, 7, 8, 0, 0, 0, 5, 0, 0, 0, 7, 0, 0, 0,
    ],
    gives: Gives::Value("Given { messages: 1, id: Some(5), pending: 0, partial: 0, fault: None }"),
};

/// A first piece, whose Fragments do not come.
const FIRST_PIECE: Sample = Sample {
    name: "first_piece",
    shape: None,
    order: Order::Big,
    at: 0,
    octets: &[
        0x47, 0x49, 0x4f, 0x50, 1, 2, 2, 0, 0, 0, 0, 0x14, 0, 0, 0, 5, 3, 0, 0, 0, 0, 0, 0, 0, 0,
        0, 0, 1, 0x63, 0, 0, 0,
    ],
    gives: Gives::Value("Given { messages: 0, id: None, pending: 0, partial: 1, fault: None }"),
};

/// A first piece, and twenty octets of a Fragment.
const BEGUN_FRAME: Sample = Sample {
    name: "partial_frame",
    shape: None,
    order: Order::Big,
    at: 0,
    octets: &[
        0x47, 0x49, 0x4f, 0x50, 1, 2, 2, 0, 0, 0, 0, 0x14, 0, 0, 0, 5, 3, 0, 0, 0, 0, 0, 0, 0, 0,
        0, 0, 1, 0x63, 0, 0, 0, 0x47, 0x49, 0x4f, 0x50, 1, 2, 2, 7, 0, 0, 0, 0x14, 0, 0, 0, 5, 0,
        0, 0, 4,
    ],
    gives: Gives::Value("Given { messages: 0, id: None, pending: 20, partial: 1, fault: None }"),
};

/// A first piece, and a CancelRequest that drops it.
const CANCELLED: Sample = Sample {
    name: "cancelled",
    shape: None,
    order: Order::Big,
    at: 0,
    octets: &[
        0x47, 0x49, 0x4f, 0x50, 1, 2, 2, 0, 0, 0, 0, 0x14, 0, 0, 0, 5, 3, 0, 0, 0, 0, 0, 0, 0, 0,
        0, 0, 1, 0x63, 0, 0, 0, 0x47, 0x49, 0x4f, 0x50, 1, 2, 0, 2, 0, 0, 0, 4, 0, 0, 0, 5,
    ],
    gives: Gives::Value("Given { messages: 1, id: Some(5), pending: 0, partial: 0, fault: None }"),
};

/// A Request, and a Fragment with another id.
const STRAY: Sample = Sample {
    name: "stray",
    shape: None,
    order: Order::Big,
    at: 0,
    octets: &[
        0x47, 0x49, 0x4f, 0x50, 1, 2, 0, 0, 0, 0, 0, 0x28, 0, 0, 0, 5, 3, 0, 0, 0, 0, 0, 0, 0, 0,
        0, 0, 1, 0x63, 0, 0, 0, 0, 0, 0, 4, 0x61, 0x64, 0x64, 0, 0, 0, 0, 0, 0, 0, 0, 0, 0, 0, 0,
        7, 0x47, 0x49, 0x4f, 0x50, 1, 2, 0, 7, 0, 0, 0, 4, 0, 0, 0, 9,
    ],
    gives: Gives::Value(
        "Given { messages: 1, id: Some(5), pending: 0, partial: 0, fault: Some(StrayFragment) }",
    ),
};

/// A Request with the id 5, a CancelRequest with the id 6, and a Reply with the id 8.
const SEVERAL: Sample = Sample {
    name: "several",
    shape: None,
    order: Order::Big,
    at: 0,
    octets: &[
        0x47, 0x49, 0x4f, 0x50, 1, 2, 0, 0, 0, 0, 0, 0x28, 0, 0, 0, 5, 3, 0, 0, 0, 0, 0, 0, 0, 0,
        0, 0, 1, 0x63, 0, 0, 0, 0, 0, 0, 4, 0x61, 0x64, 0x64, 0, 0, 0, 0, 0, 0, 0, 0, 0, 0, 0, 0,
        7, 0x47, 0x49, 0x4f, 0x50, 1, 2, 0, 2, 0, 0, 0, 4, 0, 0, 0, 6, 0x47, 0x49, 0x4f, 0x50, 1,
        2, 0, 1, 0, 0, 0, 0x0c, 0, 0, 0, 8, 0, 0, 0, 0, 0, 0, 0, 0,
    ],
    gives: Gives::Value("Given { messages: 3, id: Some(8), pending: 0, partial: 0, fault: None }"),
};

/// A Request of 1.1 in three frames.
const THREE_OF_1_1: Sample = Sample {
    name: "three_of_1_1",
    shape: None,
    order: Order::Big,
    at: 0,
    octets: &[
        0x47, 0x49, 0x4f, 0x50, 1, 1, 2, 0, 0, 0, 0, 0x10, 0, 0, 0, 0, 0, 0, 0, 5, 1, 0, 0, 0, 0,
        0, 0, 1, 0x47, 0x49, 0x4f, 0x50, 1, 1, 2, 7, 0, 0, 0, 8, 0x63, 0, 0, 0, 0, 0, 0, 4, 0x47,
        0x49, 0x4f, 0x50, 1, 1, 0, 7, 0, 0, 0, 0x0c, 0x61, 0x64, 0x64, 0, 0, 0, 0, 0, 0, 0, 0, 7,
    ],
    gives: Gives::Value("Given { messages: 1, id: Some(5), pending: 0, partial: 0, fault: None }"),
};

/// Streams.
pub static STREAMS: [Sample; 10] = [
    REQUEST,
    REQUEST_LITTLE,
    THREE_FRAGMENTS,
    TWO_FRAGMENTS_LITTLE,
    FIRST_PIECE,
    BEGUN_FRAME,
    CANCELLED,
    STRAY,
    SEVERAL,
    THREE_OF_1_1,
];

/// Streams of whole messages, none of them cut.
pub static UNCUT: [Sample; 3] = [REQUEST, REQUEST_LITTLE, SEVERAL];

/// Messages whose fragments all come.
pub static CUT: [Sample; 2] = [THREE_FRAGMENTS, TWO_FRAGMENTS_LITTLE];

/// A Request that is cut in three.
const IN_THREE: Sample = Sample {
    name: "in_three",
    shape: None,
    order: Order::Big,
    at: 0,
    octets: &[
        0x47, 0x49, 0x4f, 0x50, 1, 2, 0, 0, 0, 0, 0, 0x28, 0, 0, 0, 5, 3, 0, 0, 0, 0, 0, 0, 0, 0,
        0, 0, 1, 0x63, 0, 0, 0, 0, 0, 0, 4, 0x61, 0x64, 0x64, 0, 0, 0, 0, 0, 0, 0, 0, 0, 0, 0, 0,
        7,
    ],
    gives: Gives::Frames(&[
        0x47, 0x49, 0x4f, 0x50, 1, 2, 2, 0, 0, 0, 0, 0x14, 0, 0, 0, 5, 3, 0, 0, 0, 0, 0, 0, 0, 0,
        0, 0, 1, 0x63, 0, 0, 0, 0x47, 0x49, 0x4f, 0x50, 1, 2, 2, 7, 0, 0, 0, 0x14, 0, 0, 0, 5, 0,
        0, 0, 4, 0x61, 0x64, 0x64, 0, 0, 0, 0, 0, 0, 0, 0, 0, 0x47, 0x49, 0x4f, 0x50, 1, 2, 0, 7,
        0, 0, 0, 8, 0, 0, 0, 5, 0, 0, 0, 7,
    ]),
};

/// The same in little order.
const IN_THREE_LITTLE: Sample = Sample {
    name: "in_three_in_little_order",
    shape: None,
    order: Order::Little,
    at: 0,
    octets: &[
        0x47, 0x49, 0x4f, 0x50, 1, 2, 1, 0, 0x28, 0, 0, 0, 5, 0, 0, 0, 3, 0, 0, 0, 0, 0, 0, 0, 1,
        0, 0, 0, 0x63, 0, 0, 0, 4, 0, 0, 0, 0x61, 0x64, 0x64, 0, 0, 0, 0, 0, 0, 0, 0, 0, 7, 0, 0,
        0,
    ],
    gives: Gives::Frames(&[
        0x47, 0x49, 0x4f, 0x50, 1, 2, 3, 0, 0x14, 0, 0, 0, 5, 0, 0, 0, 3, 0, 0, 0, 0, 0, 0, 0, 1,
        0, 0, 0, 0x63, 0, 0, 0, 0x47, 0x49, 0x4f, 0x50, 1, 2, 3, 7, 0x14, 0, 0, 0, 5, 0, 0, 0, 4,
        0, 0, 0, 0x61, 0x64, 0x64, 0, 0, 0, 0, 0, 0, 0, 0, 0, 0x47, 0x49, 0x4f, 0x50, 1, 2, 1, 7,
        8, 0, 0, 0, 5, 0, 0, 0, 7, 0, 0, 0,
    ]),
};

/// A LocateRequest of 29 octets, which is left as it is.
const UNCUT_LOCATE: Sample = Sample {
    name: "uncut",
    shape: None,
    order: Order::Big,
    at: 0,
    octets: &[
        0x47, 0x49, 0x4f, 0x50, 1, 2, 0, 3, 0, 0, 0, 0x11, 0, 0, 0, 1, 0, 0, 0, 0, 0, 0, 0, 5,
        0x63, 0x6f, 0x75, 0x6e, 0x74,
    ],
    gives: Gives::Frames(&[
        0x47, 0x49, 0x4f, 0x50, 1, 2, 0, 3, 0, 0, 0, 0x11, 0, 0, 0, 1, 0, 0, 0, 0, 0, 0, 0, 5,
        0x63, 0x6f, 0x75, 0x6e, 0x74,
    ]),
};

/// A Request of 1.1, in frames of at most 28 octets.
const IN_THREE_OF_1_1: Sample = Sample {
    name: "in_three_of_1_1",
    shape: None,
    order: Order::Big,
    at: 0,
    octets: &[
        0x47, 0x49, 0x4f, 0x50, 1, 1, 0, 0, 0, 0, 0, 0x24, 0, 0, 0, 0, 0, 0, 0, 5, 1, 0, 0, 0, 0,
        0, 0, 1, 0x63, 0, 0, 0, 0, 0, 0, 4, 0x61, 0x64, 0x64, 0, 0, 0, 0, 0, 0, 0, 0, 7,
    ],
    gives: Gives::Frames(&[
        0x47, 0x49, 0x4f, 0x50, 1, 1, 2, 0, 0, 0, 0, 0x10, 0, 0, 0, 0, 0, 0, 0, 5, 1, 0, 0, 0, 0,
        0, 0, 1, 0x47, 0x49, 0x4f, 0x50, 1, 1, 2, 7, 0, 0, 0, 0x10, 0x63, 0, 0, 0, 0, 0, 0, 4,
        0x61, 0x64, 0x64, 0, 0, 0, 0, 0, 0x47, 0x49, 0x4f, 0x50, 1, 1, 0, 7, 0, 0, 0, 4, 0, 0, 0,
        7,
    ]),
};

/// Messages that can be cut, and the octets of their frames: of at most 32 octets in 1.2, and 28 in 1.1.
pub static CUTTABLE: [Sample; 4] = [IN_THREE, IN_THREE_LITTLE, UNCUT_LOCATE, IN_THREE_OF_1_1];
