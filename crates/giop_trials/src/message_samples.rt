//! The messages that the calls write, written out from the layouts of their fields.

use cdr_core::Order;
use trials::{Gives, Sample, Shape};

/// A context, and a body directly after the empty principal.
const REQUEST_1_0: Sample = Sample {
    name: "by_key_in_1_0",
    shape: Some(Shape::Struct),
    order: Order::Big,
    at: 0,
    octets: &[
        0x47, 0x49, 0x4f, 0x50, 1, 0, 0, 0, 0, 0, 0, 0x43, 0, 0, 0, 1, 0, 0, 0, 1, 0, 0, 0, 3, 0,
        0xab, 0xcd, 0, 1, 2, 3, 4, 1, 0, 0, 0, 0, 0, 0, 5, 0x6b, 0x65, 0x79, 0x73, 0x21, 0, 0, 0,
        0, 0, 0, 3, 0x67, 0x6f, 0, 0, 0, 0, 0, 0, 0, 0, 0, 2, 0x61, 0, 0xff, 0xfe, 0, 0, 0, 1, 0,
        0, 0, 3, 0x62, 0x63, 0,
    ],
    gives: Gives::Value("Struct([Str([97]), Short(-2), Seq([Str([98, 99])])])"),
};

/// The same in 1.1.
const REQUEST_1_1: Sample = Sample {
    name: "by_key_in_1_1",
    shape: Some(Shape::Struct),
    order: Order::Big,
    at: 0,
    octets: &[
        0x47, 0x49, 0x4f, 0x50, 1, 1, 0, 0, 0, 0, 0, 0x43, 0, 0, 0, 1, 0, 0, 0, 1, 0, 0, 0, 3, 0,
        0xab, 0xcd, 0, 1, 2, 3, 4, 1, 0, 0, 0, 0, 0, 0, 5, 0x6b, 0x65, 0x79, 0x73, 0x21, 0, 0, 0,
        0, 0, 0, 3, 0x67, 0x6f, 0, 0, 0, 0, 0, 0, 0, 0, 0, 2, 0x61, 0, 0xff, 0xfe, 0, 0, 0, 1, 0,
        0, 0, 3, 0x62, 0x63, 0,
    ],
    gives: Gives::Value("Struct([Str([97]), Short(-2), Seq([Str([98, 99])])])"),
};

/// A wish for an empty reply, a context, and a body after a gap of five.
const REQUEST_1_2: Sample = Sample {
    name: "by_key_in_1_2",
    shape: Some(Shape::Struct),
    order: Order::Little,
    at: 0,
    octets: &[
        0x47, 0x49, 0x4f, 0x50, 1, 2, 1, 0, 0x47, 0, 0, 0, 4, 3, 2, 1, 1, 0, 0, 0, 0, 0, 0, 0, 5,
        0, 0, 0, 0x6b, 0x65, 0x79, 0x73, 0x21, 0, 0, 0, 3, 0, 0, 0, 0x67, 0x6f, 0, 0, 1, 0, 0, 0,
        1, 0, 0, 0, 3, 0, 0, 0, 0, 0xab, 0xcd, 0, 0, 0, 0, 0, 2, 0, 0, 0, 0x61, 0, 0xfe, 0xff, 1,
        0, 0, 0, 3, 0, 0, 0, 0x62, 0x63, 0,
    ],
    gives: Gives::Value("Struct([Str([97]), Short(-2), Seq([Str([98, 99])])])"),
};

/// A profile as the target, and no contexts.
const REQUEST_BY_PROFILE: Sample = Sample {
    name: "by_profile",
    shape: Some(Shape::Struct),
    order: Order::Big,
    at: 0,
    octets: &[
        0x47, 0x49, 0x4f, 0x50, 1, 2, 0, 0, 0, 0, 0, 0x47, 0, 0, 0, 7, 3, 0, 0, 0, 0, 1, 0, 0, 0,
        0, 0, 0, 0, 0, 0, 0x13, 1, 1, 0, 0, 2, 0, 0, 0, 0x68, 0, 1, 0, 3, 0, 0, 0, 0x6b, 0x65,
        0x79, 0, 0, 0, 0, 3, 0x67, 0x6f, 0, 0, 0, 0, 0, 0, 0, 0, 0, 2, 0x61, 0, 0xff, 0xfe, 0, 0,
        0, 1, 0, 0, 0, 3, 0x62, 0x63, 0,
    ],
    gives: Gives::Value("Struct([Str([97]), Short(-2), Seq([Str([98, 99])])])"),
};

/// The second of a reference's two profiles as the target.
const REQUEST_BY_REFERENCE: Sample = Sample {
    name: "by_reference",
    shape: Some(Shape::Struct),
    order: Order::Big,
    at: 0,
    octets: &[
        0x47, 0x49, 0x4f, 0x50, 1, 2, 0, 0, 0, 0, 0, 0x67, 0, 0, 0, 7, 3, 0, 0, 0, 0, 2, 0, 0, 0,
        0, 0, 1, 0, 0, 0, 2, 0x58, 0, 0, 0, 0, 0, 0, 2, 0, 0, 0, 1, 0, 0, 0, 2, 0xaa, 0xbb, 0, 0,
        0, 0, 0, 0, 0, 0, 0, 0x13, 1, 1, 0, 0, 2, 0, 0, 0, 0x68, 0, 1, 0, 3, 0, 0, 0, 0x6b, 0x65,
        0x79, 0, 0, 0, 0, 3, 0x67, 0x6f, 0, 0, 0, 0, 0, 0, 0, 0, 0, 0, 0, 0, 0, 2, 0x61, 0, 0xff,
        0xfe, 0, 0, 0, 1, 0, 0, 0, 3, 0x62, 0x63, 0,
    ],
    gives: Gives::Value("Struct([Str([97]), Short(-2), Seq([Str([98, 99])])])"),
};

/// No reply is wished for, and nothing stands after the fields.
const REQUEST_WITHOUT_BODY: Sample = Sample {
    name: "without_body",
    shape: None,
    order: Order::Big,
    at: 0,
    octets: &[
        0x47, 0x49, 0x4f, 0x50, 1, 2, 0, 0, 0, 0, 0, 0x20, 0, 0, 0, 0x14, 0, 0, 0, 0, 0, 0, 0, 0,
        0, 0, 0, 1, 0x63, 0, 0, 0, 0, 0, 0, 4, 0x67, 0x65, 0x74, 0, 0, 0, 0, 0,
    ],
    gives: Gives::Value("Struct([])"),
};

/// Requests.
pub static REQUESTS: [Sample; 6] = [
    REQUEST_1_0,
    REQUEST_1_1,
    REQUEST_1_2,
    REQUEST_BY_PROFILE,
    REQUEST_BY_REFERENCE,
    REQUEST_WITHOUT_BODY,
];

/// A context before the id and the status, and a body directly after them.
const REPLY_1_0: Sample = Sample {
    name: "in_1_0",
    shape: Some(Shape::Struct),
    order: Order::Big,
    at: 0,
    octets: &[
        0x47, 0x49, 0x4f, 0x50, 1, 0, 0, 1, 0, 0, 0, 0x3f, 0, 0, 0, 1, 0, 0, 0, 0x0d, 0, 0, 0,
        0x18, 0, 0, 0, 0, 0, 0, 0, 2, 0x41, 0, 0, 0, 0, 0, 0, 1, 0, 0, 0, 0, 0, 0, 0, 0x64, 1, 2,
        3, 4, 0, 0, 0, 2, 0, 0, 0, 2, 0x61, 0, 0xff, 0xfe, 0, 0, 0, 1, 0, 0, 0, 3, 0x62, 0x63, 0,
    ],
    gives: Gives::Value("Struct([Str([97]), Short(-2), Seq([Str([98, 99])])])"),
};

/// The same context after them, and a body at 56.
const REPLY_1_2: Sample = Sample {
    name: "in_1_2",
    shape: Some(Shape::Struct),
    order: Order::Little,
    at: 0,
    octets: &[
        0x47, 0x49, 0x4f, 0x50, 1, 2, 1, 1, 0x3f, 0, 0, 0, 4, 3, 2, 1, 2, 0, 0, 0, 1, 0, 0, 0,
        0x0d, 0, 0, 0, 0x18, 0, 0, 0, 0, 0, 0, 0, 0, 0, 0, 2, 0x41, 0, 0, 0, 0, 0, 0, 1, 0, 0, 0,
        0, 0, 0, 0, 0x64, 2, 0, 0, 0, 0x61, 0, 0xfe, 0xff, 1, 0, 0, 0, 3, 0, 0, 0, 0x62, 0x63, 0,
    ],
    gives: Gives::Value("Struct([Str([97]), Short(-2), Seq([Str([98, 99])])])"),
};

/// A context of one octet, and nothing after it.
const REPLY_WITHOUT_BODY: Sample = Sample {
    name: "without_body",
    shape: None,
    order: Order::Big,
    at: 0,
    octets: &[
        0x47, 0x49, 0x4f, 0x50, 1, 2, 0, 1, 0, 0, 0, 0x15, 0, 0, 0, 1, 0, 0, 0, 0, 0, 0, 0, 1, 0,
        0, 0, 9, 0, 0, 0, 1, 5,
    ],
    gives: Gives::Value("Struct([])"),
};

/// Replies.
pub static REPLIES: [Sample; 3] = [REPLY_1_0, REPLY_1_2, REPLY_WITHOUT_BODY];

/// Replies that carry an exception, whose body begins with its id.
pub static EXCEPTIONS: [Sample; 2] = [REPLY_1_0, REPLY_1_2];

/// An id.
const CANCEL: Sample = Sample {
    name: "one",
    shape: None,
    order: Order::Big,
    at: 0,
    octets: &[0x47, 0x49, 0x4f, 0x50, 1, 2, 0, 2, 0, 0, 0, 4, 1, 2, 3, 4],
    gives: Gives::Value("Struct([])"),
};

/// CancelRequests.
pub static CANCELS: [Sample; 1] = [CANCEL];

/// A key of 48 octets.
const LOCATE_REQUEST_1_0: Sample = Sample {
    name: "by_key_in_1_0",
    shape: None,
    order: Order::Big,
    at: 0,
    octets: &[
        0x47, 0x49, 0x4f, 0x50, 1, 0, 0, 3, 0, 0, 0, 0x38, 1, 2, 3, 4, 0, 0, 0, 0x30, 0x6b, 0x6b,
        0x6b, 0x6b, 0x6b, 0x6b, 0x6b, 0x6b, 0x6b, 0x6b, 0x6b, 0x6b, 0x6b, 0x6b, 0x6b, 0x6b, 0x6b,
        0x6b, 0x6b, 0x6b, 0x6b, 0x6b, 0x6b, 0x6b, 0x6b, 0x6b, 0x6b, 0x6b, 0x6b, 0x6b, 0x6b, 0x6b,
        0x6b, 0x6b, 0x6b, 0x6b, 0x6b, 0x6b, 0x6b, 0x6b, 0x6b, 0x6b, 0x6b, 0x6b, 0x6b, 0x6b, 0x6b,
        0x6b,
    ],
    gives: Gives::Value("Struct([])"),
};

/// The same key after its discriminator.
const LOCATE_REQUEST_1_2: Sample = Sample {
    name: "by_key_in_1_2",
    shape: None,
    order: Order::Little,
    at: 0,
    octets: &[
        0x47, 0x49, 0x4f, 0x50, 1, 2, 1, 3, 0x3c, 0, 0, 0, 4, 3, 2, 1, 0, 0, 0, 0, 0x30, 0, 0, 0,
        0x6b, 0x6b, 0x6b, 0x6b, 0x6b, 0x6b, 0x6b, 0x6b, 0x6b, 0x6b, 0x6b, 0x6b, 0x6b, 0x6b, 0x6b,
        0x6b, 0x6b, 0x6b, 0x6b, 0x6b, 0x6b, 0x6b, 0x6b, 0x6b, 0x6b, 0x6b, 0x6b, 0x6b, 0x6b, 0x6b,
        0x6b, 0x6b, 0x6b, 0x6b, 0x6b, 0x6b, 0x6b, 0x6b, 0x6b, 0x6b, 0x6b, 0x6b, 0x6b, 0x6b, 0x6b,
        0x6b, 0x6b, 0x6b,
    ],
    gives: Gives::Value("Struct([])"),
};

/// A profile.
const LOCATE_REQUEST_BY_PROFILE: Sample = Sample {
    name: "by_profile",
    shape: None,
    order: Order::Big,
    at: 0,
    octets: &[
        0x47, 0x49, 0x4f, 0x50, 1, 2, 0, 3, 0, 0, 0, 0x23, 0, 0, 0, 2, 0, 1, 0, 0, 0, 0, 0, 0, 0,
        0, 0, 0x13, 1, 1, 0, 0, 2, 0, 0, 0, 0x68, 0, 1, 0, 3, 0, 0, 0, 0x6b, 0x65, 0x79,
    ],
    gives: Gives::Value("Struct([])"),
};

/// The second of a reference's two profiles.
const LOCATE_REQUEST_BY_REFERENCE: Sample = Sample {
    name: "by_reference",
    shape: None,
    order: Order::Big,
    at: 0,
    octets: &[
        0x47, 0x49, 0x4f, 0x50, 1, 2, 0, 3, 0, 0, 0, 0x3f, 0, 0, 0, 2, 0, 2, 0, 0, 0, 0, 0, 1, 0,
        0, 0, 2, 0x58, 0, 0, 0, 0, 0, 0, 2, 0, 0, 0, 1, 0, 0, 0, 2, 0xaa, 0xbb, 0, 0, 0, 0, 0, 0,
        0, 0, 0, 0x13, 1, 1, 0, 0, 2, 0, 0, 0, 0x68, 0, 1, 0, 3, 0, 0, 0, 0x6b, 0x65, 0x79,
    ],
    gives: Gives::Value("Struct([])"),
};

/// LocateRequests.
pub static LOCATE_REQUESTS: [Sample; 4] = [
    LOCATE_REQUEST_1_0,
    LOCATE_REQUEST_1_2,
    LOCATE_REQUEST_BY_PROFILE,
    LOCATE_REQUEST_BY_REFERENCE,
];

/// Three structs and a union after the status.
const LOCATE_REPLY_1_0: Sample = Sample {
    name: "in_1_0",
    shape: Some(Shape::Nested),
    order: Order::Big,
    at: 0,
    octets: &[
        0x47, 0x49, 0x4f, 0x50, 1, 0, 0, 4, 0, 0, 0, 0x36, 1, 2, 3, 4, 0, 0, 0, 2, 0, 0, 0, 3,
        0x78, 0, 0, 0, 0, 0, 0, 2, 0x61, 0, 0x78, 0, 0, 0, 0, 2, 0x62, 0, 0x78, 0, 0, 0, 0, 2,
        0x63, 0, 0, 1, 0, 0, 0, 1, 7, 0, 0, 0, 0, 0, 0, 2, 8, 9,
    ],
    gives: Gives::Value(
        "Struct([Seq([Struct([Char(120), Str([97])]), Struct([Char(120), Str([98])]), Struct([Char(120), Str([99])])]), Union(UShort(1), Some(Array([Octets([7]), Octets([8, 9])])))])",
    ),
};

/// The same, in which 1.2 has no gap either.
const LOCATE_REPLY_1_2: Sample = Sample {
    name: "in_1_2",
    shape: Some(Shape::Nested),
    order: Order::Little,
    at: 0,
    octets: &[
        0x47, 0x49, 0x4f, 0x50, 1, 2, 1, 4, 0x36, 0, 0, 0, 4, 3, 2, 1, 2, 0, 0, 0, 3, 0, 0, 0,
        0x78, 0, 0, 0, 2, 0, 0, 0, 0x61, 0, 0x78, 0, 2, 0, 0, 0, 0x62, 0, 0x78, 0, 2, 0, 0, 0,
        0x63, 0, 1, 0, 1, 0, 0, 0, 7, 0, 0, 0, 2, 0, 0, 0, 8, 9,
    ],
    gives: Gives::Value(
        "Struct([Seq([Struct([Char(120), Str([97])]), Struct([Char(120), Str([98])]), Struct([Char(120), Str([99])])]), Union(UShort(1), Some(Array([Octets([7]), Octets([8, 9])])))])",
    ),
};

/// The id and the status alone.
const LOCATE_REPLY_WITHOUT_BODY: Sample = Sample {
    name: "without_body",
    shape: None,
    order: Order::Big,
    at: 0,
    octets: &[
        0x47, 0x49, 0x4f, 0x50, 1, 2, 0, 4, 0, 0, 0, 8, 0, 0, 0, 1, 0, 0, 0, 1,
    ],
    gives: Gives::Value("Struct([])"),
};

/// LocateReplies.
pub static LOCATE_REPLIES: [Sample; 3] = [
    LOCATE_REPLY_1_0,
    LOCATE_REPLY_1_2,
    LOCATE_REPLY_WITHOUT_BODY,
];

/// A header alone.
const ERROR: Sample = Sample {
    name: "one",
    shape: None,
    order: Order::Big,
    at: 0,
    octets: &[0x47, 0x49, 0x4f, 0x50, 1, 0, 0, 6, 0, 0, 0, 0],
    gives: Gives::Value("Struct([])"),
};

/// MessageError.
pub static ERRORS: [Sample; 1] = [ERROR];

/// The client "A", with the number 1 for its request, up to the moment 100.
const CLIENT: Sample = Sample {
    name: "big",
    shape: None,
    order: Order::Big,
    at: 0,
    octets: &[
        0, 0, 0, 0, 0, 0, 0, 2, 0x41, 0, 0, 0, 0, 0, 0, 1, 0, 0, 0, 0, 0, 0, 0, 0x64,
    ],
    gives: Gives::Value("([65], 1, 100)"),
};

/// The client "ABCD", with the number -2, up to the moment 3.
const CLIENT_LITTLE: Sample = Sample {
    name: "little",
    shape: None,
    order: Order::Little,
    at: 0,
    octets: &[
        1, 0, 0, 0, 5, 0, 0, 0, 0x41, 0x42, 0x43, 0x44, 0, 0, 0, 0, 0xfe, 0xff, 0xff, 0xff, 0, 0,
        0, 0, 3, 0, 0, 0, 0, 0, 0, 0,
    ],
    gives: Gives::Value("([65, 66, 67, 68], -2, 3)"),
};

/// Contexts FT_REQUEST.
pub static CLIENTS: [Sample; 2] = [CLIENT, CLIENT_LITTLE];
