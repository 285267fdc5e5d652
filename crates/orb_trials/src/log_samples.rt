//! The clients and the values that a log keeps.

use cdr_core::Order;
use trials::{Gives, Sample, Shape};

/// The client "AB".
const KEY: Sample = Sample {
    name: "one",
    shape: None,
    order: Order::Big,
    at: 0,
    octets: b"AB",
    gives: Gives::Value("Key { client_id: [65, 66], retention_id: -7 }"),
};

/// Clients, and the keys of requests of theirs.
pub static KEYS: [Sample; 1] = [KEY];

/// "a", -2 and a sequence of "bc".
const RESULTS: Sample = Sample {
    name: "struct",
    shape: Some(Shape::Struct),
    order: Order::Big,
    at: 0,
    octets: &[
        0, 0, 0, 2, b'a', 0, 0xff, 0xfe, 0, 0, 0, 1, 0, 0, 0, 3, b'b', b'c', 0,
    ],
    gives: Gives::Value("Returned([Str([97]), Short(-2), Seq([Str([98, 99])])])"),
};

/// Structs, and their members as results.
pub static RETURNED: [Sample; 1] = [RESULTS];

/// The same as the members of an exception "X".
const MEMBERS: Sample = Sample {
    name: "struct",
    shape: Some(Shape::Struct),
    order: Order::Big,
    at: 0,
    octets: &[
        0, 0, 0, 2, b'a', 0, 0xff, 0xfe, 0, 0, 0, 1, 0, 0, 0, 3, b'b', b'c', 0,
    ],
    gives: Gives::Value("Raised([88], [Str([97]), Short(-2), Seq([Str([98, 99])])])"),
};

/// Structs, and their members as those of an exception.
pub static RAISED: [Sample; 1] = [MEMBERS];
