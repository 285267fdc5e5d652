//! What a client writes for a call and a cancel, and what completes the call, written out from the layouts of the
//! standard.

use cdr_core::Order;
use trials::{Gives, Sample};

/// A Request of 1.2 with the id 1 for `add` of 7 at the key `c`, with FT_REQUEST: the client `A`, its call 1, the
/// expiration 100.
pub const ADD: &[u8] = b"GIOP\x01\x02\x00\x00\x00\x00\x00\x48\
    \x00\x00\x00\x01\x03\x00\x00\x00\x00\x00\x00\x00\x00\x00\x00\x01c\x00\x00\x00\
    \x00\x00\x00\x04add\x00\x00\x00\x00\x01\x00\x00\x00\x0d\x00\x00\x00\x18\
    \x00\x00\x00\x00\x00\x00\x00\x02A\x00\x00\x00\x00\x00\x00\x01\x00\x00\x00\x00\x00\x00\x00\x64\
    \x00\x00\x00\x00\x00\x00\x00\x07";

/// It is sent.
const SENT: Sample = Sample {
    name: "add",
    shape: None,
    order: Order::Big,
    at: 0,
    octets: ADD,
    gives: Gives::Value("()"),
};

/// A Reply of 1.2 with the id 1: TRANSIENT, minor code 0, COMPLETED_NO.
pub const TRANSIENT: &[u8] = b"GIOP\x01\x02\x00\x01\x00\x00\x00\x38\
    \x00\x00\x00\x01\x00\x00\x00\x02\x00\x00\x00\x00\
    \x00\x00\x00\x20IDL:omg.org/CORBA/TRANSIENT:1.0\x00\
    \x00\x00\x00\x00\x00\x00\x00\x01";

/// It is sent again on its connection, with the id 2.
const SENT_AGAIN: Sample = Sample {
    name: "add_again",
    shape: None,
    order: Order::Big,
    at: 0,
    octets: b"GIOP\x01\x02\x00\x00\x00\x00\x00\x48\
        \x00\x00\x00\x02\x03\x00\x00\x00\x00\x00\x00\x00\x00\x00\x00\x01c\x00\x00\x00\
        \x00\x00\x00\x04add\x00\x00\x00\x00\x01\x00\x00\x00\x0d\x00\x00\x00\x18\
        \x00\x00\x00\x00\x00\x00\x00\x02A\x00\x00\x00\x00\x00\x00\x01\x00\x00\x00\x00\x00\x00\x00\x64\
        \x00\x00\x00\x00\x00\x00\x00\x07",
    gives: Gives::Value("()"),
};

/// It is sent, and the same with the id 2, the client's call 2.
const SENT_TWICE: Sample = Sample {
    name: "add_twice",
    shape: None,
    order: Order::Big,
    at: 0,
    octets: b"GIOP\x01\x02\x00\x00\x00\x00\x00\x48\
        \x00\x00\x00\x01\x03\x00\x00\x00\x00\x00\x00\x00\x00\x00\x00\x01c\x00\x00\x00\
        \x00\x00\x00\x04add\x00\x00\x00\x00\x01\x00\x00\x00\x0d\x00\x00\x00\x18\
        \x00\x00\x00\x00\x00\x00\x00\x02A\x00\x00\x00\x00\x00\x00\x01\x00\x00\x00\x00\x00\x00\x00\x64\
        \x00\x00\x00\x00\x00\x00\x00\x07\
        GIOP\x01\x02\x00\x00\x00\x00\x00\x48\
        \x00\x00\x00\x02\x03\x00\x00\x00\x00\x00\x00\x00\x00\x00\x00\x01c\x00\x00\x00\
        \x00\x00\x00\x04add\x00\x00\x00\x00\x01\x00\x00\x00\x0d\x00\x00\x00\x18\
        \x00\x00\x00\x00\x00\x00\x00\x02A\x00\x00\x00\x00\x00\x00\x02\x00\x00\x00\x00\x00\x00\x00\x64\
        \x00\x00\x00\x00\x00\x00\x00\x07",
    gives: Gives::Value("()"),
};

/// No octets.
const NOTHING: Sample = Sample {
    name: "add",
    shape: None,
    order: Order::Big,
    at: 0,
    octets: &[],
    gives: Gives::Value("()"),
};

/// A Reply of 1.2 with the id 1: no exception, and 7 at 24.
const RETURNED: Sample = Sample {
    name: "reply",
    shape: None,
    order: Order::Big,
    at: 0,
    octets: b"GIOP\x01\x02\x00\x01\x00\x00\x00\x14\
        \x00\x00\x00\x01\x00\x00\x00\x00\x00\x00\x00\x00\x00\x00\x00\x00\x00\x00\x00\x07",
    gives: Gives::Value(
        "Some((1, Returned(ReplyBody { order: Big, at: 24, octets: [0, 0, 0, 0, 0, 0, 0, 7] })))",
    ),
};

/// The same Reply in a first piece and a Fragment, and a Reply that nobody waits for between them.
const CUT: Sample = Sample {
    name: "cut_reply",
    shape: None,
    order: Order::Big,
    at: 0,
    octets: b"GIOP\x01\x02\x02\x01\x00\x00\x00\x0c\x00\x00\x00\x01\x00\x00\x00\x00\x00\x00\x00\x00\
        GIOP\x01\x02\x00\x01\x00\x00\x00\x0c\x00\x00\x00\x02\x00\x00\x00\x00\x00\x00\x00\x00\
        GIOP\x01\x02\x00\x07\x00\x00\x00\x0c\x00\x00\x00\x01\x00\x00\x00\x00\x00\x00\x00\x07",
    gives: Gives::Value(
        "Some((1, Returned(ReplyBody { order: Big, at: 24, octets: [0, 0, 0, 0, 0, 0, 0, 7] })))",
    ),
};

/// The same Reply, the first piece of one that nobody waits for, and CloseConnection.
const CLOSED: Sample = Sample {
    name: "reply_and_close",
    shape: None,
    order: Order::Big,
    at: 0,
    octets: b"GIOP\x01\x02\x00\x01\x00\x00\x00\x14\
        \x00\x00\x00\x01\x00\x00\x00\x00\x00\x00\x00\x00\x00\x00\x00\x00\x00\x00\x00\x07\
        GIOP\x01\x02\x02\x01\x00\x00\x00\x0c\x00\x00\x00\x02\x00\x00\x00\x00\x00\x00\x00\x00\
        GIOP\x01\x00\x00\x05\x00\x00\x00\x00",
    gives: Gives::Value(
        "Some((1, Returned(ReplyBody { order: Big, at: 24, octets: [0, 0, 0, 0, 0, 0, 0, 7] })))",
    ),
};

/// A call that is sent.
pub static CALLED: [Sample; 1] = [SENT];

/// A call that is sent again.
pub static CALLED_AGAIN: [Sample; 1] = [SENT_AGAIN];

/// Two calls that are sent.
pub static CALLED_TWICE: [Sample; 1] = [SENT_TWICE];

/// A call that is not sent.
pub static UNSENT: [Sample; 1] = [NOTHING];

/// What completes a call.
pub static COMPLETED: [Sample; 3] = [RETURNED, CUT, CLOSED];
