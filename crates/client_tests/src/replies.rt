//! What the messages of a server complete, and what is sent again after them.

use crate::clients::{Done, add, client, completes, feed_in_pieces, join};
use crate::octets::{
    ADD_7, ADD_8, ADD_8_FIRST, ADDRESSING_1, ADDRESSING_2, BAD_CONTEXT, CANCEL_1, CLOSE, EMPTY_1,
    ERROR, FIFTEEN, FIFTEEN_2, FIFTEEN_3, FORWARD_1, FORWARD_2, FORWARD_PERM_1, FORWARD_PERM_2,
    LOCATE_1, LOCATED_1, NIL, OVERFLOW, RAISED_1, RAISED_2, SEVEN, SEVEN_1, SEVEN_1_BROKEN,
    SEVEN_1_CLOSE_FIFTEEN_2, SEVEN_1_FIFTEEN_2, SEVEN_1_FIRST, SEVEN_1_LAST, SEVEN_1_LITTLE,
    SEVEN_LITTLE, SYSTEM_2, TOO_LARGE,
};
use crate::steps::are;
use cdr_core::Order;
use ft_client::FtClient;
use std::alloc::Global;
use std::process::Abort;
use std::test::Fail;

/// How many octets a piece has.
static SIZES: [usize; 3] = [1, 13, 4096];

/// Messages that come where calls 1 and 2 were sent again as requests 1 and 2: which calls they complete, in turn,
/// whether the client is connected then, and what is sent on the next connection.
struct Row {
    name: &'static str,
    messages: &'static [&'static [u8]],
    completed: &'static [(i32, Done)],
    is_connected: bool,
    again: &'static [&'static [u8]],
}

/// Call 1 returned 7.
const FIRST: (i32, Done) = (1, Done::Returned(Order::Big, SEVEN));

/// Call 2 returned 15.
const SECOND: (i32, Done) = (2, Done::Returned(Order::Big, FIFTEEN));

static ROWS: [Row; 22] = [
    Row {
        name: "a reply, and the same octets again",
        messages: &[SEVEN_1, SEVEN_1],
        completed: &[FIRST],
        is_connected: true,
        again: &[ADD_8_FIRST],
    },
    Row {
        name: "replies in another order",
        messages: &[FIFTEEN_2, SEVEN_1],
        completed: &[SECOND, FIRST],
        is_connected: true,
        again: &[],
    },
    Row {
        name: "two replies together",
        messages: &[SEVEN_1_FIFTEEN_2],
        completed: &[FIRST, SECOND],
        is_connected: true,
        again: &[],
    },
    Row {
        name: "a reply of 1.0 in little order",
        messages: &[SEVEN_1_LITTLE],
        completed: &[(1, Done::Returned(Order::Little, SEVEN_LITTLE))],
        is_connected: true,
        again: &[ADD_8_FIRST],
    },
    Row {
        name: "two frames of a reply, and another reply between them",
        messages: &[SEVEN_1_FIRST, FIFTEEN_2, SEVEN_1_LAST],
        completed: &[SECOND, FIRST],
        is_connected: true,
        again: &[],
    },
    Row {
        name: "a reply that is not whole",
        messages: &[SEVEN_1_FIRST],
        completed: &[],
        is_connected: true,
        again: &[ADD_7, ADD_8],
    },
    Row {
        name: "exceptions",
        messages: &[RAISED_1, SYSTEM_2],
        completed: &[(1, Done::Raised(OVERFLOW)), (2, Done::System(BAD_CONTEXT))],
        is_connected: true,
        again: &[],
    },
    Row {
        name: "replies without a body",
        messages: &[EMPTY_1, RAISED_2],
        completed: &[(1, Done::Returned(Order::Big, b"")), (2, Done::Raised(b""))],
        is_connected: true,
        again: &[],
    },
    Row {
        name: "replies that forward",
        messages: &[FORWARD_1, FORWARD_2],
        completed: &[(1, Done::Forwarded(NIL)), (2, Done::Forwarded(b""))],
        is_connected: true,
        again: &[],
    },
    Row {
        name: "replies that forward for good",
        messages: &[FORWARD_PERM_2, FORWARD_PERM_1],
        completed: &[(2, Done::Forwarded(b"")), (1, Done::Forwarded(NIL))],
        is_connected: true,
        again: &[],
    },
    Row {
        name: "replies that ask for another addressing",
        messages: &[ADDRESSING_1, ADDRESSING_2],
        completed: &[(1, Done::NeedsAddressing), (2, Done::NeedsAddressing)],
        is_connected: true,
        again: &[],
    },
    Row {
        name: "the reply to a locate",
        messages: &[LOCATED_1],
        completed: &[],
        is_connected: true,
        again: &[ADD_7, ADD_8],
    },
    Row {
        name: "a reply to no request",
        messages: &[FIFTEEN_3],
        completed: &[],
        is_connected: true,
        again: &[ADD_7, ADD_8],
    },
    Row {
        name: "a close, and a reply after it",
        messages: &[CLOSE, SEVEN_1],
        completed: &[],
        is_connected: false,
        again: &[ADD_7, ADD_8],
    },
    Row {
        name: "a close between two replies, together",
        messages: &[SEVEN_1_CLOSE_FIFTEEN_2],
        completed: &[FIRST],
        is_connected: false,
        again: &[ADD_8_FIRST],
    },
    Row {
        name: "an error",
        messages: &[FIFTEEN_2, ERROR],
        completed: &[SECOND],
        is_connected: false,
        again: &[ADD_7],
    },
    Row {
        name: "a request",
        messages: &[SEVEN_1, ADD_7, FIFTEEN_2],
        completed: &[FIRST],
        is_connected: false,
        again: &[ADD_8_FIRST],
    },
    Row {
        name: "a locate",
        messages: &[LOCATE_1],
        completed: &[],
        is_connected: false,
        again: &[ADD_7, ADD_8],
    },
    Row {
        name: "a cancel",
        messages: &[CANCEL_1],
        completed: &[],
        is_connected: false,
        again: &[ADD_7, ADD_8],
    },
    Row {
        name: "a fault after a reply, together",
        messages: &[SEVEN_1_BROKEN, FIFTEEN_2],
        completed: &[FIRST],
        is_connected: false,
        again: &[ADD_8_FIRST],
    },
    Row {
        name: "a message over the limit",
        messages: &[TOO_LARGE, SEVEN_1],
        completed: &[],
        is_connected: false,
        again: &[ADD_7, ADD_8],
    },
    Row {
        name: "nothing",
        messages: &[b""],
        completed: &[],
        is_connected: true,
        again: &[ADD_7, ADD_8],
    },
];

/// A client whose calls 1 and 2 were sent, and sent again on its second connection.
fn waiting(alloc: Global) -> Result<FtClient, Fail> {
    let mut one = client(alloc)?;
    let mut out = join(alloc, &mut one, 50)?;
    add(&mut one, 50, 7, &mut out)?;
    add(&mut one, 50, 8, &mut out)?;
    one.lost();
    let again = join(alloc, &mut one, 60)?;
    if !are(&out, &[ADD_7, ADD_8]) || !are(&again, &[ADD_7, ADD_8]) {
        return Err("other requests")?;
    }
    Ok(one)
}

/// Feeds messages, each in pieces of as many octets.
fn feed_all(one: &mut FtClient, row: &Row, size: usize) -> Result<(), Fail> {
    for message in row.messages {
        feed_in_pieces(one, message, size)?;
    }
    Ok(())
}

/// Whether messages give that, in pieces of as many octets.
fn gives(alloc: Global, row: &Row, size: usize) -> Result<bool, Fail> {
    let mut one = waiting(alloc)?;
    feed_all(&mut one, row, size)?;
    let is_left = one.is_connected() == row.is_connected;
    let is_completed = completes(&mut one, row.completed);
    one.lost();
    let again = join(alloc, &mut one, 70)?;
    Ok(is_left && is_completed && are(&again, row.again))
}

/// Asserts what each row gives in pieces of as many octets.
fn assert_rows(rt: &(impl Abort + AllocGlobal), size: usize) -> Result<(), Fail> {
    for row in &ROWS {
        let holds = gives(rt.alloc(), row, size)?;
        assert!(rt; holds, "{} by {size}", row.name);
    }
    Ok(())
}

#[test]
fn replies_complete_calls_in_pieces_of_any_size(rt: HostRuntime) -> Result<(), Fail> {
    for size in &SIZES {
        assert_rows(&rt, *size)?;
    }
    Ok(())
}
