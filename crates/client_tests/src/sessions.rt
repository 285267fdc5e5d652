//! Replies that come late, or on another connection.

use crate::clients::{Done, client};
use crate::octets::{
    ADD_7, ADD_8, ADD_8_FIRST, CANCEL_1, FIFTEEN, FIFTEEN_2, LOCATED_1, SEVEN, SEVEN_1, SEVEN_1_CUT,
};
use crate::steps::Step::{Calls, Cancels, Completes, Connects, Hears, IsConnected, Loses, Ticks};
use crate::steps::{Step, assert_given};
use cdr_core::Order::Big;
use std::test::Fail;

static CANCELLED: [Step; 8] = [
    Connects(50, &[]),
    Calls(50, 7, Ok(1), &[ADD_7]),
    Cancels(1, true, &[CANCEL_1]),
    Hears(SEVEN_1),
    Completes(&[(1, Done::Cancelled)]),
    Cancels(1, false, &[]),
    Loses,
    Connects(60, &[]),
];

#[test]
fn a_cancelled_call_is_completed_once(rt: HostRuntime) -> Result<(), Fail> {
    let mut one = client(rt.alloc())?;
    assert_given(&rt, &mut one, &CANCELLED)
}

static WITHOUT_A_WORD: [Step; 7] = [
    Connects(50, &[]),
    Calls(50, 7, Ok(1), &[ADD_7]),
    Calls(50, 8, Ok(2), &[ADD_8]),
    Loses,
    Cancels(1, true, &[]),
    Connects(60, &[ADD_8_FIRST]),
    Completes(&[(1, Done::Cancelled)]),
];

#[test]
fn a_call_that_is_not_sent_is_cancelled_without_a_word(rt: HostRuntime) -> Result<(), Fail> {
    let mut one = client(rt.alloc())?;
    assert_given(&rt, &mut one, &WITHOUT_A_WORD)
}

static LATE: [Step; 9] = [
    Connects(50, &[]),
    Calls(50, 7, Ok(1), &[ADD_7]),
    Hears(LOCATED_1),
    Ticks(100),
    Completes(&[]),
    Ticks(101),
    Hears(SEVEN_1),
    Completes(&[(1, Done::Expired)]),
    IsConnected(true),
];

#[test]
fn a_late_reply_to_an_expired_call_completes_nothing(rt: HostRuntime) -> Result<(), Fail> {
    let mut one = client(rt.alloc())?;
    assert_given(&rt, &mut one, &LATE)
}

static OWN_CONNECTION: [Step; 11] = [
    Connects(50, &[]),
    Calls(50, 7, Ok(1), &[ADD_7]),
    Calls(50, 8, Ok(2), &[ADD_8]),
    Hears(SEVEN_1),
    Completes(&[(1, Done::Returned(Big, SEVEN))]),
    Loses,
    Connects(60, &[ADD_8_FIRST]),
    Hears(FIFTEEN_2),
    Completes(&[]),
    Hears(SEVEN_1),
    Completes(&[(2, Done::Returned(Big, SEVEN))]),
];

#[test]
fn a_reply_counts_for_the_request_of_its_own_connection(rt: HostRuntime) -> Result<(), Fail> {
    let mut one = client(rt.alloc())?;
    assert_given(&rt, &mut one, &OWN_CONNECTION)
}

static GO_ON: [Step; 6] = [
    Connects(50, &[]),
    Calls(50, 7, Ok(1), &[ADD_7]),
    Hears(SEVEN_1),
    Calls(50, 8, Ok(2), &[ADD_8]),
    Hears(FIFTEEN_2),
    Completes(&[
        (1, Done::Returned(Big, SEVEN)),
        (2, Done::Returned(Big, FIFTEEN)),
    ]),
];

#[test]
fn request_ids_go_on_after_a_reply(rt: HostRuntime) -> Result<(), Fail> {
    let mut one = client(rt.alloc())?;
    assert_given(&rt, &mut one, &GO_ON)
}

static WITHOUT_A_CONNECTION: [Step; 6] = [
    Connects(50, &[]),
    Calls(50, 7, Ok(1), &[ADD_7]),
    Loses,
    Hears(SEVEN_1),
    Completes(&[]),
    Connects(60, &[ADD_7]),
];

#[test]
fn a_client_without_a_connection_hears_nothing(rt: HostRuntime) -> Result<(), Fail> {
    let mut one = client(rt.alloc())?;
    assert_given(&rt, &mut one, &WITHOUT_A_CONNECTION)
}

static HALF_A_REPLY: [Step; 7] = [
    Connects(50, &[]),
    Calls(50, 7, Ok(1), &[ADD_7]),
    Hears(SEVEN_1_CUT),
    Loses,
    Connects(60, &[ADD_7]),
    Hears(b"\x07"),
    Completes(&[]),
];

#[test]
fn half_a_reply_goes_with_its_connection(rt: HostRuntime) -> Result<(), Fail> {
    let mut one = client(rt.alloc())?;
    assert_given(&rt, &mut one, &HALF_A_REPLY)
}
