//! Calls: what is sent, and sent again.

use crate::clients::{Done, client, client_of};
use crate::octets::{ADD_7, ADD_7_1_0, ADD_8, ADD_8_1_0, ADD_8_FIRST_1_0, CANCEL_1_1_0};
use crate::steps::Step::{Calls, Cancels, Completes, Connects, Loses, Recalls, Skips, Ticks};
use crate::steps::{Step, assert_given};
use ft_client::{CallError, RecallError};
use giop_core::Version;
use std::test::Fail;

static AGAIN: [Step; 8] = [
    Connects(50, &[]),
    Calls(50, 7, Ok(1), &[ADD_7]),
    Loses,
    Connects(60, &[ADD_7]),
    Loses,
    Connects(101, &[]),
    Ticks(101),
    Completes(&[(1, Done::Expired)]),
];

#[test]
fn a_call_is_sent_again(rt: HostRuntime) -> Result<(), Fail> {
    let mut one = client(rt.alloc())?;
    assert_given(&rt, &mut one, &AGAIN)
}

static TOO_LATE: [Step; 2] = [
    Calls(101, 7, Err(CallError::Expired), &[]),
    Calls(100, 7, Ok(1), &[]),
];

#[test]
fn an_expired_call_is_refused(rt: HostRuntime) -> Result<(), Fail> {
    let mut one = client(rt.alloc())?;
    assert_given(&rt, &mut one, &TOO_LATE)
}

static EXPIRES: [Step; 8] = [
    Connects(50, &[]),
    Calls(50, 7, Ok(1), &[ADD_7]),
    Ticks(100),
    Completes(&[]),
    Ticks(101),
    Completes(&[(1, Done::Expired)]),
    Loses,
    Connects(60, &[]),
];

#[test]
fn a_call_expires(rt: HostRuntime) -> Result<(), Fail> {
    let mut one = client(rt.alloc())?;
    assert_given(&rt, &mut one, &EXPIRES)
}

static WAITS: [Step; 3] = [
    Calls(50, 7, Ok(1), &[]),
    Calls(50, 8, Ok(2), &[]),
    Connects(50, &[ADD_7, ADD_8]),
];

#[test]
fn calls_wait_for_a_connection(rt: HostRuntime) -> Result<(), Fail> {
    let mut one = client(rt.alloc())?;
    assert_given(&rt, &mut one, &WAITS)
}

static ANOTHER_ID: [Step; 6] = [
    Connects(50, &[]),
    Calls(50, 7, Ok(1), &[ADD_7_1_0]),
    Calls(50, 8, Ok(2), &[ADD_8_1_0]),
    Cancels(1, true, &[CANCEL_1_1_0]),
    Loses,
    Connects(60, &[ADD_8_FIRST_1_0]),
];

#[test]
fn a_call_of_1_0_is_sent_again_under_another_id(rt: HostRuntime) -> Result<(), Fail> {
    let mut one = client_of(rt.alloc(), Version::V10)?;
    assert_given(&rt, &mut one, &ANOTHER_ID)
}

static TAKEN_UP: [Step; 5] = [
    Recalls(1, 50, 7, None, &[]),
    Recalls(1, 50, 7, Some(RecallError::NumberUsed), &[]),
    Recalls(2, 101, 7, Some(RecallError::Expired), &[]),
    Connects(50, &[ADD_7]),
    Recalls(2, 50, 8, None, &[ADD_8]),
];

#[test]
fn calls_of_before_are_sent_under_their_numbers(rt: HostRuntime) -> Result<(), Fail> {
    let mut one = client(rt.alloc())?;
    assert_given(&rt, &mut one, &TAKEN_UP)
}

static SKIPPED: [Step; 6] = [
    Skips(2_147_483_645),
    Skips(5),
    Skips(2_147_483_648),
    Calls(50, 7, Ok(2_147_483_646), &[]),
    Recalls(2_147_483_647, 50, 7, None, &[]),
    Calls(50, 7, Err(CallError::IdsUsed), &[]),
];

#[test]
fn numbers_are_skipped(rt: HostRuntime) -> Result<(), Fail> {
    let mut one = client(rt.alloc())?;
    assert_given(&rt, &mut one, &SKIPPED)
}
