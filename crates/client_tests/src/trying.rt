//! TRANSIENT, and calls that are tried again.

use crate::clients::{Done, client};
use crate::octets::{
    ADD_7, ADD_7_THIRD, ADD_8, BAD_CONTEXT, FIFTEEN, FIFTEEN_2, FIFTEEN_3, SEVEN_1, SYSTEM_2,
    TRANSIENT, TRANSIENT_1, TRANSIENT_1_LITTLE, TRANSIENT_DONE, TRANSIENT_DONE_1,
};
use crate::steps::Step::{
    Calls, Cancels, Completes, Connects, Hears, Keeps, Loses, Resends, Ticks,
};
use crate::steps::{Step, assert_given};
use cdr_core::Order::Big;
use std::test::Fail;

static COMPLETED: [Step; 5] = [
    Connects(50, &[]),
    Calls(50, 7, Ok(1), &[ADD_7]),
    Hears(TRANSIENT_1),
    Completes(&[(1, Done::System(TRANSIENT))]),
    Resends(60, &[]),
];

#[test]
fn transient_completes_a_call(rt: HostRuntime) -> Result<(), Fail> {
    let mut one = client(rt.alloc())?;
    assert_given(&rt, &mut one, &COMPLETED)
}

static OTHERWISE_SET: [Step; 6] = [
    Keeps(true),
    Connects(50, &[]),
    Calls(50, 7, Ok(1), &[ADD_7]),
    Keeps(false),
    Hears(TRANSIENT_1),
    Completes(&[(1, Done::System(TRANSIENT))]),
];

#[test]
fn what_is_set_when_it_comes_counts(rt: HostRuntime) -> Result<(), Fail> {
    let mut one = client(rt.alloc())?;
    assert_given(&rt, &mut one, &OTHERWISE_SET)
}

static AGAIN: [Step; 13] = [
    Keeps(true),
    Connects(50, &[]),
    Calls(50, 7, Ok(1), &[ADD_7]),
    Calls(50, 8, Ok(2), &[ADD_8]),
    Resends(50, &[]),
    Hears(TRANSIENT_1),
    Hears(SEVEN_1),
    Completes(&[]),
    Resends(60, &[ADD_7_THIRD]),
    Resends(60, &[]),
    Hears(FIFTEEN_3),
    Hears(FIFTEEN_2),
    Completes(&[
        (1, Done::Returned(Big, FIFTEEN)),
        (2, Done::Returned(Big, FIFTEEN)),
    ]),
];

#[test]
fn a_call_is_tried_again_under_the_next_request_id(rt: HostRuntime) -> Result<(), Fail> {
    let mut one = client(rt.alloc())?;
    assert_given(&rt, &mut one, &AGAIN)
}

static ON_THE_NEXT: [Step; 7] = [
    Keeps(true),
    Connects(50, &[]),
    Calls(50, 7, Ok(1), &[ADD_7]),
    Hears(TRANSIENT_1_LITTLE),
    Loses,
    Resends(60, &[]),
    Connects(60, &[ADD_7]),
];

#[test]
fn a_call_is_tried_again_on_the_next_connection(rt: HostRuntime) -> Result<(), Fail> {
    let mut one = client(rt.alloc())?;
    assert_given(&rt, &mut one, &ON_THE_NEXT)
}

static TOO_LATE: [Step; 7] = [
    Keeps(true),
    Connects(50, &[]),
    Calls(50, 7, Ok(1), &[ADD_7]),
    Hears(TRANSIENT_1),
    Resends(101, &[]),
    Ticks(101),
    Completes(&[(1, Done::Expired)]),
];

#[test]
fn a_call_that_waits_for_its_next_try_expires(rt: HostRuntime) -> Result<(), Fail> {
    let mut one = client(rt.alloc())?;
    assert_given(&rt, &mut one, &TOO_LATE)
}

static CANCELLED: [Step; 7] = [
    Keeps(true),
    Connects(50, &[]),
    Calls(50, 7, Ok(1), &[ADD_7]),
    Hears(TRANSIENT_1),
    Cancels(1, true, &[]),
    Completes(&[(1, Done::Cancelled)]),
    Resends(60, &[]),
];

#[test]
fn a_call_that_waits_for_its_next_try_is_cancelled_without_a_word(
    rt: HostRuntime,
) -> Result<(), Fail> {
    let mut one = client(rt.alloc())?;
    assert_given(&rt, &mut one, &CANCELLED)
}

static ANOTHER: [Step; 6] = [
    Keeps(true),
    Connects(50, &[]),
    Calls(50, 7, Ok(1), &[ADD_7]),
    Calls(50, 8, Ok(2), &[ADD_8]),
    Hears(SYSTEM_2),
    Completes(&[(2, Done::System(BAD_CONTEXT))]),
];

#[test]
fn another_system_exception_completes_a_call(rt: HostRuntime) -> Result<(), Fail> {
    let mut one = client(rt.alloc())?;
    assert_given(&rt, &mut one, &ANOTHER)
}

static DONE: [Step; 5] = [
    Keeps(true),
    Connects(50, &[]),
    Calls(50, 7, Ok(1), &[ADD_7]),
    Hears(TRANSIENT_DONE_1),
    Completes(&[(1, Done::System(TRANSIENT_DONE))]),
];

#[test]
fn transient_of_what_was_completed_completes_a_call(rt: HostRuntime) -> Result<(), Fail> {
    let mut one = client(rt.alloc())?;
    assert_given(&rt, &mut one, &DONE)
}
