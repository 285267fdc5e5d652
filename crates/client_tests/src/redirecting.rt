//! Forwards, and calls that are redirected.

use crate::clients::{Done, client};
use crate::octets::{
    ADD_7, ADD_8, FIFTEEN, FIFTEEN_2, FIFTEEN_3, FORWARD_1, FORWARD_2, FORWARD_PERM_1, NIL,
    OTHER_7, OTHER_7_THIRD, SEVEN_1,
};
use crate::steps::Step::{
    Calls, Cancels, Completes, Connects, Hears, KeepsForwards, Leads, Loses, Redirects, Resends,
    Ticks,
};
use crate::steps::{Step, assert_given};
use cdr_core::Order::Big;
use ft_client::RedirectError;
use std::test::Fail;

static COMPLETED: [Step; 6] = [
    Connects(50, &[]),
    Calls(50, 7, Ok(1), &[ADD_7]),
    Hears(FORWARD_1),
    Leads(None),
    Redirects(1, 7, Some(RedirectError::NotForwarded)),
    Completes(&[(1, Done::Forwarded(NIL))]),
];

#[test]
fn a_forward_completes_a_call(rt: HostRuntime) -> Result<(), Fail> {
    let mut one = client(rt.alloc())?;
    assert_given(&rt, &mut one, &COMPLETED)
}

static REDIRECTED: [Step; 16] = [
    KeepsForwards(true),
    Connects(50, &[]),
    Calls(50, 7, Ok(1), &[ADD_7]),
    Calls(50, 8, Ok(2), &[ADD_8]),
    Hears(FORWARD_1),
    Hears(SEVEN_1),
    Completes(&[]),
    Leads(Some((1, NIL))),
    Resends(60, &[]),
    Redirects(2, 8, Some(RedirectError::NotForwarded)),
    Redirects(1, 7, None),
    Leads(None),
    Resends(60, &[OTHER_7_THIRD]),
    Hears(FIFTEEN_3),
    Hears(FIFTEEN_2),
    Completes(&[
        (1, Done::Returned(Big, FIFTEEN)),
        (2, Done::Returned(Big, FIFTEEN)),
    ]),
];

#[test]
fn a_redirected_call_keeps_its_number(rt: HostRuntime) -> Result<(), Fail> {
    let mut one = client(rt.alloc())?;
    assert_given(&rt, &mut one, &REDIRECTED)
}

static ON_THE_NEXT: [Step; 11] = [
    KeepsForwards(true),
    Connects(50, &[]),
    Calls(50, 7, Ok(1), &[ADD_7]),
    Hears(FORWARD_PERM_1),
    Loses,
    Connects(60, &[]),
    Loses,
    Leads(Some((1, NIL))),
    Redirects(1, 7, None),
    Redirects(1, 7, Some(RedirectError::NotForwarded)),
    Connects(70, &[OTHER_7]),
];

#[test]
fn a_redirected_call_is_sent_on_the_next_connection(rt: HostRuntime) -> Result<(), Fail> {
    let mut one = client(rt.alloc())?;
    assert_given(&rt, &mut one, &ON_THE_NEXT)
}

static ENDED: [Step; 11] = [
    KeepsForwards(true),
    Connects(50, &[]),
    Calls(50, 7, Ok(1), &[ADD_7]),
    Calls(50, 8, Ok(2), &[ADD_8]),
    Hears(FORWARD_2),
    Hears(FORWARD_1),
    Cancels(1, true, &[]),
    Leads(Some((2, &[]))),
    Ticks(101),
    Redirects(2, 8, Some(RedirectError::NotForwarded)),
    Completes(&[(1, Done::Cancelled), (2, Done::Expired)]),
];

#[test]
fn a_call_that_is_led_elsewhere_is_cancelled_and_expires(rt: HostRuntime) -> Result<(), Fail> {
    let mut one = client(rt.alloc())?;
    assert_given(&rt, &mut one, &ENDED)
}

static UNKNOWN: [Step; 2] = [
    Redirects(0, 7, Some(RedirectError::NotForwarded)),
    Redirects(-1, 7, Some(RedirectError::NotForwarded)),
];

#[test]
fn a_number_without_a_call_is_not_redirected(rt: HostRuntime) -> Result<(), Fail> {
    let mut one = client(rt.alloc())?;
    assert_given(&rt, &mut one, &UNKNOWN)
}
