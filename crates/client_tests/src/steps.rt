//! What is done with a client, step by step, and what each step gives.

use crate::clients::{Done, add, completes, is_body, join};
use cdr_core::{Order, Val};
use ft_client::{CallError, FtClient, RecallError, RedirectError};
use std::alloc::{AllocError, Global};
use std::process::Abort;
use std::test::Fail;

/// Messages, one after another.
pub(crate) type Messages = &'static [&'static [u8]];

/// A step, and what it gives.
pub(crate) enum Step {
    /// `add` of a number is called at a moment: the number of the call, and the messages that are written.
    Calls(u64, i32, Result<i32, CallError>, Messages),
    /// `add` of a number is taken up again under the first number at a moment: the error, if there is one, and the
    /// messages that are written.
    Recalls(u32, u64, i32, Option<RecallError>, Messages),
    /// Numbers up to this one were given before.
    Skips(u32),
    /// TRANSIENT leaves calls pending from now on, or completes them.
    Keeps(bool),
    /// A forward leaves calls pending from now on, or completes them.
    KeepsForwards(bool),
    /// The first call that is led elsewhere, and the octets of the reference.
    Leads(Option<(i32, &'static [u8])>),
    /// The call of the first number, `add` of the second, is redirected to the key `other`: the error, if there is one.
    Redirects(i32, i32, Option<RedirectError>),
    /// The client is connected at a moment: the messages that are written.
    Connects(u64, Messages),
    /// What is due is sent again at a moment: the messages that are written.
    Resends(u64, Messages),
    /// Octets come from the server.
    Hears(&'static [u8]),
    /// The connection is lost.
    Loses,
    /// A moment comes.
    Ticks(u64),
    /// A call is cancelled: whether it was pending, and the messages that are written.
    Cancels(i32, bool, Messages),
    /// The calls that have completed since, in their order.
    Completes(&'static [(i32, Done)]),
    /// Whether there is a connection.
    IsConnected(bool),
}

/// Whether octets are these messages, one after another.
pub(crate) fn are(octets: &[u8], messages: &[&[u8]]) -> bool {
    let mut left = octets;
    for message in messages {
        match left.strip_prefix(*message) {
            Some(rest) => left = rest,
            None => return false,
        }
    }
    left.is_empty()
}

/// Whether a call of `add` at a moment is given that number, and writes these messages.
fn calls(
    alloc: Global,
    client: &mut FtClient,
    (now, number): (u64, i32),
    wanted: Result<i32, CallError>,
    messages: &[&[u8]],
) -> bool {
    let mut out = Vec::new(alloc);
    add(client, now, number, &mut out) == wanted && are(&out, messages)
}

/// Whether a call of `add` that is taken up again at a moment gives that error or none, and writes these messages.
fn recalls(
    alloc: Global,
    client: &mut FtClient,
    (number, now, argument): (u32, u64, i32),
    wanted: Option<RecallError>,
    messages: &[&[u8]],
) -> bool {
    let mut out = Vec::new(alloc);
    let recalled = client.recall(
        number,
        now,
        b"c",
        b"add",
        &[Val::Long(argument)],
        100,
        &mut out,
    );
    recalled.err() == wanted && are(&out, messages)
}

/// Whether a client that is connected at a moment writes these messages.
fn connects(
    alloc: Global,
    client: &mut FtClient,
    now: u64,
    messages: &[&[u8]],
) -> Result<bool, Fail> {
    let out = join(alloc, client, now)?;
    Ok(are(&out, messages))
}

/// Whether a client writes these messages where it sends again at a moment what is due.
fn resends(
    alloc: Global,
    client: &mut FtClient,
    now: u64,
    messages: &[&[u8]],
) -> Result<bool, AllocError> {
    let mut out = Vec::new(alloc);
    client.resend(now, &mut out)?;
    Ok(are(&out, messages))
}

/// Whether a call is cancelled so, and these messages are written.
fn cancels(
    alloc: Global,
    client: &mut FtClient,
    id: i32,
    wanted: bool,
    messages: &[&[u8]],
) -> Result<bool, AllocError> {
    let mut out = Vec::new(alloc);
    Ok(client.cancel(id, &mut out)? == wanted && are(&out, messages))
}

/// Whether the first call that is led elsewhere is that, and to a reference of these octets.
fn leads(client: &FtClient, wanted: Option<(i32, &[u8])>) -> bool {
    match (client.forwarded(), wanted) {
        (Some((id, body)), Some((number, octets))) => {
            id == number && is_body(body, Order::Big, octets)
        }
        (None, None) => true,
        _ => false,
    }
}

/// Whether the redirection of a call of `add` gives that error, or none.
fn redirects(client: &mut FtClient, id: i32, argument: i32, wanted: Option<RedirectError>) -> bool {
    client
        .redirect(id, b"other", b"add", &[Val::Long(argument)])
        .err()
        == wanted
}

/// Takes a step, and says whether it gives what it should.
fn is_given(alloc: Global, client: &mut FtClient, step: &Step) -> Result<bool, Fail> {
    match step {
        Step::Calls(now, number, id, messages) => {
            return Ok(calls(alloc, client, (*now, *number), *id, messages));
        }
        Step::Recalls(number, now, argument, error, messages) => {
            return Ok(recalls(alloc, client, (*number, *now, *argument), *error, messages));
        }
        Step::Skips(number) => client.skip_to(*number),
        Step::Keeps(keeps) => client.keep_on_transient(*keeps),
        Step::KeepsForwards(keeps) => client.keep_on_forward(*keeps),
        Step::Leads(wanted) => return Ok(leads(client, *wanted)),
        Step::Redirects(id, argument, error) => {
            return Ok(redirects(client, *id, *argument, *error));
        }
        Step::Connects(now, messages) => return connects(alloc, client, *now, messages),
        Step::Resends(now, messages) => return Ok(resends(alloc, client, *now, messages)?),
        Step::Hears(octets) => client.feed(octets)?,
        Step::Loses => client.lost(),
        Step::Ticks(now) => client.tick(*now),
        Step::Cancels(id, wanted, messages) => {
            return Ok(cancels(alloc, client, *id, *wanted, messages)?);
        }
        Step::Completes(wanted) => return Ok(completes(client, wanted)),
        Step::IsConnected(wanted) => return Ok(client.is_connected() == *wanted),
    }
    Ok(true)
}

/// Asserts what each of these steps gives, one after another.
pub(crate) fn assert_given(
    rt: &(impl Abort + AllocGlobal),
    client: &mut FtClient,
    steps: &[Step],
) -> Result<(), Fail> {
    for (index, step) in steps.iter().enumerate() {
        let holds = is_given(rt.alloc(), client, step)?;
        assert!(rt; holds, "step {index}");
    }
    Ok(())
}
