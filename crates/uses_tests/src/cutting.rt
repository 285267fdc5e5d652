//! A client and a server, with the connection cut at every octet.

use ft_client::Ended;
use giop_frames::Limits;
use std::alloc::{AllocError, Global};
use std::hash::RandomState;
use std::process::Abort;
use std::test::Fail;
use uses::{AtCut, CuttingError, ticket_at_cut};

/// How the one call ended.
fn ending(completions: &[(u32, i32, Ended)]) -> &'static str {
    match completions {
        [(_, _, Ended::Returned(_))] => "returned",
        [(_, _, Ended::System(_))] => "refused",
        [(_, _, Ended::Expired)] => "expired",
        [] => "not ended",
        _ => "ended otherwise",
    }
}

/// Appends the line of a cut.
fn put_line(octet: u32, message: &str, cut: &AtCut, lines: &mut String) -> Result<(), AllocError> {
    let ending = ending(&cut.completions);
    let given = cut.given;
    write!(
        lines,
        "cut after octet {octet} of the {message}: {ending}, tickets given: {given}\n"
    )
}

/// A line for each cut of the request, after 0 to `count` of its octets.
fn request_lines(
    alloc: Global,
    hasher: RandomState,
    limits: Limits,
    count: u32,
) -> Result<String, CuttingError> {
    let mut lines = String::new(alloc);
    for octet in 0..=count {
        let cut = ticket_at_cut(alloc, hasher, limits, octet, 0)?;
        put_line(octet, "request", &cut, &mut lines)?;
    }
    Ok(lines)
}

/// A line for each cut of the reply, after the whole request and 0 to `count` octets of the reply.
fn reply_lines(
    alloc: Global,
    hasher: RandomState,
    limits: Limits,
    count: u32,
) -> Result<String, CuttingError> {
    let mut lines = String::new(alloc);
    for octet in 0..=count {
        let cut = ticket_at_cut(alloc, hasher, limits, u32::MAX, octet)?;
        put_line(octet, "reply", &cut, &mut lines)?;
    }
    Ok(lines)
}

/// How many octets the request takes.
const REQUEST: u32 = 84;

/// How many octets the reply takes.
const REPLY: u32 = 32;

/// The body of a reply that returns the unsigned long long 1.
const TICKET_1: &[u8] = &[0, 0, 0, 0, 0, 0, 0, 1];

/// Whether call 1 of the one client returned ticket 1, and no other was given.
fn is_ticket_1(cut: &AtCut) -> bool {
    match cut.completions.as_slice() {
        [(client, call, Ended::Returned(results))] => {
            *client == 0 && *call == 1 && results.octets.as_slice() == TICKET_1 && cut.given == 1
        }
        _ => false,
    }
}

#[test]
fn wherever_the_request_is_cut_ticket_1_is_given(rt: HostRuntime) -> Result<(), Fail> {
    let hasher = RandomState::new(&rt)?;
    for octet in 0..=REQUEST {
        let cut = ticket_at_cut(rt.alloc(), hasher, Limits::default(), octet, 0)?;
        assert!(rt; is_ticket_1(&cut), "after octet {octet}");
    }
    Ok(())
}

#[test]
fn wherever_the_reply_is_cut_ticket_1_is_given(rt: HostRuntime) -> Result<(), Fail> {
    let hasher = RandomState::new(&rt)?;
    for octet in 0..=REPLY {
        let cut = ticket_at_cut(rt.alloc(), hasher, Limits::default(), REQUEST, octet)?;
        assert!(rt; is_ticket_1(&cut), "after octet {octet}");
    }
    Ok(())
}

/// Whether a line says that the call returned where a message was cut there.
fn is_returned(alloc: Global, line: &str, octet: usize, message: &str) -> Result<bool, AllocError> {
    let expected = format!(in alloc;
        "cut after octet {octet} of the {message}: returned, tickets given: 1"
    )?;
    Ok(line == expected.as_str())
}

/// Asserts that each line of the cuts of a message says that the call returned, and how many lines there are.
fn assert_lines(
    rt: &(impl Abort + AllocGlobal),
    lines: &str,
    message: &str,
    count: usize,
) -> Result<(), Fail> {
    for (octet, line) in lines.lines().enumerate() {
        assert!(rt; is_returned(rt.alloc(), line, octet, message)?, "{line}");
    }
    assert!(rt; lines.lines().count() == count, "{message}");
    Ok(())
}

#[test]
fn each_cut_of_the_request_has_a_line(rt: HostRuntime) -> Result<(), Fail> {
    let hasher = RandomState::new(&rt)?;
    let lines = request_lines(rt.alloc(), hasher, Limits::default(), REQUEST)?;
    assert_lines(&rt, &lines, "request", 85)
}

#[test]
fn each_cut_of_the_reply_has_a_line(rt: HostRuntime) -> Result<(), Fail> {
    let hasher = RandomState::new(&rt)?;
    let lines = reply_lines(rt.alloc(), hasher, Limits::default(), REPLY)?;
    assert_lines(&rt, &lines, "reply", 33)
}
