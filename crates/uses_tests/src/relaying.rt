//! A server behind, which is asked for each call once.

use crate::octets::{RETURNED, SAVINGS_OVERDRAWN};
use crate::relayed::{
    BAD_OPERATION, BODILESS, CLOSE, FORWARD, FORWARD_BEHIND, IMP_LIMIT, LITTLE, LITTLE_BEHIND,
    OVERDRAW, REPLY_10, REPLY_12, SAVE_10, SAVE_AGAIN, SAVE_LITTLE, SAVE_ONCE, SENT, SENT_LITTLE,
    THOUSAND, THOUSAND_BEHIND, UNKNOWN,
};
use cdr_core::Order;
use ft_log::{Completion, Outcome, RawStatus, Retention, SystemName};
use ft_orb::{Event, Server};
use giop_frames::Limits;
use std::alloc::{AllocError, Global};
use std::hash::RandomState;
use std::test::Fail;
use uses::{Back, Behind, Relay, Savings, read_reply, serve_relay};

/// A server behind that writes these octets for each request, and keeps those that it was sent.
#[derive(Drop)]
struct Scripted {
    writes: &'static [u8],
    sent: Vec<Vec<u8>>,
}

/// Equal octets, or none where an allocation fails.
fn copied(alloc: Global, octets: &[u8]) -> Vec<u8> {
    match Vec::from_slice(alloc, octets) {
        Ok(copy) => copy,
        Err(AllocError) => Vec::new(alloc),
    }
}

impl Back for Scripted {
    ghost use Rattle.std.specs.Prelude.{None};

    ghost exchanges = { λ _. None };

    fn exchange(&mut self, alloc: Global, request: &[u8]) -> Vec<u8> {
        if self.sent.push(copied(alloc, request)).is_err() {
            return Vec::new(alloc);
        }
        copied(alloc, self.writes)
    }
}

/// Savings behind, whose connection may be lost while they perform.
#[derive(Drop)]
struct Remote {
    savings: Behind<Savings>,
    is_heard: bool,
}

impl Back for Remote {
    ghost use Rattle.std.specs.Prelude.{None};

    ghost exchanges = { λ _. None };

    fn exchange(&mut self, alloc: Global, request: &[u8]) -> Vec<u8> {
        let written = self.savings.exchange(alloc, request);
        if self.is_heard {
            return written;
        }
        Vec::new(alloc)
    }
}

/// Savings behind.
fn savings(rt: &HostRuntime) -> Result<Behind<Savings>, Fail> {
    let alloc = rt.alloc();
    let hasher = RandomState::new(rt)?;
    let limits = Limits::default();
    let retention = Retention {
        capacity: 100,
        share: 10,
    };
    let server = Server::new(alloc, Savings::new(alloc)?, limits, retention, hasher);
    Ok(Behind::new(server))
}

/// Requests that come on connection 1, which is lost then, and others on connection 2.
fn over_two(alloc: Global, first: &[&[u8]], second: &[&[u8]]) -> Result<Vec<Event>, AllocError> {
    let mut events = vec![in alloc; Event::Opened(1)]?;
    for request in first {
        events.push(Event::Piece(1, 50, Vec::from_slice(alloc, request)?))?;
    }
    events.push(Event::Lost(1))?;
    events.push(Event::Opened(2))?;
    for request in second {
        events.push(Event::Piece(2, 60, Vec::from_slice(alloc, request)?))?;
    }
    Ok(events)
}

/// What is answered to these events, one after another.
fn answers<B: Back + Drop>(
    rt: &HostRuntime,
    relay: &mut Relay<B>,
    events: &[Event],
) -> Result<Vec<Vec<u8>>, Fail> {
    let hasher = RandomState::new(rt)?;
    let limits = Limits::default();
    let mut written = Vec::new(rt.alloc());
    serve_relay(
        rt.alloc(),
        hasher,
        limits,
        b"savings",
        relay,
        events,
        &mut written,
    )?;
    written.retain(|octets| !octets.is_empty());
    Ok(written)
}

/// What is answered to these events before savings, and the balance after them.
fn saved(rt: &HostRuntime, is_heard: bool, events: &[Event]) -> Result<(Vec<Vec<u8>>, i64), Fail> {
    let back = Remote {
        savings: savings(rt)?,
        is_heard,
    };
    let mut relay = Relay::new(back, Limits::default());
    let written = answers(rt, &mut relay, events)?;
    Ok((written, relay.back().savings.servant().balance()))
}

/// The Reply of 1.2 with an id that returns an amount.
fn returned(alloc: Global, id: u32, cents: i64) -> Result<Vec<u8>, AllocError> {
    let mut octets = Vec::from_slice(alloc, RETURNED)?;
    octets[12..16].copy_from_slice(&id.to_be_bytes());
    octets.extend_from_slice(&cents.to_be_bytes())?;
    Ok(octets)
}

#[test]
fn a_call_that_comes_again_is_forwarded_once(rt: HostRuntime) -> Result<(), Fail> {
    let alloc = rt.alloc();
    let events = over_two(alloc, &[SAVE_ONCE], &[SAVE_AGAIN, SAVE_LITTLE, SAVE_10])?;
    let (written, balance) = saved(&rt, true, &events)?;
    let expected = vec![in alloc;
        returned(alloc, 5, 1000)?,
        returned(alloc, 6, 1000)?,
        returned(alloc, 5, 3000)?,
        Vec::from_slice(alloc, IMP_LIMIT)?,
    ]?;
    assert!(rt; written == expected);
    assert_eq!(rt; balance, 3000);
    Ok(())
}

#[test]
fn exceptions_are_handed_on(rt: HostRuntime) -> Result<(), Fail> {
    let alloc = rt.alloc();
    let events = over_two(alloc, &[OVERDRAW, CLOSE], &[])?;
    let (written, balance) = saved(&rt, true, &events)?;
    let mut overdrawn = Vec::from_slice(alloc, SAVINGS_OVERDRAWN)?;
    overdrawn.extend_from_slice(&0i64.to_be_bytes())?;
    let expected = vec![in alloc; overdrawn, Vec::from_slice(alloc, BAD_OPERATION)?]?;
    assert!(rt; written == expected);
    assert_eq!(rt; balance, 0);
    Ok(())
}

#[test]
fn what_a_lost_server_performed_is_not_asked_again(rt: HostRuntime) -> Result<(), Fail> {
    let alloc = rt.alloc();
    let events = over_two(alloc, &[SAVE_ONCE], &[SAVE_ONCE])?;
    let (written, balance) = saved(&rt, false, &events)?;
    let expected = vec![in alloc;
        Vec::from_slice(alloc, UNKNOWN)?,
        Vec::from_slice(alloc, UNKNOWN)?,
    ]?;
    assert!(rt; written == expected);
    assert_eq!(rt; balance, 1000);
    Ok(())
}

/// A request that comes on two connections, what the server behind writes for it, what that server was sent once, and
/// what is answered twice.
type Row = (&'static [u8], &'static [u8], &'static [u8], &'static [u8]);

static ROWS: [Row; 4] = [
    (SAVE_ONCE, THOUSAND_BEHIND, SENT, THOUSAND),
    (SAVE_LITTLE, LITTLE_BEHIND, SENT_LITTLE, LITTLE),
    (SAVE_ONCE, FORWARD_BEHIND, SENT, FORWARD),
    (SAVE_ONCE, b"GIOP\x01\x02", SENT, UNKNOWN),
];

#[test]
fn requests_and_replies_are_written_anew(rt: HostRuntime) -> Result<(), Fail> {
    let alloc = rt.alloc();
    for (request, writes, sent, answer) in &ROWS {
        let events = over_two(alloc, &[request], &[request])?;
        let back = Scripted {
            writes,
            sent: Vec::new(alloc),
        };
        let mut relay = Relay::new(back, Limits::default());
        let written = answers(&rt, &mut relay, &events)?;
        let expected = vec![in alloc;
            Vec::from_slice(alloc, answer)?,
            Vec::from_slice(alloc, answer)?,
        ]?;
        assert!(rt; written == expected);
        assert!(rt; relay.back().sent == vec![in alloc; Vec::from_slice(alloc, sent)?]?);
    }
    Ok(())
}

/// What is reported of a request: octets of a status and an order, a system exception, or nothing.
#[derive(Clone, Copy)]
enum Told {
    Octets(RawStatus, Order, &'static [u8]),
    System(SystemName, Completion),
    Nothing,
}

/// Whether that was reported.
fn is_told(told: &Option<Outcome>, wanted: Told) -> bool {
    match (told, wanted) {
        (Some(Outcome::Raw(status, order, octets)), Told::Octets(s, o, body)) => {
            *status == s && *order == o && octets.as_slice() == body
        }
        (Some(Outcome::System(name, 0, completion)), Told::System(n, c)) => {
            *name == n && *completion == c
        }
        (None, Told::Nothing) => true,
        _ => false,
    }
}

/// Nobody can tell what came of it.
const MAYBE: Told = Told::System(SystemName::Unknown, Completion::Maybe);

/// IMP_LIMIT with this completion.
const YES: Told = Told::System(SystemName::ImpLimit, Completion::Yes);

const NO: Told = Told::System(SystemName::ImpLimit, Completion::No);

const PERHAPS: Told = Told::System(SystemName::ImpLimit, Completion::Maybe);

/// The body of a reply: an unsigned long.
const SEVEN: &[u8] = b"\x00\x00\x00\x07";

/// The status of a Reply to request 1, and what it reports: in 1.2, where the body stands at the place 24, and in 1.0 after
/// a context, where it stands at 36.
static STATUSES: [(u32, Told, Told); 6] = [
    (
        0,
        Told::Octets(RawStatus::NoException, Order::Big, SEVEN),
        YES,
    ),
    (
        1,
        Told::Octets(RawStatus::UserException, Order::Big, SEVEN),
        YES,
    ),
    (
        2,
        Told::Octets(RawStatus::SystemException, Order::Big, SEVEN),
        PERHAPS,
    ),
    (
        3,
        Told::Octets(RawStatus::LocationForward, Order::Big, SEVEN),
        NO,
    ),
    (4, NO, MAYBE),
    (5, NO, MAYBE),
];

/// A Reply with a status and the body.
fn reply(alloc: Global, before: &[u8], status: u32, between: &[u8]) -> Result<Vec<u8>, AllocError> {
    let mut octets = Vec::from_slice(alloc, before)?;
    octets.extend_from_slice(&status.to_be_bytes())?;
    octets.extend_from_slice(between)?;
    octets.extend_from_slice(SEVEN)?;
    Ok(octets)
}

#[test]
fn each_status_is_told(rt: HostRuntime) -> Result<(), Fail> {
    let alloc = rt.alloc();
    for (status, whole, misplaced) in &STATUSES {
        let octets = reply(alloc, REPLY_12, *status, b"\x00\x00\x00\x00")?;
        let told = read_reply(alloc, Limits::default(), 1, &octets)?;
        assert!(rt; is_told(&told, *whole), "{status} of 1.2");
        let octets = reply(alloc, REPLY_10, *status, b"")?;
        let told = read_reply(alloc, Limits::default(), 1, &octets)?;
        assert!(rt; is_told(&told, *misplaced), "{status} of 1.0");
    }
    Ok(())
}

/// Octets that a server behind writes for request 1, and what they report.
static OTHERS: [(&[u8], Told); 7] = [
    // CloseConnection, and MessageError
    (b"GIOP\x01\x00\x00\x05\x00\x00\x00\x00", Told::Nothing),
    (b"GIOP\x01\x00\x00\x06\x00\x00\x00\x00", MAYBE),
    // a Reply to request 5, and one to request 1 in 1.0 with a context and no body
    (THOUSAND, MAYBE),
    (
        BODILESS,
        Told::Octets(RawStatus::NoException, Order::Big, b""),
    ),
    // a Request, no message, and nothing
    (SAVE_ONCE, MAYBE),
    (b"HTTP/1.1 200", MAYBE),
    (b"", MAYBE),
];

#[test]
fn each_first_message_is_told(rt: HostRuntime) -> Result<(), Fail> {
    let alloc = rt.alloc();
    for (octets, wanted) in &OTHERS {
        let told = read_reply(alloc, Limits::default(), 1, octets)?;
        assert!(rt; is_told(&told, *wanted), "{octets:?}");
    }
    Ok(())
}
