//! Links of clients: which ids are given, which answers are lent, and how a link ends.

ghost use Rattle.std.specs.Prelude.{◌≡◌};

use crate::client_rows::{
    CANCEL_1, CLOSE, Came, ERROR, LOCATE_1, LOCATED_1, ONEWAY_3, REPLY_1, REPLY_1_FIRST, REQUEST_1,
    ROWS, Row,
};
use cdr_core::Val;
use giop_core::{ReplyWish, Target, Version};
use giop_frames::Limits;
use giop_link::{ClientLink, Delivery, LinkFault, SendError};
use std::alloc::Global;
use std::process::Abort;
use std::test::Fail;
use trials::misprinted;

/// How many octets a piece has.
static SIZES: [usize; 3] = [1, 13, 4096];

/// Whether that is lent.
fn is_lent(delivery: &Delivery, came: Came) -> bool {
    match (delivery, came) {
        (Delivery::Reply(id, status, body), Came::Reply(wanted, number, octets))
        | (Delivery::Located(id, status, body), Came::Located(wanted, number, octets)) => {
            *id == wanted && *status == number && body.octets == octets
        }
        (Delivery::Forward(id, body), Came::Forward(wanted, octets)) => {
            *id == wanted && body.octets == octets
        }
        (Delivery::NeedsAddressing(id), Came::NeedsAddressing(wanted)) => *id == wanted,
        (Delivery::Closed, Came::Closed) | (Delivery::PeerError, Came::PeerError) => true,
        _ => false,
    }
}

/// Feeds a piece, and takes what is lent off those that are to come. An error is why the link has ended, if
/// that came in turn, or none where something else was lent.
fn feed_piece<'r>(
    link: &mut ClientLink,
    piece: &[u8],
    to_come: &'r [Came],
) -> Result<&'r [Came], Option<LinkFault>> {
    let mut left = piece;
    let mut to_come = to_come;
    for _ in 0..piece.len() {
        let taken = match link.feed(left) {
            Ok(taken) => taken,
            Err(fault) => return Err(to_come.is_empty().then_some(fault)),
        };
        if let Some(delivery) = link.delivery() {
            match to_come.split_first() {
                Some((came, later)) if is_lent(&delivery, *came) => to_come = later,
                _ => return Err(None),
            }
        }
        left = left.split_at(taken).1;
        if left.is_empty() {
            break;
        }
    }
    Ok(to_come)
}

/// Feeds messages in pieces of as many octets. What is still to come, or why the link has ended.
fn feed_all(link: &mut ClientLink, row: &Row, size: usize) -> Result<usize, Option<LinkFault>> {
    let mut to_come = row.came;
    for message in row.messages {
        for piece in message.chunks(size.max(1)) {
            to_come = feed_piece(link, piece, to_come)?;
        }
    }
    Ok(to_come.len())
}

/// Sends a request with that wish, key `c`, operation `add` and the octets 0 0 0 7.
#[tactic(auto, using(crate::proofs::Asked::full_can_ask, crate::proofs::Asked::key_can_address))]
fn ask(link: &mut ClientLink, out: &mut Vec<u8>) -> Result<u32, SendError> {
    link.send_request(
        ReplyWish::Full,
        &Target::Key(b"c"),
        b"add",
        &[],
        &[Val::ULong(7)],
        out,
    )
}

/// The same, where no reply is wanted.
#[tactic(auto, using(crate::proofs::Asked::none_can_ask, crate::proofs::Asked::key_can_address))]
fn tell(link: &mut ClientLink, out: &mut Vec<u8>) -> Result<u32, SendError> {
    link.send_request(
        ReplyWish::None,
        &Target::Key(b"c"),
        b"add",
        &[],
        &[Val::ULong(7)],
        out,
    )
}

/// Asks for the place of key `c`.
#[tactic(auto, using(crate::proofs::Asked::key_can_address))]
fn locate(link: &mut ClientLink, out: &mut Vec<u8>) -> Result<u32, SendError> {
    link.send_locate(&Target::Key(b"c"), out)
}

/// A link on which ids 1 and 4 wait for a reply and 2 for a locate's.
fn waiting(alloc: Global) -> Result<ClientLink, SendError> {
    let mut link = ClientLink::new(alloc, Limits::default(), Version::V12, 4);
    let mut out = Vec::new(alloc);
    ask(&mut link, &mut out)?;
    locate(&mut link, &mut out)?;
    tell(&mut link, &mut out)?;
    ask(&mut link, &mut out)?;
    Ok(link)
}

/// Whether messages give that, in pieces of as many octets.
fn gives(alloc: Global, row: &Row, size: usize) -> Result<bool, SendError> {
    let mut link = waiting(alloc)?;
    let is_given = match feed_all(&mut link, row, size) {
        Ok(to_come) => to_come == 0 && row.fault.is_none(),
        Err(fault) => fault.is_some() && fault == row.fault,
    };
    let is_left = link.outstanding() == row.outstanding && link.is_closed() == row.is_closed;
    Ok(is_given && is_left)
}

/// Asserts what each row gives in pieces of as many octets.
fn assert_rows(rt: &(impl Abort + AllocGlobal), size: usize) {
    for row in &ROWS {
        assert!(rt; gives(rt.alloc(), row, size) == Ok(true), "{}", row.name);
    }
}

#[test]
fn links_deliver_the_same_in_pieces_of_any_size(rt: HostRuntime) {
    for size in &SIZES {
        assert_rows(&rt, *size);
    }
}

#[test]
fn a_locate_is_answered_once(rt: HostRuntime) {
    let mut link = ClientLink::new(rt.alloc(), Limits::default(), Version::V12, 1);
    let mut out = Vec::new(rt.alloc());
    assert!(rt; locate(&mut link, &mut out) == Ok(1));
    assert_eq!(rt; out.as_slice(), LOCATE_1);
    assert!(rt; link.feed(LOCATED_1) == Ok(LOCATED_1.len()));
    assert!(rt; matches!(link.delivery(), Some(Delivery::Located(1, 1, _))));
    assert!(rt; link.feed(LOCATED_1) == Ok(LOCATED_1.len()));
    assert!(rt; link.delivery().is_none());
}

#[test]
fn requests_are_written_with_ids_in_turn(rt: HostRuntime) {
    let mut link = ClientLink::new(rt.alloc(), Limits::default(), Version::V12, 8);
    let mut out = Vec::new(rt.alloc());
    assert!(rt; ask(&mut link, &mut out) == Ok(1));
    assert_eq!(rt; out.as_slice(), REQUEST_1);
    assert!(rt; locate(&mut link, &mut out) == Ok(2));
    out.clear();
    assert!(rt; tell(&mut link, &mut out) == Ok(3));
    assert_eq!(rt; out.as_slice(), ONEWAY_3);
    assert_eq!(rt; link.outstanding(), 2);
}

#[test]
fn a_cancelled_id_is_answered_no_more(rt: HostRuntime) {
    let mut link = ClientLink::new(rt.alloc(), Limits::default(), Version::V12, 8);
    let mut out = Vec::new(rt.alloc());
    assert!(rt; ask(&mut link, &mut out) == Ok(1));
    out.clear();
    assert!(rt; link.cancel(1, &mut out) == Ok(true));
    assert_eq!(rt; out.as_slice(), CANCEL_1);
    assert!(rt; link.cancel(1, &mut out) == Ok(false));
    assert_eq!(rt; out.as_slice(), CANCEL_1);
    assert!(rt; link.feed(REPLY_1) == Ok(REPLY_1.len()));
    assert!(rt; link.delivery().is_none());
}

#[test]
fn an_abandoned_id_is_answered_no_more(rt: HostRuntime) {
    let mut link = ClientLink::new(rt.alloc(), Limits::default(), Version::V12, 8);
    let mut out = Vec::new(rt.alloc());
    assert!(rt; ask(&mut link, &mut out) == Ok(1));
    link.abandon(2);
    assert_eq!(rt; link.outstanding(), 1);
    link.abandon(1);
    assert_eq!(rt; link.outstanding(), 0);
    assert_eq!(rt; out.as_slice(), REQUEST_1);
    assert!(rt; link.feed(REPLY_1) == Ok(REPLY_1.len()));
    assert!(rt; link.delivery().is_none());
}

#[test]
fn no_more_ids_wait_than_may(rt: HostRuntime) {
    let mut link = ClientLink::new(rt.alloc(), Limits::default(), Version::V12, 1);
    let mut out = Vec::new(rt.alloc());
    assert!(rt; ask(&mut link, &mut out) == Ok(1));
    assert!(rt; ask(&mut link, &mut out) == Err(SendError::TooManyOutstanding));
    assert!(rt; locate(&mut link, &mut out) == Err(SendError::TooManyOutstanding));
    assert_eq!(rt; out.as_slice(), REQUEST_1);
    assert!(rt; tell(&mut link, &mut out) == Ok(2));
    assert!(rt; link.feed(REPLY_1) == Ok(REPLY_1.len()));
    assert!(rt; locate(&mut link, &mut out) == Ok(3));
}

#[test]
fn nothing_is_sent_after_the_end(rt: HostRuntime) {
    let mut link = ClientLink::new(rt.alloc(), Limits::default(), Version::V12, 1);
    let mut out = Vec::new(rt.alloc());
    assert!(rt; ask(&mut link, &mut out) == Ok(1));
    assert!(rt; link.feed(CLOSE) == Ok(CLOSE.len()));
    assert!(rt; matches!(link.delivery(), Some(Delivery::Closed)));
    assert!(rt; ask(&mut link, &mut out) == Err(SendError::LinkClosed));
    assert!(rt; tell(&mut link, &mut out) == Err(SendError::LinkClosed));
    assert!(rt; locate(&mut link, &mut out) == Err(SendError::LinkClosed));
    assert!(rt; link.cancel(1, &mut out) == Ok(false));
    assert_eq!(rt; out.as_slice(), REQUEST_1);
    assert!(rt; link.feed(CLOSE) == Ok(CLOSE.len()));
    assert!(rt; link.delivery().is_none());
}

/// Pieces in turn, and how many octets are held once each is taken.
static HELD: [(&[u8], usize); 6] = [
    (REPLY_1_FIRST, 24),
    (b"GIOP\x01\x02\x00\x04\x00\x00\x00\x08\x00\x00", 24 + 14),
    (b"\x00\x02\x00\x00\x00\x01", 24 + 20),
    (b"", 24),
    (ERROR, 0),
    (REPLY_1, 0),
];

#[test]
fn a_client_holds_what_is_not_whole(rt: HostRuntime) {
    let mut link = ClientLink::new(rt.alloc(), Limits::default(), Version::V12, 1);
    assert_eq!(rt; link.held(), 0);
    for (piece, held) in &HELD {
        assert!(rt; link.feed(piece) == Ok(piece.len()));
        assert_eq!(rt; link.held(), *held);
    }
}

static TEXTS: [(SendError, &str); 5] = [
    (SendError::LinkClosed, "link closed"),
    (SendError::TooManyOutstanding, "too many outstanding"),
    (SendError::IdsUsed, "ids used"),
    (SendError::TooLong, "too long"),
    (SendError::Memory, "memory"),
];

#[test]
fn refusals_of_links_are_printed(rt: HostRuntime) {
    assert_eq!(rt; misprinted(&TEXTS), None);
}
