//! Streams in pieces of each size, and what is told of their messages.

use crate::rows::{ROWS, Row, Told};
use giop_frames::{Cuts, Limits, StreamFault};
use giop_proxy::Passing;
use std::alloc::{AllocError, Global};
use std::process::Abort;
use std::test::Fail;

/// The least limits that let two messages be partial, and 1.1 be cut anywhere.
pub(crate) const LIMITS: Limits = Limits {
    message: 4096,
    partials: 2,
    cuts: Cuts::Anywhere,
};

/// How many messages were told of, and whether as they should be.
#[derive(Clone, Copy)]
pub(crate) struct Tally {
    pub count: usize,
    pub is_right: bool,
}

/// Whether that is told.
fn is_told(passing: &Passing, told: &Told) -> bool {
    passing.fault() == told.fault
        && passing.reading().is_some() == told.fault.is_none()
        && passing.request_id() == told.id
        && passing.octets().len() == told.octets
        && passing.begins() == told.begins
        && passing.cuts() == told.cuts
}

/// Feeds a piece, and compares what is told.
pub(crate) fn feed_piece(
    passing: &mut Passing,
    piece: &[u8],
    told: &[Told],
    tally: &mut Tally,
) -> Result<(), StreamFault> {
    let mut left = piece;
    for _ in 0..piece.len() {
        let taken = passing.feed(left)?;
        if passing.header().is_some() {
            let is_right = match told.get(tally.count) {
                Some(told) => is_told(passing, told),
                None => false,
            };
            tally.is_right = tally.is_right && is_right;
            tally.count = tally.count.saturating_add(1);
        }
        let (_, others) = left.split_at(taken);
        left = others;
        if left.is_empty() {
            break;
        }
    }
    Ok(())
}

/// The fault by which a stream ends in pieces of as many octets, and what is told before.
pub(crate) fn feed_all(
    alloc: Global,
    stream: &[u8],
    told: &[Told],
    size: usize,
) -> (Option<StreamFault>, Tally) {
    let mut passing = Passing::new(alloc, LIMITS);
    let mut tally = Tally {
        count: 0,
        is_right: true,
    };
    for piece in stream.chunks(size.max(1)) {
        if let Err(fault) = feed_piece(&mut passing, piece, told, &mut tally) {
            return (Some(fault), tally);
        }
    }
    (None, tally)
}

/// Whether a stream gives that in pieces of as many octets.
fn gives(alloc: Global, stream: &[u8], row: &Row, size: usize) -> bool {
    let (fault, tally) = feed_all(alloc, stream, row.told, size);
    fault == row.fault && tally.is_right && tally.count == row.told.len()
}

/// The octets of frames.
fn stream_of(alloc: Global, frames: &[&[u8]]) -> Result<Vec<u8>, AllocError> {
    let mut stream = Vec::new(alloc);
    for frame in frames {
        stream.extend_from_slice(frame)?;
    }
    Ok(stream)
}

/// Asserts what a row gives in pieces of each size.
fn assert_row(rt: &(impl Abort + AllocGlobal), row: &Row, number: usize) -> Result<(), AllocError> {
    let stream = stream_of(rt.alloc(), row.frames)?;
    for size in 1..stream.len().saturating_add(1) {
        let is_given = gives(rt.alloc(), stream.as_slice(), row, size);
        assert!(rt; is_given, "row {number} in pieces of {size}");
    }
    Ok(())
}

#[test]
fn streams_tell_the_same_in_pieces_of_any_size(rt: HostRuntime) -> Result<(), Fail> {
    let mut number: usize = 0;
    for row in &ROWS {
        assert_row(&rt, row, number)?;
        number = number.saturating_add(1);
    }
    Ok(())
}

#[test]
fn nothing_is_taken_after_a_fault(rt: HostRuntime) {
    let mut passing = Passing::new(rt.alloc(), LIMITS);
    assert!(rt;
        passing
            .feed(b"GIOQ\x01\x02\x00\x00\x00\x00\x00\x00")
            .is_err()
    );
    assert!(rt; passing.feed(b"") == Err(StreamFault::Failed));
    assert!(rt; passing.header().is_none() && passing.octets().is_empty());
}

/// Messages that end too early, and their request id and wish, as they are known.
static BEGINNINGS: [(&[u8], Option<u32>, bool); 6] = [
    (
        b"GIOP\x01\x02\x00\x00\x00\x00\x00\x08\x00\x00\x00\x05\x00\x00\x00\x00",
        Some(5),
        false,
    ),
    (
        b"GIOP\x01\x02\x01\x00\x08\x00\x00\x00\x05\x00\x00\x00\x03\x00\x00\x00",
        Some(5),
        true,
    ),
    (
        b"GIOP\x01\x02\x00\x00\x00\x00\x00\x04\x00\x00\x00\x05",
        Some(5),
        true,
    ),
    (
        b"GIOP\x01\x01\x00\x00\x00\x00\x00\x09\x00\x00\x00\x00\x00\x00\x00\x05\x00",
        Some(5),
        false,
    ),
    (
        b"GIOP\x01\x00\x00\x00\x00\x00\x00\x09\x00\x00\x00\x00\x00\x00\x00\x05\x01",
        Some(5),
        true,
    ),
    (
        b"GIOP\x01\x00\x00\x00\x00\x00\x00\x09\x00\x00\x00\x01\x00\x00\x00\x05\x00",
        None,
        true,
    ),
];

#[test]
fn what_is_known_of_a_request_at_fault(rt: HostRuntime) {
    for (frame, id, may_wish) in &BEGINNINGS {
        let mut passing = Passing::new(rt.alloc(), LIMITS);
        assert!(rt; passing.feed(frame) == Ok(frame.len()) && passing.fault().is_some());
        assert_eq!(rt; passing.request_id(), *id);
        assert_eq!(rt; passing.may_wish(), *may_wish);
    }
}

/// Pieces, and how many octets are held behind each, of how many messages that are partial, and whether within a frame: a
/// Reply of 1.2 of id 6; the first frame of one of id 5 that is cut; the one of id 6 again; and the last Fragment of id 5.
static PIECES: [(&[u8], usize, usize, bool); 10] = [
    (b"GIOP\x01\x02\x00\x01\x00", 9, 0, true),
    (
        b"\x00\x00\x0c\x00\x00\x00\x06\x00\x00\x00\x00\x00\x00\x00",
        23,
        0,
        true,
    ),
    (b"\x00", 24, 0, false),
    (b"", 0, 0, false),
    (
        b"GIOP\x01\x02\x02\x01\x00\x00\x00\x0c\x00\x00\x00\x05\x00\x00\x00\x00\x00\x00\x00\x00",
        24,
        1,
        false,
    ),
    (b"GIOP\x01\x02\x00\x01\x00\x00\x00\x0c\x00", 37, 1, true),
    (
        b"\x00\x00\x06\x00\x00\x00\x00\x00\x00\x00\x00",
        48,
        1,
        false,
    ),
    (
        b"GIOP\x01\x02\x00\x07\x00\x00\x00\x08\x00\x00\x00\x05\x01\x02",
        42,
        1,
        true,
    ),
    (b"\x03\x04", 28, 0, false),
    (b"", 0, 0, false),
];

#[test]
fn what_is_held_is_known(rt: HostRuntime) {
    let mut passing = Passing::new(rt.alloc(), LIMITS);
    for (piece, held, partial, is_amid) in &PIECES {
        assert!(rt; passing.feed(piece) == Ok(piece.len()));
        assert_eq!(rt; passing.held(), *held);
        assert_eq!(rt; passing.partial(), *partial);
        assert_eq!(rt; passing.is_amid(), *is_amid);
    }
}
