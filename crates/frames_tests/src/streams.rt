//! Streams whole, in pieces of thirteen octets and in pieces of one, and what they give.

use crate::samples::{
    CANCEL, FIRST, FIRST_11, LAST, LAST_11, LITTLE_FIRST, LITTLE_LAST, MIDDLE, MIDDLE_11, WHOLE,
    WHOLE_11,
};
use crate::stream_rows::{ROWS, Row};
use cdr_core::Order;
use giop_core::{Content, Header, Message, MessageKind, Version};
use giop_frames::{Assembler, Cuts, Limits, StreamFault};
use std::alloc::{AllocError, Global};
use std::process::Abort;
use std::test::Fail;

/// How many octets a piece has.
static SIZES: [usize; 3] = [1, 13, 4096];

const LIMITS: Limits = Limits {
    message: 1_048_576,
    partials: 8,
    cuts: Cuts::Aligned,
};

/// The least limits.
const LEAST: Limits = Limits {
    message: 4096,
    partials: 1,
    cuts: Cuts::Aligned,
};

/// Feeds a piece, and counts the messages that it completes.
fn feed_piece(assembler: &mut Assembler, piece: &[u8]) -> Result<usize, StreamFault> {
    let mut count: usize = 0;
    let mut left = piece;
    for _ in 0..piece.len() {
        let taken = assembler.feed(left)?;
        if assembler.message().is_some() {
            count = count.saturating_add(1);
        }
        let (_, others) = left.split_at(taken);
        left = others;
        if left.is_empty() {
            break;
        }
    }
    Ok(count)
}

/// Feeds a frame in pieces of as many octets, and counts the messages that complete.
fn feed_frame(
    assembler: &mut Assembler,
    frame: &[u8],
    size: usize,
) -> Result<usize, (usize, StreamFault)> {
    let mut messages: usize = 0;
    for piece in frame.chunks(size.max(1)) {
        match feed_piece(assembler, piece) {
            Ok(more) => messages = messages.saturating_add(more),
            Err(fault) => return Err((messages, fault)),
        }
    }
    Ok(messages)
}

/// Whether frames give that, in pieces of as many octets.
fn gives(alloc: Global, row: &Row, size: usize) -> bool {
    let mut assembler = Assembler::new(alloc, LIMITS);
    let mut messages: usize = 0;
    for frame in row.frames {
        match feed_frame(&mut assembler, frame, size) {
            Ok(more) => messages = messages.saturating_add(more),
            Err((more, fault)) => {
                return messages.saturating_add(more) == row.messages && Some(fault) == row.fault;
            }
        }
    }
    let is_partial = assembler.partial() == row.partial;
    messages == row.messages && row.fault.is_none() && is_partial && assembler.pending() == 0
}

/// Asserts what was found of the row of that number.
fn expect_row(rt: &impl Abort, is_found: bool, number: usize) {
    assert!(rt; is_found, "row {number}");
}

/// Asserts what each row gives in pieces of as many octets.
fn assert_rows(rt: &(impl Abort + AllocGlobal), size: usize) {
    let mut number: usize = 0;
    for row in &ROWS {
        let is_given = gives(rt.alloc(), row, size);
        expect_row(rt, is_given, number);
        number = number.saturating_add(1);
    }
}

#[test]
fn streams_give_the_same_in_pieces_of_any_size(rt: HostRuntime) {
    for size in &SIZES {
        assert_rows(&rt, *size);
    }
}

/// Feeds frames that come whole. Whether each is taken, and none completes a message but the last.
fn are_taken(assembler: &mut Assembler, frames: &[&[u8]]) -> bool {
    for frame in frames {
        if assembler.message().is_some() || assembler.feed(frame) != Ok(frame.len()) {
            return false;
        }
    }
    true
}

/// Whether a message is the Request of id 5: the operation `add` and its body.
fn is_add(message: &Message, body: &[u8]) -> bool {
    match &message.content {
        Content::Request(request) => {
            request.request_id == 5
                && request.operation == b"add".as_slice()
                && request.body.octets == body
        }
        _ => false,
    }
}

/// Whether frames that come whole complete, with the last, the Request of id 5.
fn lends(alloc: Global, frames: &[&[u8]], body: &[u8]) -> bool {
    let mut assembler = Assembler::new(alloc, LIMITS);
    if !are_taken(&mut assembler, frames) {
        return false;
    }
    match assembler.message() {
        Some(message) => is_add(&message, body),
        None => false,
    }
}

#[test]
fn joined_messages_are_lent(rt: HostRuntime) {
    assert!(rt; lends(rt.alloc(), &[FIRST, MIDDLE, LAST], b"\x00\x00\x00\x07"));
    assert!(rt;
        lends(
            rt.alloc(),
            &[LITTLE_FIRST, LITTLE_LAST],
            b"\x07\x00\x00\x00"
        )
    );
    let body = b"\x00\x00\x00\x07";
    assert!(rt; lends(rt.alloc(), &[FIRST_11, MIDDLE_11, LAST_11], body));
}

/// Whether a Request of 1.1 of 48 octets completes that is cut after so many of its octets, under limits with cuts.
fn lends_cut(alloc: Global, cuts: Cuts, at: u8) -> Result<bool, AllocError> {
    let (front, back) = WHOLE_11.split_at(usize::from(at));
    let mut first = front.to_vec(alloc)?;
    first[6] = 2;
    first[11] = at.saturating_sub(12);
    let mut last = b"GIOP\x01\x01\x00\x07\x00\x00\x00\x00".to_vec(alloc)?;
    last[11] = 48u8.saturating_sub(at);
    last.extend_from_slice(back)?;
    let mut assembler = Assembler::new(alloc, LIMITS.with_cuts(cuts));
    if !are_taken(&mut assembler, &[&first, &last]) {
        return Ok(false);
    }
    Ok(match assembler.message() {
        Some(message) => is_add(&message, b"\x00\x00\x00\x07"),
        None => false,
    })
}

#[test]
fn a_message_of_1_1_is_joined_wherever_it_may_be_cut(rt: HostRuntime) -> Result<(), Fail> {
    for at in 12..=48 {
        let is_aligned = lends_cut(rt.alloc(), Cuts::Aligned, at)?;
        assert!(rt; is_aligned == (at % 8 == 4), "{at}");
        let is_taken = lends_cut(rt.alloc(), Cuts::Anywhere, at)?;
        assert!(rt; is_taken, "{at}");
    }
    Ok(())
}

/// The header of the Request of id 5 whose fragments are joined, which has 52 octets with it.
const JOINED: Header = Header {
    version: Version::V12,
    order: Order::Big,
    more: false,
    kind: MessageKind::Request,
    size: 40,
};

/// That of 1.1, of 48 octets.
const JOINED_11: Header = Header {
    version: Version::V11,
    size: 36,
    ..JOINED
};

/// Whether a last frame completes a message under a header, and the frames before it none.
fn is_headed(alloc: Global, before: &[&[u8]], last: &[u8], header: Header) -> bool {
    let mut assembler = Assembler::new(alloc, LIMITS);
    are_taken(&mut assembler, before)
        && assembler.header().is_none()
        && are_taken(&mut assembler, &[last])
        && assembler.header() == Some(header)
}

#[test]
fn header_is_that_of_the_joined_message(rt: HostRuntime) {
    assert!(rt; is_headed(rt.alloc(), &[FIRST, MIDDLE], LAST, JOINED));
    assert!(rt; is_headed(rt.alloc(), &[FIRST_11, MIDDLE_11], LAST_11, JOINED_11));
}

// Frames of one message, and how many octets are held after each.
static HELD: [(&[u8], usize); 3] = [(FIRST, 32), (MIDDLE, 48), (LAST, 52)];

/// Feeds a frame. Whether it is taken whole, and as many octets are held then.
fn holds(assembler: &mut Assembler, frame: &[u8], held: usize) -> bool {
    assembler.feed(frame) == Ok(frame.len()) && assembler.held() == held
}

#[test]
fn held_octets_are_counted(rt: HostRuntime) {
    let mut assembler = Assembler::new(rt.alloc(), LIMITS);
    for (frame, held) in &HELD {
        assert!(rt; holds(&mut assembler, frame, *held));
    }
}

/// Feeds frames in pieces of as many octets, one after another, and counts the messages. None where one is
/// refused, or where more is held than twice the limit of a message.
fn fed_within(assembler: &mut Assembler, frames: &[&[u8]], size: usize) -> Option<usize> {
    let mut messages: usize = 0;
    for frame in frames {
        messages = messages.saturating_add(feed_within(assembler, frame, size)?);
    }
    Some(messages)
}

/// Feeds a frame in pieces of as many octets, and counts the messages. None where it is refused, or where
/// more is held than twice the limit of a message.
fn feed_within(assembler: &mut Assembler, frame: &[u8], size: usize) -> Option<usize> {
    let mut messages: usize = 0;
    for piece in frame.chunks(size.max(1)) {
        messages = messages.saturating_add(feed_piece(assembler, piece).ok()?);
        if assembler.held() > 8192 {
            return None;
        }
    }
    Some(messages)
}

/// Whether a hundred messages complete one after another under the least limits, in pieces of as
/// many octets, and nothing is left.
fn are_held_within(alloc: Global, size: usize) -> bool {
    let mut assembler = Assembler::new(alloc, LEAST);
    for _ in 0..25 {
        let frames = [WHOLE, FIRST, MIDDLE, LAST, WHOLE, CANCEL];
        if fed_within(&mut assembler, &frames, size) != Some(4) {
            return false;
        }
    }
    assembler.pending() == 0 && assembler.partial() == 0
}

#[test]
fn a_hundred_messages_are_held_within_the_least_limits(rt: HostRuntime) {
    for size in &SIZES {
        assert!(rt; are_held_within(rt.alloc(), *size), "pieces of {size}");
    }
}
