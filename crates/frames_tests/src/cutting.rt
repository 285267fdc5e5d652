//! Messages that are cut.

use crate::samples::{
    FIRST, FIRST_11, LAST, LONG_MIDDLE_11, MIDDLE, SHORT_LAST_11, WHOLE, WHOLE_11,
};
use giop_frames::{fragments, fragments_11, is_cuttable, is_cuttable_11};
use std::alloc::AllocError;
use std::process::Abort;

/// The frames of at most `size` octets that the message is cut into, one after another.
fn cut(rt: &(impl Abort + AllocGlobal), size: u32) -> Vec<u8> {
    if !is_cuttable(WHOLE) || size < 24 || !size.is_multiple_of(8) {
        rt.abort();
    }
    let mut out = Vec::new(rt.alloc());
    if fragments(WHOLE, size, &mut out).is_err() {
        rt.abort();
    }
    out
}

/// The frames of at most `size` octets that the message of 1.1 is cut into, one after another.
fn cut_11(rt: &(impl Abort + AllocGlobal), size: u32) -> Vec<u8> {
    if !is_cuttable_11(WHOLE_11) || size < 20 || size % 8 != 4 {
        rt.abort();
    }
    let mut out = Vec::new(rt.alloc());
    if fragments_11(WHOLE_11, size, &mut out).is_err() {
        rt.abort();
    }
    out
}

/// Asserts that the message is cut into these frames, of at most `size` octets.
fn assert_cut(rt: &(impl Abort + AllocGlobal), size: u32, frames: &[&[u8]]) {
    let wanted: Result<Vec<u8>, AllocError> = frames.concat(rt.alloc());
    assert!(rt; wanted == Ok(cut(rt, size)));
}

#[test]
fn a_message_is_cut(rt: HostRuntime) {
    assert_cut(&rt, 32, &[FIRST, MIDDLE, LAST]);
    assert_cut(&rt, 56, &[WHOLE]);
}

/// Asserts that the message of 1.1 is cut into these frames, of at most `size` octets.
fn assert_cut_11(rt: &(impl Abort + AllocGlobal), size: u32, frames: &[&[u8]]) {
    let wanted: Result<Vec<u8>, AllocError> = frames.concat(rt.alloc());
    assert!(rt; wanted == Ok(cut_11(rt, size)));
}

#[test]
fn a_message_of_1_1_is_cut(rt: HostRuntime) {
    assert_cut_11(&rt, 28, &[FIRST_11, LONG_MIDDLE_11, SHORT_LAST_11]);
    assert_cut_11(&rt, 52, &[WHOLE_11]);
}

#[test]
fn messages_are_cut_by_their_version(rt: HostRuntime) {
    assert!(rt; !is_cuttable(WHOLE_11) && !is_cuttable_11(WHOLE) && !is_cuttable_11(FIRST_11));
}
