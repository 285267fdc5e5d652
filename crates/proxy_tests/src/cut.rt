//! Messages of 1.1 that are cut.

use giop_frames::is_cuttable_11;
use giop_proxy::cut;
use std::alloc::AllocError;
use std::process::Abort;

/// A Request of 1.1 of 16 octets, of which four are a body. (That it has no valid fields matters to no cut.)
const BIG: &[u8] = b"GIOP\x01\x01\0\0\0\0\0\x04body";

const LITTLE: &[u8] = b"GIOP\x01\x01\x01\0\x04\0\0\0body";

/// Frames of the first: with a Request's header, and Fragments, with more to come or not.
const BODY: &[u8] = b"GIOP\x01\x01\x02\0\0\0\0\x04body";

const B: &[u8] = b"GIOP\x01\x01\x02\0\0\0\0\x01b";

const NONE: &[u8] = b"GIOP\x01\x01\x02\0\0\0\0\0";

const BOD: &[u8] = b"GIOP\x01\x01\x02\x07\0\0\0\x03bod";

const NO_MORE: &[u8] = b"GIOP\x01\x01\0\x07\0\0\0\0";

const NOTHING: &[u8] = b"GIOP\x01\x01\x02\x07\0\0\0\0";

const ODY: &[u8] = b"GIOP\x01\x01\0\x07\0\0\0\x03ody";

const Y: &[u8] = b"GIOP\x01\x01\0\x07\0\0\0\x01y";

/// Frames of the other.
const BO: &[u8] = b"GIOP\x01\x01\x03\0\x02\0\0\0bo";

const DY: &[u8] = b"GIOP\x01\x01\x01\x07\x02\0\0\0dy";

/// Asserts that a message, whose body begins at a place, is cut into these frames.
fn assert_cut(
    rt: &(impl Abort + AllocGlobal),
    message: &[u8],
    place: u32,
    cuts: &[u32],
    frames: &[&[u8]],
) {
    if !is_cuttable_11(message) {
        rt.abort();
    }
    let mut out = Vec::new(rt.alloc());
    let cut = cut(message, place, cuts, &mut out);
    assert!(rt; cut.is_ok());
    let wanted: Result<Vec<u8>, AllocError> = frames.concat(rt.alloc());
    assert!(rt; wanted == Ok(out));
}

#[test]
fn a_message_is_cut_at_places_of_its_body(rt: HostRuntime) {
    assert_cut(&rt, BIG, 12, &[], &[BIG]);
    assert_cut(&rt, BIG, 12, &[4], &[BODY, NO_MORE]);
    assert_cut(&rt, BIG, 12, &[1], &[B, ODY]);
    assert_cut(&rt, BIG, 12, &[0, 3], &[NONE, BOD, Y]);
    assert_cut(&rt, LITTLE, 12, &[2], &[BO, DY]);
    // the body begins behind a field
    assert_cut(&rt, BIG, 13, &[0], &[B, ODY]);
    assert_cut(&rt, BIG, 15, &[], &[BIG]);
}

#[test]
fn cuts_that_do_not_rise_make_frames_without_octets(rt: HostRuntime) {
    assert_cut(&rt, BIG, 12, &[4, 4], &[BODY, NOTHING, NO_MORE]);
    assert_cut(&rt, BIG, 12, &[9], &[BODY, NO_MORE]);
    assert_cut(&rt, BIG, 12, &[4, 1], &[BODY, NOTHING, NO_MORE]);
    assert_cut(&rt, BIG, 12, &[0xffff_ffff], &[BODY, NO_MORE]);
}
