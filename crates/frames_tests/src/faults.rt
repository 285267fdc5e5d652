//! Where the frame of a fault begins, by octets that are given as they are needed.

use crate::samples::{FIRST, LAST, MIDDLE, WHOLE};
use giop_frames::{Assembler, Cuts, Limits};
use std::alloc::{AllocError, Global};
use std::process::Abort;

const LIMITS: Limits = Limits {
    message: 1_048_576,
    partials: 8,
    cuts: Cuts::Aligned,
};

/// Twelve octets that are no header.
const NO_HEADER: &[u8] = b"GIOQ\x01\x02\x00\x00\x00\x00\x00\x00";

/// Frames, the last of which is refused, and where it begins.
static ROWS: [(&[&[u8]], usize); 4] = [
    (&[NO_HEADER], 0),
    (&[WHOLE, FIRST, NO_HEADER], 84),
    (&[FIRST, WHOLE], 32),
    (&[FIRST, MIDDLE, LAST, MIDDLE], 84),
];

/// Frames one after another.
fn joined(alloc: Global, frames: &[&[u8]]) -> Result<Vec<u8>, AllocError> {
    let mut all = Vec::new(alloc);
    for frame in frames {
        all.extend_from_slice(frame)?;
    }
    Ok(all)
}

/// Where the frame of the fault of a stream begins, if it has one.
fn place_of_fault(alloc: Global, octets: &[u8]) -> Option<usize> {
    let mut assembler = Assembler::new(alloc, LIMITS);
    let mut given: usize = 0;
    for _ in 0..octets.len() {
        let left = octets.get(given..)?;
        let begins = given.saturating_sub(assembler.pending());
        let (piece, _) = left.split_at(assembler.needed().min(left.len()));
        match assembler.feed(piece) {
            Ok(taken) => given = given.saturating_add(taken),
            Err(_) => return Some(begins),
        }
    }
    None
}

/// Whether the frame of the fault of frames begins there.
fn begins_at(alloc: Global, frames: &[&[u8]], place: Option<usize>) -> bool {
    match joined(alloc, frames) {
        Ok(octets) => place_of_fault(alloc, octets.as_slice()) == place,
        Err(_) => false,
    }
}

#[test]
fn a_fault_is_of_the_frame_that_has_begun(rt: HostRuntime) {
    for (frames, place) in &ROWS {
        assert!(rt; begins_at(rt.alloc(), frames, Some(*place)), "at {place}");
    }
    assert!(rt; begins_at(rt.alloc(), &[WHOLE, FIRST, MIDDLE, LAST], None));
}
