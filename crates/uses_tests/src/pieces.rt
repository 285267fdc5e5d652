//! A server that is fed piece by piece.

use crate::octets::{NEXT, TICKET};
use giop_frames::Limits;
use std::alloc::{AllocError, Global};
use std::hash::RandomState;
use std::test::Fail;
use uses::{Piece, serve_pieces};

/// Adds the octets in pieces of 30, all at one moment.
fn add_pieces(
    alloc: Global,
    moment: u64,
    octets: &[u8],
    pieces: &mut Vec<Piece>,
) -> Result<(), AllocError> {
    for part in octets.chunks(30) {
        pieces.push(Piece {
            moment,
            octets: Vec::from_slice(alloc, part)?,
        })?;
    }
    Ok(())
}

/// The request comes in three pieces, and once more in three.
#[test]
fn a_request_that_comes_twice_in_pieces_takes_one_ticket(rt: HostRuntime) -> Result<(), Fail> {
    let hasher = RandomState::new(&rt)?;
    let mut pieces = Vec::new(rt.alloc());
    add_pieces(rt.alloc(), 50, NEXT, &mut pieces)?;
    add_pieces(rt.alloc(), 100, NEXT, &mut pieces)?;
    let (written, given) = serve_pieces(rt.alloc(), hasher, Limits::default(), &pieces)?;
    let mut answers = Vec::from_slice(rt.alloc(), TICKET)?;
    answers.extend_from_slice(TICKET)?;
    assert_eq!(rt; written.as_slice(), answers.as_slice());
    assert_eq!(rt; given, 1);
    Ok(())
}
