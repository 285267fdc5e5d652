//! A server that is asked twice.

use crate::octets::{NEXT, TICKET};
use giop_frames::Limits;
use std::hash::RandomState;
use std::test::Fail;
use uses::serve_once;

#[test]
fn a_request_that_comes_again_gets_the_same_ticket(rt: HostRuntime) -> Result<(), Fail> {
    let hasher = RandomState::new(&rt)?;
    let (first, second) = serve_once(rt.alloc(), hasher, Limits::default(), NEXT)?;
    assert_eq!(rt; first.as_slice(), TICKET);
    assert_eq!(rt; second.as_slice(), TICKET);
    Ok(())
}
