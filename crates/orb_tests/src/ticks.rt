//! What a server keeps while nothing comes.

use crate::messages::{ADD, EXPIRED, SEVEN};
use crate::visits::new_server;
use std::hash::RandomState;
use std::test::Fail;

#[test]
fn what_expired_is_forgotten_and_then_refused(rt: HostRuntime) -> Result<(), Fail> {
    let alloc = rt.alloc();
    let mut server = new_server(alloc, RandomState::new(&rt)?)?;
    let mut out = Vec::new(alloc);
    assert!(rt; server.connect(1).is_ok() && server.feed(1, 50, ADD, &mut out).is_ok());
    server.tick(100);
    assert!(rt; server.kept_len() == 1 && server.held_by(b"A") == 1 && server.held_by(b"B") == 0);
    assert!(rt; server.next_expiry() == Some(100));
    server.tick(101);
    assert!(rt; server.kept_len() == 0 && server.next_expiry().is_none());
    assert!(rt; server.feed(1, 50, ADD, &mut out).is_ok());
    let (first, second) = out.split_at(SEVEN.len().min(out.len()));
    assert!(rt; first == SEVEN && second == EXPIRED && server.servant().total() == 7);
    Ok(())
}
