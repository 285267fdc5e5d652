//! A Reply that carries what a security service says.

use cdr_core::{Order, Val};
use ft_log::{Outcome, RawStatus, Retention};
use ft_objects::Interfaces;
use ft_orb::{Engine, Fed, Places};
use giop_frames::Limits;
use std::alloc::Global;
use std::hash::RandomState;
use std::test::Fail;
use uses::answer_secured;

/// A Request of 1.0 with the id 5 for `get` at the key `c`, without contexts and arguments.
const GET_10: &[u8] = b"GIOP\x01\x00\x00\x00\x00\x00\x00\x20\
    \x00\x00\x00\x00\x00\x00\x00\x05\x01\x00\x00\x00\x00\x00\x00\x01c\x00\x00\x00\
    \x00\x00\x00\x04get\x00\x00\x00\x00\x00";

/// The same of 1.2.
const GET_12: &[u8] = b"GIOP\x01\x02\x00\x00\x00\x00\x00\x20\
    \x00\x00\x00\x05\x03\x00\x00\x00\x00\x00\x00\x00\x00\x00\x00\x01c\x00\x00\x00\
    \x00\x00\x00\x04get\x00\x00\x00\x00\x00";

/// The Reply of 1.0 with the context 15 of seven octets, and then the long 7.
const SEVEN_10: &[u8] = b"GIOP\x01\x00\x00\x01\x00\x00\x00\x20\
    \x00\x00\x00\x01\x00\x00\x00\x0f\x00\x00\x00\x07\x01\x02\x03\x04\x05\x06\x07\x00\
    \x00\x00\x00\x05\x00\x00\x00\x00\x00\x00\x00\x07";

/// The Reply of 1.2 with the context 15 of three octets: the long 7 stands at 40.
const SEVEN_12: &[u8] = b"GIOP\x01\x02\x00\x01\x00\x00\x00\x20\
    \x00\x00\x00\x05\x00\x00\x00\x00\x00\x00\x00\x01\x00\x00\x00\x0f\x00\x00\x00\x03\x01\x02\x03\x00\
    \x00\x00\x00\x00\x00\x00\x00\x07";

/// The long 7 as a body of octets.
fn seven(alloc: Global) -> Result<Outcome, Fail> {
    let body = Vec::from_slice(alloc, b"\x00\x00\x00\x07")?;
    Ok(Outcome::Raw(RawStatus::NoException, Order::Big, body))
}

/// An engine of a raw object `c` that is asked for what a request asks for.
fn asked(
    alloc: Global,
    hasher: RandomState,
    request: &[u8],
) -> Result<Option<Engine<Interfaces>>, Fail> {
    let mut interfaces = Interfaces::new(alloc);
    interfaces.add_raw_object(b"c")?;
    let retention = Retention {
        capacity: 1,
        share: 1,
    };
    let limits = Limits::default();
    let mut engine = Engine::new(alloc, interfaces, limits, retention, Places::none(), hasher);
    engine.connect(1)?;
    let fed = engine.feed(1, 50, request, &mut Vec::new(alloc))?;
    Ok(if let Fed::Asks(_) = fed {
        Some(engine)
    } else {
        None
    })
}

/// Whether the request is answered with what a security service says, and what is written.
fn secured(
    alloc: Global,
    hasher: RandomState,
    request: &[u8],
    security: &[u8],
) -> Result<(bool, Vec<u8>), Fail> {
    let mut out = Vec::new(alloc);
    let Some(mut engine) = asked(alloc, hasher, request)? else {
        return Ok((false, out));
    };
    let did = answer_secured(&mut engine, 0, seven(alloc)?, security, &mut out)?;
    Ok((did, out))
}

#[test]
fn a_reply_of_1_2_carries_it(rt: HostRuntime) -> Result<(), Fail> {
    let hasher = RandomState::new(&rt)?;
    let (did, out) = secured(rt.alloc(), hasher, GET_12, b"\x01\x02\x03")?;
    assert!(rt; did && out.as_slice() == SEVEN_12);
    Ok(())
}

#[test]
fn octets_of_1_0_stand_behind_what_fits(rt: HostRuntime) -> Result<(), Fail> {
    let hasher = RandomState::new(&rt)?;
    let (did, out) = secured(rt.alloc(), hasher, GET_10, b"\x01\x02\x03\x04\x05\x06\x07")?;
    assert!(rt; did && out.as_slice() == SEVEN_10);
    let (did, out) = secured(rt.alloc(), hasher, GET_10, b"\x01\x02\x03")?;
    assert!(rt; !did && out.is_empty());
    Ok(())
}
