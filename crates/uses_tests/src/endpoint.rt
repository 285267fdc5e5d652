//! The endpoint of a reference.

use std::test::Fail;
use uses::first_endpoint;

/// A reference of the type IDL:Counter:1.0 with one profile: IIOP 1.2, 127.0.0.1, port 2809, key `c`.
const COUNTER: &str = "IOR:000000000000001049444c3a436f756e7465723a312e3000\
    000000010000000000000020000102000000000a3132372e302e302e31000af9000000016300000000000000";

#[test]
fn host_port_and_key_are_those_of_the_profile(rt: HostRuntime) -> Result<(), Fail> {
    let found = first_endpoint(rt.alloc(), COUNTER)?;
    let profile = found.expect(&rt, "an IIOP profile");
    assert_eq!(rt; profile.host.as_slice(), b"127.0.0.1".as_slice());
    assert_eq!(rt; profile.port, 2809);
    assert_eq!(rt; profile.object_key.as_slice(), b"c".as_slice());
    Ok(())
}

#[test]
fn the_nil_reference_has_no_endpoint(rt: HostRuntime) -> Result<(), Fail> {
    let found = first_endpoint(rt.alloc(), "IOR:00000000000000010000000000000000")?;
    assert!(rt; found.is_none());
    Ok(())
}
