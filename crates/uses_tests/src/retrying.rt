//! A call that is sent again.

use ft_client::Ended;
use giop_frames::Limits;
use std::hash::RandomState;
use std::test::Fail;
use uses::next_ticket;

#[test]
fn a_call_that_is_sent_again_gets_one_ticket(rt: HostRuntime) -> Result<(), Fail> {
    let hasher = RandomState::new(&rt)?;
    let (completion, given) = next_ticket(rt.alloc(), hasher, Limits::default())?;
    let Some((1, Ended::Returned(results))) = completion else {
        return Err("no results")?;
    };
    assert_eq!(rt;
        results.octets.as_slice(),
        b"\x00\x00\x00\x00\x00\x00\x00\x01".as_slice()
    );
    assert_eq!(rt; given, 1);
    Ok(())
}
