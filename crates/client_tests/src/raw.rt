//! Raw calls: what is sent of them, and when they end.

use crate::clients::{Done, client, completes, join};
use crate::octets::FORWARD_1;
use crate::steps::are;
use cdr_core::{Order, has_no_nul};
use ft_client::{
    FtClient, RawCall, RawCallError, RawRecallError, RawRedirectError, RecallError, RedirectError,
};
use giop_core::{Body, FT_REQUEST, ReplyWish, Version};
use std::alloc::Global;
use std::test::Fail;

/// A service context of the id 1.
const OWN: &[(u32, &[u8])] = &[(1, b"\x09")];

/// `put` at the key `c` until the moment 100: in 1.0 and little order, with no reply, one context, and two octets.
const PUT: RawCall<'static> = RawCall {
    object_key: b"c",
    operation: b"put",
    contexts: OWN,
    body: Body {
        order: Order::Little,
        at: 24,
        octets: b"\x01\x02",
    },
    wish: ReplyWish::None,
    version: Version::V10,
    expiration: 100,
};

/// Its Request with the id 1: FT_REQUEST stands before its context, and its body at 88.
const PUT_1: &[u8] = b"GIOP\x01\x00\x01\x00\x4e\x00\x00\x00\
    \x02\x00\x00\x00\x0d\x00\x00\x00\x18\x00\x00\x00\
    \x00\x00\x00\x00\x00\x00\x00\x02A\x00\x00\x00\x00\x00\x00\x01\x00\x00\x00\x00\x00\x00\x00\x64\
    \x01\x00\x00\x00\x01\x00\x00\x00\x09\x00\x00\x00\
    \x01\x00\x00\x00\x00\x00\x00\x00\x01\x00\x00\x00c\x00\x00\x00\
    \x04\x00\x00\x00put\x00\x00\x00\x00\x00\x01\x02";

/// The same call in 1.2 and big order, with a reply that is wished for, under the id 1.
const ASK_1: &[u8] = b"GIOP\x01\x02\x00\x00\x00\x00\x00\x4e\
    \x00\x00\x00\x01\x03\x00\x00\x00\x00\x00\x00\x00\x00\x00\x00\x01c\x00\x00\x00\
    \x00\x00\x00\x04put\x00\x00\x00\x00\x02\x00\x00\x00\x0d\x00\x00\x00\x18\
    \x00\x00\x00\x00\x00\x00\x00\x02A\x00\x00\x00\x00\x00\x00\x01\x00\x00\x00\x00\x00\x00\x00\x64\
    \x00\x00\x00\x01\x00\x00\x00\x01\x09\x00\x00\x00\x01\x02";

/// .. at the key `other`, under the id 2: its body stands at 96.
const ASK_OTHER_2: &[u8] = b"GIOP\x01\x02\x00\x00\x00\x00\x00\x56\
    \x00\x00\x00\x02\x03\x00\x00\x00\x00\x00\x00\x00\x00\x00\x00\x05other\x00\x00\x00\
    \x00\x00\x00\x04put\x00\x00\x00\x00\x02\x00\x00\x00\x0d\x00\x00\x00\x18\
    \x00\x00\x00\x00\x00\x00\x00\x02A\x00\x00\x00\x00\x00\x00\x01\x00\x00\x00\x00\x00\x00\x00\x64\
    \x00\x00\x00\x01\x00\x00\x00\x01\x09\x00\x00\x00\x00\x00\x00\x00\x01\x02";

/// The call in 1.2 and big order, with a reply that is wished for.
fn ask() -> RawCall<'static> {
    RawCall {
        body: Body {
            order: Order::Big,
            ..PUT.body
        },
        wish: ReplyWish::Full,
        version: Version::V12,
        ..PUT
    }
}

/// Whether a raw call can be made, and at 50 gives that and writes these messages.
fn calls(
    alloc: Global,
    client: &mut FtClient,
    call: &RawCall<'_>,
    wanted: Result<i32, RawCallError>,
    messages: &[&[u8]],
) -> bool {
    let mut out = Vec::new(alloc);
    has_no_nul(call.operation)
        && call.version.can_ask(call.wish)
        && client.call_raw(50, call, &mut out) == wanted
        && are(&out, messages)
}

#[test]
fn a_raw_call_without_a_reply_ends_when_it_is_sent(rt: HostRuntime) -> Result<(), Fail> {
    let mut one = client(rt.alloc())?;
    join(rt.alloc(), &mut one, 50)?;
    assert!(rt; calls(rt.alloc(), &mut one, &PUT, Ok(1), &[PUT_1]));
    assert!(rt; completes(&mut one, &[(1, Done::Sent)]));
    one.lost();
    assert!(rt; join(rt.alloc(), &mut one, 60)?.is_empty());
    Ok(())
}

#[test]
fn a_raw_call_waits_for_a_connection(rt: HostRuntime) -> Result<(), Fail> {
    let mut one = client(rt.alloc())?;
    assert!(rt; calls(rt.alloc(), &mut one, &PUT, Ok(1), &[]));
    assert!(rt; completes(&mut one, &[]));
    let out = join(rt.alloc(), &mut one, 100)?;
    assert!(rt; are(&out, &[PUT_1]));
    assert!(rt; completes(&mut one, &[(1, Done::Sent)]));
    Ok(())
}

#[test]
fn a_raw_call_with_a_reply_is_sent_again(rt: HostRuntime) -> Result<(), Fail> {
    let mut one = client(rt.alloc())?;
    join(rt.alloc(), &mut one, 50)?;
    assert!(rt; calls(rt.alloc(), &mut one, &ask(), Ok(1), &[ASK_1]));
    one.lost();
    let out = join(rt.alloc(), &mut one, 60)?;
    assert!(rt; are(&out, &[ASK_1]));
    assert!(rt; completes(&mut one, &[]));
    Ok(())
}

/// Contexts with FT_REQUEST among them.
const TAKEN: &[(u32, &[u8])] = &[(1, b"\x09"), (FT_REQUEST, b"")];

#[test]
fn a_raw_call_is_refused(rt: HostRuntime) -> Result<(), Fail> {
    let mut one = client(rt.alloc())?;
    let taken = RawCall {
        contexts: TAKEN,
        ..PUT
    };
    assert!(rt;
        calls(
            rt.alloc(),
            &mut one,
            &taken,
            Err(RawCallError::FtRequest),
            &[]
        )
    );
    let misplaced = RawCall {
        body: Body { at: 28, ..PUT.body },
        ..PUT
    };
    assert!(rt;
        calls(
            rt.alloc(),
            &mut one,
            &misplaced,
            Err(RawCallError::Misplaced),
            &[]
        )
    );
    assert!(rt; calls(rt.alloc(), &mut one, &PUT, Ok(1), &[]));
    Ok(())
}

/// ASK_1 as the call of number 7.
const ASK_7: &[u8] = b"GIOP\x01\x02\x00\x00\x00\x00\x00\x4e\
    \x00\x00\x00\x01\x03\x00\x00\x00\x00\x00\x00\x00\x00\x00\x00\x01c\x00\x00\x00\
    \x00\x00\x00\x04put\x00\x00\x00\x00\x02\x00\x00\x00\x0d\x00\x00\x00\x18\
    \x00\x00\x00\x00\x00\x00\x00\x02A\x00\x00\x00\x00\x00\x00\x07\x00\x00\x00\x00\x00\x00\x00\x64\
    \x00\x00\x00\x01\x00\x00\x00\x01\x09\x00\x00\x00\x01\x02";

/// The same under the id 2, as the call of number 8.
const ASK_8: &[u8] = b"GIOP\x01\x02\x00\x00\x00\x00\x00\x4e\
    \x00\x00\x00\x02\x03\x00\x00\x00\x00\x00\x00\x00\x00\x00\x00\x01c\x00\x00\x00\
    \x00\x00\x00\x04put\x00\x00\x00\x00\x02\x00\x00\x00\x0d\x00\x00\x00\x18\
    \x00\x00\x00\x00\x00\x00\x00\x02A\x00\x00\x00\x00\x00\x00\x08\x00\x00\x00\x00\x00\x00\x00\x64\
    \x00\x00\x00\x01\x00\x00\x00\x01\x09\x00\x00\x00\x01\x02";

/// Whether a raw call of before can be taken up, and at 50 is refused so or not at all, and writes these messages.
fn recalls(
    alloc: Global,
    client: &mut FtClient,
    number: u32,
    call: &RawCall<'_>,
    wanted: Option<RawRecallError>,
    messages: &[&[u8]],
) -> bool {
    let mut out = Vec::new(alloc);
    has_no_nul(call.operation)
        && call.version.can_ask(call.wish)
        && client.recall_raw(number, 50, call, &mut out).err() == wanted
        && are(&out, messages)
}

#[test]
fn a_raw_call_of_before_goes_out_under_its_number(rt: HostRuntime) -> Result<(), Fail> {
    let mut one = client(rt.alloc())?;
    join(rt.alloc(), &mut one, 50)?;
    assert!(rt; recalls(rt.alloc(), &mut one, 7, &ask(), None, &[ASK_7]));
    let used = RawRecallError::Untaken(RecallError::NumberUsed);
    assert!(rt; recalls(rt.alloc(), &mut one, 7, &ask(), Some(used), &[]));
    assert!(rt; calls(rt.alloc(), &mut one, &ask(), Ok(8), &[ASK_8]));
    Ok(())
}

#[test]
fn a_raw_call_of_before_is_refused(rt: HostRuntime) -> Result<(), Fail> {
    let mut one = client(rt.alloc())?;
    let taken = RawCall {
        contexts: TAKEN,
        ..PUT
    };
    let own = RawRecallError::FtRequest;
    assert!(rt; recalls(rt.alloc(), &mut one, 7, &taken, Some(own), &[]));
    let misplaced = RawCall {
        body: Body { at: 28, ..PUT.body },
        ..PUT
    };
    let at_28 = RawRecallError::Misplaced;
    assert!(rt; recalls(rt.alloc(), &mut one, 7, &misplaced, Some(at_28), &[]));
    let late = RawCall {
        expiration: 49,
        ..PUT
    };
    let expired = RawRecallError::Untaken(RecallError::Expired);
    assert!(rt; recalls(rt.alloc(), &mut one, 7, &late, Some(expired), &[]));
    assert!(rt; recalls(rt.alloc(), &mut one, 7, &PUT, None, &[]));
    Ok(())
}

/// Whether a raw call is redirected with that error, or none.
fn redirects(client: &mut FtClient, call: &RawCall<'_>, wanted: Option<RawRedirectError>) -> bool {
    has_no_nul(call.operation)
        && call.version.can_ask(call.wish)
        && client.redirect_raw(1, call).err() == wanted
}

#[test]
fn a_raw_call_is_redirected_under_its_number(rt: HostRuntime) -> Result<(), Fail> {
    let mut one = client(rt.alloc())?;
    one.keep_on_forward(true);
    join(rt.alloc(), &mut one, 50)?;
    assert!(rt; calls(rt.alloc(), &mut one, &ask(), Ok(1), &[ASK_1]));
    one.feed(FORWARD_1)?;
    let other = RawCall {
        object_key: b"other",
        expiration: 0,
        ..ask()
    };
    let ft = RawCall {
        contexts: &[(FT_REQUEST, b"")],
        ..other
    };
    assert!(rt; redirects(&mut one, &ft, Some(RawRedirectError::FtRequest)));
    let odd = RawCall {
        body: Body {
            at: 25,
            ..other.body
        },
        ..other
    };
    assert!(rt; redirects(&mut one, &odd, Some(RawRedirectError::Misplaced)));
    assert!(rt; redirects(&mut one, &other, None));
    let unled = RawRedirectError::Unled(RedirectError::NotForwarded);
    assert!(rt; redirects(&mut one, &other, Some(unled)));
    let mut out = Vec::new(rt.alloc());
    one.resend(60, &mut out)?;
    assert!(rt; are(&out, &[ASK_OTHER_2]));
    Ok(())
}
