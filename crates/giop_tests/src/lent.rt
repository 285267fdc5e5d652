//! Service contexts as they are lent, and what the first one of id 13 says.

use crate::said::{octets_in, request_in};
use giop_core::{Contexts, FtField, ft_request};
use std::process::Abort;

// Whether the first of two handles goes on, and what it gives.
static STEPS: [(bool, Option<(u32, &[u8])>); 9] = [
    (true, Some((7, &[1]))),
    (true, Some((8, &[]))),
    (false, Some((7, &[1]))),
    (true, Some((7, &[2, 3]))),
    (true, None),
    (false, Some((8, &[]))),
    (false, Some((7, &[2, 3]))),
    (false, None),
    (true, None),
];

fn is_next(contexts: &mut Contexts, wanted: Option<(u32, &[u8])>) -> bool {
    contexts.next() == wanted
}

#[test]
fn two_handles_go_their_own_ways(rt: HostRuntime) {
    let octets = octets_in(
        &rt,
        "47494f50 01020000 0000003d 00000007 03000000 0000 0000 00000000 00000003 676f00 00 \
         00000003 00000007 00000001 01 000000 00000008 00000000 00000007 00000002 0203 \
         eeee 0a",
    );
    let mut one = request_in(&rt, &octets).contexts;
    let mut two = request_in(&rt, &octets).contexts;
    for (is_one, wanted) in &STEPS {
        let is_given = if *is_one {
            is_next(&mut one, *wanted)
        } else {
            is_next(&mut two, *wanted)
        };
        assert!(rt; is_given);
    }
}

/// What contexts say of a client.
#[derive(Clone, Copy)]
enum Ft {
    Absent,
    Bad,
    Present(&'static [u8], i32, u64),
}

/// Whether contexts say that.
fn is_ft(contexts: &Contexts, wanted: &Ft) -> bool {
    match (ft_request(contexts), wanted) {
        (FtField::Absent, Ft::Absent) | (FtField::Bad, Ft::Bad) => true,
        (
            FtField::Present {
                client_id,
                retention_id,
                expiration,
            },
            Ft::Present(client, number, until),
        ) => client_id == *client && retention_id == *number && expiration == *until,
        _ => false,
    }
}

// What is said before each of three contexts is taken, and after the last.
static LEFT: [Ft; 4] = [
    Ft::Present(b"A", 1, 100),
    Ft::Present(b"B", 2, 200),
    Ft::Bad,
    Ft::Absent,
];

#[test]
fn contexts_that_are_left_count(rt: HostRuntime) {
    let octets = octets_in(
        &rt,
        "47494f50 01020000 00000064 00000007 03000000 0000 0000 00000000 00000003 676f00 00 \
         00000003 0000000d 00000018 00000000 00000002 41000000 00000001 00000000 00000064 \
         0000000d 00000018 00000000 00000002 42000000 00000002 00000000 000000c8 0000000d 00000000",
    );
    let mut contexts = request_in(&rt, &octets).contexts;
    for wanted in &LEFT {
        assert!(rt; is_ft(&contexts, wanted) && is_ft(&contexts, wanted));
        let _next = contexts.next();
    }
}
