//! A family of accounts.

use ft_objects::{Catalogue, Families, Lookup};
use std::test::Fail;
use uses::offer_accounts;

/// What a key and an operation lead to.
#[derive(Clone, Copy, PartialEq, Eq)]
enum Target {
    NoObject,
    NoOperation,
    Typed,
    Raw,
    Checked,
}

/// Keys and operations, and what they lead to.
static LEADS: [(&[u8], &[u8], Target); 7] = [
    (b"acct/house", b"balance", Target::Raw),
    (b"acct/house2", b"balance", Target::Typed),
    (b"acct/10000", b"balance", Target::Typed),
    (b"acct/", b"balance", Target::Typed),
    (b"acct/10000", b"audit", Target::NoOperation),
    (b"acct", b"balance", Target::Raw),
    (b"", b"print", Target::Raw),
];

fn led_to(offered: &Families, key: &[u8], operation: &[u8]) -> Target {
    match offered.interface(key, operation) {
        Lookup::NoObject => Target::NoObject,
        Lookup::NoOperation => Target::NoOperation,
        Lookup::Operation(_) => Target::Typed,
        Lookup::Raw => Target::Raw,
        Lookup::Checked(_) => Target::Checked,
    }
}

#[test]
fn the_longest_prefix_leads(rt: HostRuntime) -> Result<(), Fail> {
    let offered = offer_accounts(rt.alloc())?;
    for (key, operation, wanted) in &LEADS {
        assert!(rt; led_to(&offered, key, operation) == *wanted);
        assert!(rt; offered.has_object(key));
    }
    Ok(())
}

#[test]
fn what_is_removed_leads_nowhere(rt: HostRuntime) -> Result<(), Fail> {
    let mut offered = offer_accounts(rt.alloc())?;
    assert!(rt; offered.objects.remove(b"acct/house"));
    assert!(rt; !offered.objects.remove(b"acct/house"));
    assert!(rt; led_to(&offered, b"acct/house", b"balance") == Target::Typed);
    assert!(rt; offered.families.remove(b"acct/"));
    assert!(rt; led_to(&offered, b"acct/house", b"balance") == Target::Raw);
    assert!(rt; offered.families.remove(b""));
    assert!(rt; led_to(&offered, b"acct/house", b"balance") == Target::NoObject);
    assert!(rt; !offered.has_object(b"acct/house"));
    Ok(())
}
