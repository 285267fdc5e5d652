//! Arguments of a request by their types.

use crate::octets::PUBLISH;
use cdr_core::Val;
use giop_frames::Limits;
use std::test::Fail;
use uses::{first_arguments, publish_types};

/// Whether a value is a quote of this symbol and price.
fn is_quote(quote: &Val, symbol: &[u8], cents: i64) -> bool {
    let Val::Struct(members) = quote else {
        return false;
    };
    match members.as_slice() {
        [Val::Str(found), Val::LongLong(price)] => found.as_slice() == symbol && *price == cents,
        _ => false,
    }
}

/// Whether values are one quote of this symbol and price, and true.
fn is_final_quote(values: &[Val], symbol: &[u8], cents: i64) -> bool {
    let [Val::Seq(quotes), Val::Boolean(true)] = values else {
        return false;
    };
    match quotes.as_slice() {
        [quote] => is_quote(quote, symbol, cents),
        _ => false,
    }
}

#[test]
fn arguments_are_those_of_the_octets(rt: HostRuntime) -> Result<(), Fail> {
    let types = publish_types(rt.alloc())?;
    let found = first_arguments(rt.alloc(), Limits::default(), PUBLISH, types.as_slice())?;
    let values = found.expect(&rt, "a request");
    assert!(rt; is_final_quote(&values, b"IBM", 12_500));
    Ok(())
}
