//! Replies that carry a service context, which the owner of an engine gives.

ghost use Rattle.std.specs.Prelude.{◌≡◌, IfOk, IsTrue, None};
ghost use Rattle.ft_orb.specs.Engines.{waits_in};

use crate::messages::{ADD, AGAIN, SEVEN_AGAIN};
use cdr_core::Val;
use counter::Counter;
use ft_log::{Outcome, Retention};
use ft_orb::{Engine, Places};
use giop_frames::Limits;
use giop_run::CAPACITY;
use std::alloc::Global;
use std::hash::RandomState;
use std::test::Fail;

/// A Request of 1.0 with the id 5 for `add` of 7 at the key `c`, without contexts.
const ADD_10: &[u8] = b"GIOP\x01\x00\x00\x00\x00\x00\x00\x2c\
    \x00\x00\x00\x00\x00\x00\x00\x05\x01\x00\x00\x00\x00\x00\x00\x01c\x00\x00\x00\
    \x00\x00\x00\x04add\x00\x00\x00\x00\x00\x00\x00\x00\x00\x00\x00\x00\x00\x00\x00\x00\x07";

/// Its Reply with the context 15 of three octets: that stands first, and padding behind it and before the total 7.
const SEVEN_CARRYING_10: &[u8] = b"GIOP\x01\x00\x00\x01\x00\x00\x00\x24\
    \x00\x00\x00\x01\x00\x00\x00\x0f\x00\x00\x00\x03\x04\x05\x06\x00\
    \x00\x00\x00\x05\x00\x00\x00\x00\x00\x00\x00\x00\x00\x00\x00\x00\x00\x00\x00\x07";

/// The Reply of 1.2 to `ADD` with that context, which stands behind the id and the status: five octets of padding lead to
/// the total 7.
const SEVEN_CARRYING: &[u8] = b"GIOP\x01\x02\x00\x01\x00\x00\x00\x24\
    \x00\x00\x00\x05\x00\x00\x00\x00\x00\x00\x00\x01\x00\x00\x00\x0f\x00\x00\x00\x03\x04\x05\x06\
    \x00\x00\x00\x00\x00\x00\x00\x00\x00\x00\x00\x00\x07";

/// Answers what waits with the total 7 and the context, if something waits and it can.
fn answer(alloc: Global, engine: &mut Engine<Counter>, out: &mut Vec<u8>) -> Result<bool, Fail>
    ensures { IfOk result (λ did. IsTrue did → waits_in engine.new ≡ None) }
{
    let Some(asked) = engine.asked() else {
        return Ok(false);
    };
    let number = asked.number;
    let mut results = Vec::new(alloc);
    results.push(Val::LongLong(7))?;
    let outcome = Outcome::Returned(results);
    let contexts = [(15, b"\x04\x05\x06".as_slice())];
    if !engine.can_answer_with(number, &outcome, &contexts) {
        return Ok(false);
    }
    engine.answer_with(number, outcome, &contexts, out)?;
    Ok(true)
}

/// What is written where a request comes and is answered so, and then another comes.
fn comes_of(
    alloc: Global,
    hasher: RandomState,
    first: &[u8],
    second: &[u8],
) -> Result<Vec<u8>, Fail> {
    let counter = Counter::new(alloc, 0)?;
    let retention = Retention {
        capacity: CAPACITY,
        share: CAPACITY,
    };
    let mut engine = Engine::new(
        alloc,
        counter,
        Limits::default(),
        retention,
        Places::none(),
        hasher,
    );
    engine.connect(1)?;
    let mut out = Vec::new(alloc);
    engine.feed(1, 50, first, &mut out)?;
    if answer(alloc, &mut engine, &mut out)? {
        engine.feed(1, 60, second, &mut out)?;
    }
    Ok(out)
}

#[test]
fn a_reply_of_1_0_carries_a_context(rt: HostRuntime) -> Result<(), Fail> {
    let out = comes_of(rt.alloc(), RandomState::new(&rt)?, ADD_10, b"")?;
    assert!(rt; out.as_slice() == SEVEN_CARRYING_10);
    Ok(())
}

/// The repeat is told what was kept, without the context.
#[test]
fn a_repeat_is_told_no_context(rt: HostRuntime) -> Result<(), Fail> {
    let out = comes_of(rt.alloc(), RandomState::new(&rt)?, ADD, AGAIN)?;
    let mut wanted = Vec::from_slice(rt.alloc(), SEVEN_CARRYING)?;
    wanted.extend_from_slice(SEVEN_AGAIN)?;
    assert!(rt; out == wanted);
    Ok(())
}
