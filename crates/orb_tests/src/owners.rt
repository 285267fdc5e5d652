//! A connection that is served by an engine, over a wire in memory: its owner gives the outcomes that it was made with.

ghost use Rattle.std.specs.Prelude.{◌≡◌, IfOk, None};
ghost use Rattle.ft_orb.specs.Engines.{waits_in};

use crate::messages::{ADD, AGAIN, HERE, LOCATE, SEVEN, SEVEN_AGAIN, UNFIT};
use crate::visits::{Course, Wanted, course_of, is_wanted};
use cdr_core::Val;
use counter::Counter;
use ft_log::{Outcome, Retention};
use ft_orb::{Asked, Engine, Performer, Places, StreamEnd, serve_engine};
use giop_frames::Limits;
use giop_run::CAPACITY;
use memory_wire::{MemoryClock, MemoryWire, Terms};
use std::alloc::{AllocError, Global};
use std::hash::RandomState;
use std::test::Fail;

/// What an owner gives for a call.
#[derive(Clone, Copy)]
enum Gift {
    /// The total 7.
    Seven,
    /// A boolean, which `add` does not return.
    Boolean,
    /// Nothing: it gives the call up.
    Nothing,
}

/// An owner that gives the same for each call, and counts how often it is asked.
#[derive(Drop)]
struct Told {
    gift: Gift,
    asks: u32,
}

/// The outcome that returns one value.
fn returning(alloc: Global, value: Val) -> Result<Outcome, AllocError> {
    let mut results = Vec::new(alloc);
    results.push(value)?;
    Ok(Outcome::Returned(results))
}

impl Performer for Told {
    ghost use Rattle.std.specs.Prelude.{None};

    ghost answered = { λ _. None };

    fn perform(&mut self, alloc: Global, _asked: &Asked<'_>) -> Option<Outcome> {
        self.asks = self.asks.saturating_add(1);
        let value = match self.gift {
            Gift::Seven => Val::LongLong(7),
            Gift::Boolean => Val::Boolean(true),
            Gift::Nothing => return None,
        };
        returning(alloc, value).ok()
    }
}

/// An engine of a counter, with connection 1.
fn new_engine(alloc: Global, places: Places, hasher: RandomState) -> Result<Engine<Counter>, Fail>
    ensures idle { IfOk result (λ engine. waits_in engine ≡ None) }
{
    let counter = Counter::new(alloc, 0)?;
    let retention = Retention {
        capacity: CAPACITY,
        share: CAPACITY,
    };
    let limits = Limits::default();
    let mut engine = Engine::new(alloc, counter, limits, retention, places, hasher);
    engine.connect(1)?;
    Ok(engine)
}

/// What comes of a connection on which two messages come in one piece, where the owner gives this. The total is how often
/// it was asked.
fn comes_of(
    alloc: Global,
    engine: &mut Engine<Counter>,
    connection: u64,
    messages: [&[u8]; 2],
    gift: Gift,
) -> Result<Course, Fail>
    requires idle { waits_in engine.old ≡ None }
{
    let [first, second] = messages;
    let mut piece = Vec::from_slice(alloc, first)?;
    piece.extend_from_slice(second)?;
    let terms = Terms {
        sends: &[&piece],
        takes: 1 << 20,
        fails: 0,
    };
    let mut owner = Told { gift, asks: 0 };
    let mut wire = MemoryWire::new(alloc, terms);
    let mut clock = MemoryClock::new(&[50, 60]);
    let end = serve_engine(
        alloc, engine, &mut owner, connection, &mut wire, &mut clock, 9,
    );
    Ok(course_of(alloc, end, &wire, owner.asks as i64)?)
}

/// What comes of a connection on which `ADD` and then its repeat come in one piece.
fn comes_of_a_repeat(alloc: Global, hasher: RandomState, gift: Gift) -> Result<Course, Fail> {
    let mut engine = new_engine(alloc, Places::none(), hasher)?;
    comes_of(alloc, &mut engine, 1, [ADD, AGAIN], gift)
}

/// The repeat comes after the request, in one piece, and is answered without the owner.
#[test]
fn a_repeat_is_not_performed(rt: HostRuntime) -> Result<(), Fail> {
    let course = comes_of_a_repeat(rt.alloc(), RandomState::new(&rt)?, Gift::Seven)?;
    let mut taken = Vec::from_slice(rt.alloc(), SEVEN)?;
    taken.extend_from_slice(SEVEN_AGAIN)?;
    let wanted = Wanted {
        end: StreamEnd::PeerEnded,
        acts: Some(b"GTg".as_slice()),
        taken: &taken,
        total: 1,
    };
    assert!(rt; is_wanted(&course, wanted));
    Ok(())
}

/// What is kept is INTERNAL, so the repeat gets it too.
#[test]
fn an_unfit_outcome_is_internal(rt: HostRuntime) -> Result<(), Fail> {
    let course = comes_of_a_repeat(rt.alloc(), RandomState::new(&rt)?, Gift::Boolean)?;
    assert!(rt; course.end == StreamEnd::PeerEnded && course.total == 1);
    assert!(rt; course.taken.len() == 2 * UNFIT.len() && course.taken.starts_with(UNFIT));
    Ok(())
}

/// It is not asked for again.
#[test]
fn a_call_given_up_ends_the_connection(rt: HostRuntime) -> Result<(), Fail> {
    let course = comes_of_a_repeat(rt.alloc(), RandomState::new(&rt)?, Gift::Nothing)?;
    let wanted = Wanted {
        end: StreamEnd::Memory,
        acts: Some(b"G".as_slice()),
        taken: &[],
        total: 1,
    };
    assert!(rt; is_wanted(&course, wanted));
    Ok(())
}

/// `ADD` is parked. On another connection a LocateRequest and then its repeat come in one piece: the answer goes out, and
/// the repeat waits.
#[test]
fn what_comes_before_a_repeat_that_waits_is_answered(rt: HostRuntime) -> Result<(), Fail> {
    let alloc = rt.alloc();
    let places = Places {
        parked: 1,
        of_one: 1,
        joined: 1,
    };
    let mut engine = new_engine(alloc, places, RandomState::new(&rt)?)?;
    engine.connect(2)?;
    engine.feed(1, 40, ADD, &mut Vec::new(alloc))?;
    let Some(asked) = engine.asked() else {
        return Err(Fail::from("it is not asked for"));
    };
    let number = asked.number;
    engine.park(number)?;
    let course = comes_of(alloc, &mut engine, 2, [LOCATE, AGAIN], Gift::Seven)?;
    let wanted = Wanted {
        end: StreamEnd::PeerEnded,
        acts: Some(b"GTg".as_slice()),
        taken: HERE,
        total: 0,
    };
    assert!(rt; is_wanted(&course, wanted));
    Ok(())
}
