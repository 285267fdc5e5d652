//! Events played on a server of one counter.

ghost use Rattle.std.specs.Prelude.{IfOk, map};
ghost use Rattle.ft_orb.specs.History.{event_of};
ghost use Rattle.ft_orb.specs.Outputs.{noted};
ghost use Rattle.giop_run.specs.Plays.{AreOfLaw, AreOfNow, AreOfTable};

use crate::stop::Stop;
use counter::Counter;
use ft_log::Retention;
use ft_orb::{Event, Server, Written, play};
use giop_frames::Limits;
use std::alloc::Global;
use std::hash::RandomState;

/// What a play keeps to.
#[derive(Clone, Copy)]
pub(crate) struct Terms {
    /// How many outcomes the server keeps at a time.
    pub(crate) capacity: u32,
    /// How many of them it keeps of one client.
    pub(crate) share: u32,
    /// The counter's total at the beginning.
    pub(crate) start: i64,
    /// The limits of each connection.
    pub(crate) limits: Limits,
}

/// What was written for each event, and the total after them.
#[derive(Drop)]
pub(crate) struct Played {
    pub(crate) written: Vec<Written>,
    pub(crate) total: i64,
}

/// Plays events on a new server.
pub(crate) fn play_events(
    alloc: Global,
    terms: Terms,
    hasher: RandomState,
    events: &[Event],
) -> Result<Played, Stop>
    ensures table { IfOk result (λ played. AreOfTable terms (map event_of events.now) (map noted played.written.items)) }
    // each distinct admissible request acts once
    ensures once { IfOk result (λ played. AreOfLaw terms (map event_of events.now) (map noted played.written.items) played.total) }
    // each key by itself: whatever expirations requests carry
    ensures now { IfOk result (λ played. AreOfNow terms (map event_of events.now) (map noted played.written.items) played.total) }
{
    let counter = Counter::new(alloc, terms.start)?;
    let retention = Retention {
        capacity: terms.capacity,
        share: terms.share,
    };
    let mut server = Server::new(alloc, counter, terms.limits, retention, hasher);
    let mut written = Vec::new(alloc);
    play(alloc, &mut server, events, &mut written)?;
    let total = server.servant().total();
    Ok(Played { written, total })
}
