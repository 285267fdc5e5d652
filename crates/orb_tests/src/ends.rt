//! How a connection over a wire ends, and what was sent on it then.

use crate::messages::{ADD, AGAIN, BROKEN, CLOSE, ERROR, EXPIRED, HERE, LOCATE, SEVEN};
use crate::visits::{Course, Wanted, comes, is_wanted, new_server, visit_at};
use ft_orb::StreamEnd;
use memory_wire::Terms;
use std::alloc::Global;
use std::hash::RandomState;
use std::test::Fail;

/// What a wire does, how many reads are made, and what comes of it.
struct Row {
    name: &'static str,
    terms: Terms<'static>,
    max_reads: u32,
    end: StreamEnd,
    /// What the wire's calls do: a read gives octets (G), gives none (g) or fails (r); a write takes octets (T), takes
    /// none (t) or fails (w).
    acts: &'static [u8],
    /// The parts of what the wire takes.
    taken: &'static [&'static [u8]],
    /// The counter's total afterwards.
    total: i64,
}

/// More octets than any write has.
const ALL: usize = 1 << 20;

static ROWS: [Row; 12] = [
    Row {
        name: "a write takes one octet",
        terms: Terms {
            sends: &[ADD],
            takes: 1,
            fails: 0,
        },
        max_reads: 9,
        end: StreamEnd::PeerEnded,
        acts: b"GTTTTTTTTTTTTTTTTTTTTTTTTTTTTTTTTg",
        taken: &[SEVEN],
        total: 7,
    },
    Row {
        name: "a write takes all",
        terms: Terms {
            sends: &[ADD],
            takes: ALL,
            fails: 0,
        },
        max_reads: 9,
        end: StreamEnd::PeerEnded,
        acts: b"GTg",
        taken: &[SEVEN],
        total: 7,
    },
    Row {
        name: "one read is made",
        terms: Terms {
            sends: &[ADD, AGAIN],
            takes: ALL,
            fails: 0,
        },
        max_reads: 1,
        end: StreamEnd::ReadsUsed,
        acts: b"GTT",
        taken: &[SEVEN, CLOSE],
        total: 7,
    },
    Row {
        name: "no read is made",
        terms: Terms {
            sends: &[ADD],
            takes: ALL,
            fails: 0,
        },
        max_reads: 0,
        end: StreamEnd::ReadsUsed,
        acts: b"T",
        taken: &[CLOSE],
        total: 0,
    },
    Row {
        name: "the first read fails",
        terms: Terms {
            sends: &[ADD],
            takes: ALL,
            fails: 1,
        },
        max_reads: 9,
        end: StreamEnd::ReadFault,
        acts: b"r",
        taken: &[],
        total: 0,
    },
    Row {
        name: "the second read fails",
        terms: Terms {
            sends: &[ADD],
            takes: ALL,
            fails: 3,
        },
        max_reads: 9,
        end: StreamEnd::ReadFault,
        acts: b"GTr",
        taken: &[SEVEN],
        total: 7,
    },
    Row {
        name: "a write takes no octet",
        terms: Terms {
            sends: &[ADD],
            takes: 0,
            fails: 0,
        },
        max_reads: 9,
        end: StreamEnd::WriteFault,
        acts: b"Gt",
        taken: &[],
        total: 7,
    },
    Row {
        name: "CloseConnection is not taken",
        terms: Terms {
            sends: &[ADD],
            takes: ALL,
            fails: 3,
        },
        max_reads: 1,
        end: StreamEnd::WriteFault,
        acts: b"GTw",
        taken: &[SEVEN],
        total: 7,
    },
    Row {
        name: "the stream has a fault",
        terms: Terms {
            sends: &[LOCATE, BROKEN, ADD],
            takes: 5,
            fails: 0,
        },
        max_reads: 9,
        end: StreamEnd::LinkClosed,
        acts: b"GTTTTGTTT",
        taken: &[HERE, ERROR],
        total: 0,
    },
    Row {
        name: "the peer closes the connection",
        terms: Terms {
            sends: &[LOCATE, CLOSE, ADD],
            takes: ALL,
            fails: 0,
        },
        max_reads: 9,
        end: StreamEnd::LinkClosed,
        acts: b"GTG",
        taken: &[HERE],
        total: 0,
    },
    Row {
        name: "it does so at the last read",
        terms: Terms {
            sends: &[LOCATE, CLOSE],
            takes: ALL,
            fails: 0,
        },
        max_reads: 2,
        end: StreamEnd::LinkClosed,
        acts: b"GTG",
        taken: &[HERE],
        total: 0,
    },
    Row {
        name: "the peer sends nothing",
        terms: Terms {
            sends: &[],
            takes: ALL,
            fails: 0,
        },
        max_reads: 9,
        end: StreamEnd::PeerEnded,
        acts: b"g",
        taken: &[],
        total: 0,
    },
];

/// Whether a connection ends as its row says, and is closed then.
fn holds(alloc: Global, hasher: RandomState, row: &Row) -> Result<bool, Fail> {
    let mut server = new_server(alloc, hasher)?;
    let taken: Vec<u8> = row.taken.concat(alloc)?;
    let wanted = Wanted {
        end: row.end,
        acts: Some(row.acts),
        taken: &taken,
        total: row.total,
    };
    let is_so = comes(alloc, &mut server, 1, (row.terms, row.max_reads), wanted)?;
    Ok(is_so && server.is_closed(1))
}

#[test]
fn each_end_has_its_cause(rt: HostRuntime) -> Result<(), Fail> {
    let hasher = RandomState::new(&rt)?;
    for row in &ROWS {
        assert!(rt; holds(rt.alloc(), hasher, row)?, "{}", row.name);
    }
    Ok(())
}

/// What a server of a counter from 0 makes of two locates and a request with these moments.
fn come_at(alloc: Global, hasher: RandomState, moments: &[u64]) -> Result<Course, Fail> {
    let terms = Terms {
        sends: &[LOCATE, LOCATE, ADD],
        takes: ALL,
        fails: 0,
    };
    let mut server = new_server(alloc, hasher)?;
    visit_at(alloc, &mut server, 1, terms, 9, moments)
}

/// The expiration of `ADD` is 100. The third moment goes back, and counts as the second.
#[test]
fn the_clock_is_asked_for_each_piece(rt: HostRuntime) -> Result<(), Fail> {
    let course = come_at(rt.alloc(), RandomState::new(&rt)?, [50, 120, 60].as_slice())?;
    let taken: Vec<u8> = [HERE, HERE, EXPIRED].concat(rt.alloc())?;
    let wanted = Wanted {
        end: StreamEnd::PeerEnded,
        acts: Some(b"GTGTGTg".as_slice()),
        taken: &taken,
        total: 0,
    };
    assert!(rt; is_wanted(&course, wanted));
    Ok(())
}
