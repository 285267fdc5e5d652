//! A connection that is served over a wire in memory.

use counter::Counter;
use ft_log::Retention;
use ft_orb::{Server, StreamEnd, serve_stream};
use giop_frames::Limits;
use giop_run::CAPACITY;
use memory_wire::{Act, MemoryClock, MemoryWire, Terms};
use std::alloc::{AllocError, Global};
use std::hash::RandomState;
use std::test::Fail;

/// A server of a counter from 0.
pub(crate) fn new_server(
    alloc: Global,
    hasher: RandomState,
) -> Result<Server<Counter>, AllocError> {
    let counter = Counter::new(alloc, 0)?;
    let limits = Limits::default();
    let retention = Retention {
        capacity: CAPACITY,
        share: CAPACITY,
    };
    Ok(Server::new(alloc, counter, limits, retention, hasher))
}

/// What came of a connection.
#[derive(Drop)]
pub(crate) struct Course {
    pub(crate) end: StreamEnd,
    /// What the wire's calls did, a letter for each.
    pub(crate) acts: Vec<u8>,
    /// What the wire took.
    pub(crate) taken: Vec<u8>,
    /// The counter's total afterwards.
    pub(crate) total: i64,
}

/// The letter of an act, a capital where octets moved.
fn letter(act: &Act) -> u8 {
    match act {
        Act::Gave(_) => b'G',
        Act::GaveNone => b'g',
        Act::ReadFailed => b'r',
        Act::Took(_) => b'T',
        Act::TookNone => b't',
        Act::WriteFailed => b'w',
    }
}

/// The letters of acts.
fn letters(alloc: Global, acts: &[Act]) -> Result<Vec<u8>, AllocError> {
    let mut letters = Vec::new(alloc);
    for act in acts {
        letters.push(letter(act))?;
    }
    Ok(letters)
}

/// The octets that a wire took.
fn taken_in(alloc: Global, acts: &[Act]) -> Result<Vec<u8>, AllocError> {
    let mut taken = Vec::new(alloc);
    for act in acts {
        if let Act::Took(octets) = act {
            taken.extend_from_slice(octets)?;
        }
    }
    Ok(taken)
}

/// What came of a connection that ended so.
pub(crate) fn course_of(
    alloc: Global,
    end: StreamEnd,
    wire: &MemoryWire,
    total: i64,
) -> Result<Course, AllocError> {
    let acts = wire.acts().unwrap_or(&[]);
    Ok(Course {
        end,
        acts: letters(alloc, acts)?,
        taken: taken_in(alloc, acts)?,
        total,
    })
}

/// Serves a new connection over a wire, with these moments.
pub(crate) fn visit_at(
    alloc: Global,
    server: &mut Server<Counter>,
    connection: u64,
    terms: Terms,
    max_reads: u32,
    moments: &[u64],
) -> Result<Course, Fail> {
    server.connect(connection)?;
    let mut wire = MemoryWire::new(alloc, terms);
    let mut clock = MemoryClock::new(moments);
    let end = serve_stream(alloc, server, connection, &mut wire, &mut clock, max_reads);
    Ok(course_of(alloc, end, &wire, server.servant().total())?)
}

/// Serves a new connection over a wire, with moments that rise from 50.
pub(crate) fn visit(
    alloc: Global,
    server: &mut Server<Counter>,
    connection: u64,
    terms: Terms,
    max_reads: u32,
) -> Result<Course, Fail> {
    let moments = [50, 60, 70, 80];
    visit_at(
        alloc,
        server,
        connection,
        terms,
        max_reads,
        moments.as_slice(),
    )
}

/// How a connection is to end, what its wire's calls are to do, where that is asked, what it is to take, and the
/// counter's total afterwards.
#[derive(Clone, Copy)]
pub(crate) struct Wanted<'a> {
    pub(crate) end: StreamEnd,
    pub(crate) acts: Option<&'a [u8]>,
    pub(crate) taken: &'a [u8],
    pub(crate) total: i64,
}

/// Whether a wire's calls did what is asked.
fn did(course: &Course, acts: Option<&[u8]>) -> bool {
    match acts {
        Some(acts) => course.acts.as_slice() == acts,
        None => true,
    }
}

/// Whether that came of a connection.
pub(crate) fn is_wanted(course: &Course, wanted: Wanted) -> bool {
    course.end == wanted.end
        && did(course, wanted.acts)
        && course.taken.as_slice() == wanted.taken
        && course.total == wanted.total
}

/// Serves a new connection over a wire, and says whether that comes of it.
pub(crate) fn comes(
    alloc: Global,
    server: &mut Server<Counter>,
    connection: u64,
    (terms, max_reads): (Terms, u32),
    wanted: Wanted,
) -> Result<bool, Fail> {
    let course = visit(alloc, server, connection, terms, max_reads)?;
    Ok(is_wanted(&course, wanted))
}
