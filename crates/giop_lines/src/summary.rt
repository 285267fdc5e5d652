//! What is counted of calls, by their objects and operations.

use std::alloc::{AllocError, Global};
use std::collections::BTreeMap;

/// What is counted of the calls of an operation on an object.
#[derive(Drop)]
pub struct Row {
    pub requests: u64,
    pub answers: u64,
    /// Requests that repeat an earlier one.
    pub repeats: u64,
    /// Octets of the bodies of requests, and of answers.
    pub asked: u64,
    pub answered: u64,
    /// How many answers came so late, by their latencies, rounded up to eight binary digits, or one.
    pub latencies: BTreeMap<u64, u64>,
    /// The greatest latency.
    pub greatest: Option<u64>,
    /// How many answers were an exception, by its name or its repository id.
    pub exceptions: BTreeMap<Vec<u8>, u64>,
}

/// What a row is of: the key of the object, none where requests name it otherwise; and the operation, none of
/// LocateRequests.
#[derive(PartialEq, Eq, PartialOrd, Ord, Drop)]
pub struct Called {
    pub key: Option<Vec<u8>>,
    pub operation: Option<Vec<u8>>,
}

/// A copy of octets, if there are some.
fn copied(alloc: Global, octets: Option<&[u8]>) -> Result<Option<Vec<u8>>, AllocError> {
    match octets {
        Some(octets) => Ok(Some(Vec::from_slice(alloc, octets)?)),
        None => Ok(None),
    }
}

impl Called {
    /// An operation on an object.
    pub fn new(
        alloc: Global,
        key: Option<&[u8]>,
        operation: Option<&[u8]>,
    ) -> Result<Called, AllocError> {
        Ok(Called {
            key: copied(alloc, key)?,
            operation: copied(alloc, operation)?,
        })
    }

    /// The key of the object, if there is one.
    pub(crate) fn key(&self) -> Option<&[u8]> {
        match &self.key {
            Some(key) => Some(key),
            None => None,
        }
    }

    /// The operation, if there is one.
    pub(crate) fn operation(&self) -> Option<&[u8]> {
        match &self.operation {
            Some(operation) => Some(operation),
            None => None,
        }
    }

    /// How many octets both have.
    fn size(&self) -> usize {
        let key = self.key().unwrap_or(&[]);
        let operation = self.operation().unwrap_or(&[]);
        key.len().saturating_add(operation.len())
    }
}

/// How a connection ended, or that it did not while it was captured.
#[derive(Clone, Copy)]
pub enum Ending {
    Open,
    /// TCP alone.
    Fin,
    Reset,
    /// By the message CloseConnection, and by MessageError.
    Close,
    Error,
}

/// How many connections ended how.
#[derive(Clone, Copy)]
pub struct Endings {
    pub close: u64,
    pub error: u64,
    pub reset: u64,
    pub fin: u64,
    pub open: u64,
}

impl Endings {
    /// Counts one more.
    pub fn add(&mut self, ending: Ending) {
        let count = match ending {
            Ending::Open => &mut self.open,
            Ending::Fin => &mut self.fin,
            Ending::Reset => &mut self.reset,
            Ending::Close => &mut self.close,
            Ending::Error => &mut self.error,
        };
        *count = count.saturating_add(1);
    }
}

/// What is counted of all calls.
#[derive(Drop)]
pub struct Summary {
    alloc: Global,
    pub rows: BTreeMap<Called, Row>,
    /// What is counted of the calls that have no row of their own.
    pub others: Row,
    pub endings: Endings,
    room: Room,
}

/// So many rows are kept at most.
const MOST_ROWS: usize = 65_536;

/// For what there is room in all rows together.
#[derive(Drop)]
struct Room {
    /// Octets of keys, operations and names of exceptions.
    octets: u64,
    /// Latencies of eight binary digits.
    latencies: u64,
}

impl Room {
    /// All of it.
    fn new() -> Room {
        Room {
            octets: 16_777_216,
            latencies: 1_048_576,
        }
    }

    /// Takes room for octets, if there is some.
    fn take_octets(&mut self, octets: usize) -> bool {
        let octets = octets as u64;
        let has_room = octets <= self.octets;
        if has_room {
            self.octets = self.octets.saturating_sub(octets);
        }
        has_room
    }

    /// The latency that one counts as which is not counted yet in its row: with one binary digit, where there is no room.
    fn take_latency(&mut self, latency: u64) -> u64 {
        if self.latencies == 0 {
            return rounded(latency, 2);
        }
        self.latencies = self.latencies.saturating_sub(1);
        latency
    }
}

/// A latency rounded up to its first binary digits: those of the numbers below `scale`, a power of two.
fn rounded(latency: u64, scale: u64) -> u64 {
    let mut unit = 1u64;
    let mut left = latency;
    for _ in 0..64 {
        if left < scale {
            break;
        }
        left /= 2;
        unit = unit.saturating_mul(2);
    }
    let below = left.saturating_mul(unit);
    if below < latency {
        below.saturating_add(unit)
    } else {
        latency
    }
}

/// Counts one more.
fn count_one(counts: &mut BTreeMap<u64, u64>, latency: u64) -> Result<(), AllocError> {
    if let Some(count) = counts.get_mut(&latency) {
        *count = count.saturating_add(1);
        return Ok(());
    }
    counts.insert(latency, 1)?;
    Ok(())
}

/// Counts one more latency, rounded up to eight binary digits, or to one.
fn count_latency(
    counts: &mut BTreeMap<u64, u64>,
    latency: u64,
    room: &mut Room,
) -> Result<(), AllocError> {
    let latency = rounded(latency, 256);
    if counts.contains_key(&latency) {
        return count_one(counts, latency);
    }
    let latency = room.take_latency(latency);
    count_one(counts, latency)
}

/// The name under which exceptions are counted that find no room.
const OTHERS: &[u8] = b"(others)";

/// Counts one more exception of a name.
fn count_name(counts: &mut BTreeMap<Vec<u8>, u64>, name: Vec<u8>) -> Result<(), AllocError> {
    if let Some(count) = counts.get_mut(&name) {
        *count = count.saturating_add(1);
        return Ok(());
    }
    counts.insert(name, 1)?;
    Ok(())
}

/// Counts one more exception, among others where there is no room.
fn count_exception(
    alloc: Global,
    counts: &mut BTreeMap<Vec<u8>, u64>,
    name: Vec<u8>,
    room: &mut Room,
) -> Result<(), AllocError> {
    if counts.contains_key(&name) || room.take_octets(name.len().saturating_add(APART)) {
        return count_name(counts, name);
    }
    count_name(counts, Vec::from_slice(alloc, OTHERS)?)
}

/// So many octets of memory a name takes beside its octets, about.
const APART: usize = 64;

impl Row {
    /// Of no calls.
    fn new(alloc: Global) -> Row {
        Row {
            requests: 0,
            answers: 0,
            repeats: 0,
            asked: 0,
            answered: 0,
            latencies: BTreeMap::new(alloc),
            greatest: None,
            exceptions: BTreeMap::new(alloc),
        }
    }

    /// The least latency that so many of a hundred answers do not go over, rounded up to eight binary digits, but not over
    /// the greatest. None: no latency is known.
    pub fn latency_at(&self, percent: u64) -> Option<u64> {
        let mut all = 0u64;
        for count in self.latencies.values() {
            all = all.saturating_add(*count);
        }
        let rank = all.saturating_mul(percent).saturating_add(99) / 100;
        let mut seen = 0u64;
        for (latency, count) in &self.latencies {
            seen = seen.saturating_add(*count);
            if seen >= rank {
                return match self.greatest {
                    Some(most) => Some(most.min(*latency)),
                    None => Some(*latency),
                };
            }
        }
        None
    }

    /// Counts a request.
    fn ask(&mut self, octets: usize, is_repeat: bool) {
        self.requests = self.requests.saturating_add(1);
        self.asked = self.asked.saturating_add(octets as u64);
        if is_repeat {
            self.repeats = self.repeats.saturating_add(1);
        }
    }

    /// Counts an answer, and the exception that it is.
    fn answer(
        &mut self,
        alloc: Global,
        octets: usize,
        latency: Option<u64>,
        exception: Option<Vec<u8>>,
        room: &mut Room,
    ) -> Result<(), AllocError> {
        self.answers = self.answers.saturating_add(1);
        self.answered = self.answered.saturating_add(octets as u64);
        self.greatest = self.greatest.max(latency);
        if let Some(latency) = latency {
            count_latency(&mut self.latencies, latency, room)?;
        }
        match exception {
            Some(name) => count_exception(alloc, &mut self.exceptions, name, room),
            None => Ok(()),
        }
    }
}

impl Summary {
    /// Of nothing.
    pub fn new(alloc: Global) -> Summary {
        Summary {
            alloc,
            rows: BTreeMap::new(alloc),
            others: Row::new(alloc),
            endings: Endings {
                close: 0,
                error: 0,
                reset: 0,
                fin: 0,
                open: 0,
            },
            room: Room::new(),
        }
    }

    /// Sees to it that calls have a row, if there is room for it.
    fn make_row(&mut self, called: &Called) -> Result<(), AllocError> {
        if self.rows.contains_key(called) || self.rows.len() >= MOST_ROWS {
            return Ok(());
        }
        if !self.room.take_octets(called.size()) {
            return Ok(());
        }
        let called = Called::new(self.alloc, called.key(), called.operation())?;
        self.rows.insert(called, Row::new(self.alloc))?;
        Ok(())
    }

    /// Counts a request for an operation on an object, by the octets of its body.
    pub fn ask(
        &mut self,
        called: &Called,
        octets: usize,
        is_repeat: bool,
    ) -> Result<(), AllocError> {
        self.make_row(called)?;
        match self.rows.get_mut(called) {
            Some(row) => row.ask(octets, is_repeat),
            None => self.others.ask(octets, is_repeat),
        }
        Ok(())
    }

    /// Counts an answer to one, by the octets of its body, and the exception that it is.
    pub fn answer(
        &mut self,
        called: &Called,
        octets: usize,
        latency: Option<u64>,
        exception: Option<Vec<u8>>,
    ) -> Result<(), AllocError> {
        self.make_row(called)?;
        let alloc = self.alloc;
        match self.rows.get_mut(called) {
            Some(row) => row.answer(alloc, octets, latency, exception, &mut self.room),
            None => self
                .others
                .answer(alloc, octets, latency, exception, &mut self.room),
        }
    }
}
