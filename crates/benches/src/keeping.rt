//! A log that keeps outcomes, and nothing else.
//!
//! The words are how many outcomes are kept one after the other, how many the log may keep, a power of two from 1,024 to
//! 65,536, how many outcomes each client may have (as many as the log: clients are not counted), and how they expire
//! (`expiry`). Each outcome is of a client of its own, whose id has 32 octets, or, with the word `one` after the kind, all are
//! one client's. What it gives is how many calls found an outcome, and a checksum of how many were kept after each second one.

use crate::expiry::{Expiry, moments};
use crate::report::{Report, mixed};
use crate::stop::Stop;
use crate::words::number;
use cdr_core::Val;
use ft_log::{Key, Log, LogError, Outcome, Retention};
use std::alloc::{AllocError, Global};
use std::hash::RandomState;

/// How the words go.
const USAGE: &str = "usage: benches log COUNT ENTRIES SHARE rising|scattered|together [one]";

/// The octets of a client's id: its number in the first eight.
const CLIENT: [u8; 32] = *b"........-client-of-the-benchmark";

/// What the words ask for.
#[derive(Clone, Copy)]
struct Task {
    count: u32,
    entries: u32,
    share: u32,
    expiry: Expiry,
    is_one_client: bool,
}

/// An order of expirations, by its word.
fn expiry_named(word: &str) -> Option<Expiry> {
    match word {
        "rising" => Some(Expiry::Rising),
        "scattered" => Some(Expiry::Scattered),
        "together" => Some(Expiry::Together),
        _ => None,
    }
}

/// A task, each part of it from its word.
fn task_from(
    count: &str,
    entries: &str,
    share: &str,
    expiry: &str,
    is_one_client: bool,
) -> Option<Task> {
    let entries = number(entries)?;
    let is_right = entries.is_power_of_two() && (1024..=65_536).contains(&entries);
    is_right.then_some(())?;
    Some(Task {
        count: number(count)?,
        entries,
        share: number(share)?,
        expiry: expiry_named(expiry)?,
        is_one_client,
    })
}

/// The task that the words are.
fn task_of(words: &[&str]) -> Option<Task> {
    match *words {
        [count, entries, share, expiry] => task_from(count, entries, share, expiry, false),
        [count, entries, share, expiry, "one"] => task_from(count, entries, share, expiry, true),
        _ => None,
    }
}

/// A key of its own.
fn key_of(alloc: Global, task: Task, index: u32) -> Result<Key, AllocError> {
    let mut client = CLIENT;
    if !task.is_one_client {
        client[..8].copy_from_slice(&u64::from(index).to_be_bytes());
    }
    Key::new(alloc, &client, index.cast_signed())
}

/// The outcome of a request: its number.
fn outcome_of(index: u32) -> Outcome {
    Outcome::One(Val::LongLong(i64::from(index)))
}

/// Keeps an outcome under a key, if none is kept there, once what expired is forgotten. Whether one was.
fn keep(alloc: Global, log: &mut Log, task: Task, index: u32) -> Result<bool, LogError> {
    let (now, until) = moments(task.expiry, task.entries, index);
    log.forget(now);
    let key = key_of(alloc, task, index)?;
    if log.find(&key).is_some() {
        return Ok(true);
    }
    log.make_room(&key)?;
    log.keep(key, until, outcome_of(index));
    Ok(false)
}

/// Keeps so many outcomes.
fn work(alloc: Global, hasher: RandomState, task: Task) -> Result<Report, LogError> {
    let retention = Retention {
        capacity: task.entries,
        share: task.share,
    };
    let mut log = Log::new(alloc, retention, hasher);
    let mut found: u64 = 0;
    let mut sum = 0;
    for index in 0..task.count {
        if keep(alloc, &mut log, task, index)? {
            found = found.wrapping_add(1);
        }
        if index % 2 == 1 {
            sum = mixed(sum, log.len() as u64);
        }
    }
    Ok(Report::Messages { count: found, sum })
}

/// Does what the words ask for.
pub(crate) fn run(alloc: Global, hasher: RandomState, words: &[&str]) -> Result<Report, Stop> {
    let Some(task) = task_of(words) else {
        return Err(Stop::Words(USAGE));
    };
    match work(alloc, hasher, task) {
        Ok(report) => Ok(report),
        Err(_) => Err(Stop::Memory),
    }
}
