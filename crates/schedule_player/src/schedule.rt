//! A schedule that is read.

use crate::steps::step_in;
use crate::words::{limits, longlong, ulong, version, words_of};
use cdr_core::has_no_nul;
use ft_client::FtClient;
use ft_ends::Step;
use giop_frames::Limits;
use std::alloc::Global;
use trials::Stop;

/// What the server of a schedule is made with.
#[derive(Clone, Copy)]
pub(crate) struct Terms {
    /// The limits of each connection.
    pub limits: Limits,
    /// How many outcomes the server keeps at a time.
    pub capacity: u32,
    /// How many of them it keeps of one client.
    pub share: u32,
    /// The counter's total at the beginning.
    pub total: i64,
}

/// What was read of a schedule: what its server is made with, once its first line was read, clients that are new, and
/// the steps that are to be taken.
///
/// Each operation that is called has no NUL, and its arguments can be written: contracts say so of the steps.
#[derive(Drop)]
pub(crate) struct Schedule {
    pub terms: Option<Terms>,
    pub clients: Vec<FtClient>,
    pub steps: Vec<Step>,
}

/// What the words `MESSAGE PARTIALS CAPACITY SHARE TOTAL` are.
fn terms_in(words: &[&str]) -> Result<Terms, Stop> {
    let [message, partials, capacity, share, total] = words else {
        return Err(Stop::BadLine);
    };
    Ok(Terms {
        limits: limits(message, partials)?,
        capacity: ulong(capacity)?,
        share: ulong(share)?,
        total: longlong(total)?,
    })
}

/// The terms in the words of a schedule's first line.
fn first_terms(name: &str, words: &[&str]) -> Result<Terms, Stop> {
    match name {
        "server" => terms_in(words),
        _ => Err(Stop::BadLine),
    }
}

/// The client that the words `ID VERSION MESSAGE PARTIALS` are.
fn client_in(alloc: Global, words: &[&str]) -> Result<FtClient, Stop> {
    let [id, spoken, message, partials] = words else {
        return Err(Stop::BadLine);
    };
    let id = id.as_bytes();
    if id.is_empty() || 256 < id.len() || !has_no_nul(id) {
        return Err(Stop::BadLine);
    }
    let limits = limits(message, partials)?;
    Ok(FtClient::new(alloc, id, version(spoken)?, limits)?)
}

impl Schedule {
    ghost use Rattle.std.specs.Prelude.{OnOk};
    ghost use Rattle.std.specs.List.{AllByRecursion};
    ghost use Rattle.ft_ends.specs.Playing.{IsCallable};

    /// Before its first line.
    pub fn new(alloc: Global) -> Schedule
        ensures { AllByRecursion IsCallable result.steps.items }
    {
        Schedule {
            terms: None,
            clients: Vec::new(alloc),
            steps: Vec::new(alloc),
        }
    }

    /// Before its first line again.
    pub fn clear(&mut self)
        ensures { AllByRecursion IsCallable self.new.steps.items }
    {
        self.terms = None;
        self.clients.clear();
        self.steps.clear();
    }

    /// With the client or the step that a line's first word and its other words are.
    fn extend(&mut self, alloc: Global, name: &str, words: &[&str]) -> Result<(), Stop>
        requires { AllByRecursion IsCallable self.old.steps.items }
        ensures { OnOk result (AllByRecursion IsCallable self.new.steps.items) }
    {
        if name == "client" {
            self.clients.push(client_in(alloc, words)?)?;
            return Ok(());
        }
        self.steps.push(step_in(alloc, name, words)?)?;
        Ok(())
    }

    /// With the words of a line. Returns the terms of a schedule that they end.
    fn take_words(
        &mut self,
        alloc: Global,
        name: &str,
        words: &[&str],
    ) -> Result<Option<Terms>, Stop>
        requires { AllByRecursion IsCallable self.old.steps.items }
        ensures { OnOk result (AllByRecursion IsCallable self.new.steps.items) }
    {
        if self.terms.is_none() {
            self.terms = Some(first_terms(name, words)?);
            return Ok(None);
        }
        if name == "end" {
            return Ok(self.terms);
        }
        self.extend(alloc, name, words)?;
        Ok(None)
    }

    /// With a line. Returns the terms of a schedule that it ends.
    pub fn take_line(&mut self, alloc: Global, line: &str) -> Result<Option<Terms>, Stop>
        requires { AllByRecursion IsCallable self.old.steps.items }
        ensures { OnOk result (AllByRecursion IsCallable self.new.steps.items) }
    {
        let words = words_of(alloc, line)?;
        match words.as_slice() {
            [] => Err(Stop::BadLine),
            [name, words @ ..] => self.take_words(alloc, name, words),
        }
    }
}
