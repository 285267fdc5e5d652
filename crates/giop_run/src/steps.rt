//! The script of a play on an engine: events, and what the engine's owner does, a line for each.
//!
//! Beside the lines of a script of events (`script`) it has
//!
//! - `owner performs`, `owner gives_up`, `owner system NAME MINOR` with the name of a system exception, as `TRANSIENT`,
//!   `owner mistypes`, `owner declines`, and `owner leaves`, which is to give up and close the connection: so the owner
//!   answers from there on. Until one says otherwise it performs
//! - `park`: the next request that is asked for is parked. Several add up
//! - `answer NUMBER`: the owner answers the request that is parked under this number
//! - `decline NUMBER`: it declines that request, with TRANSIENT

ghost use Rattle.std.specs.Prelude.{IfErr};
ghost use Rattle.giop_run.specs.Script.{CountsFromOne};

use crate::owner::Manner;
use crate::script::{EventError, ScriptError, decimal, event_in};
use ft_log::SystemName;
use ft_orb::Event;
use std::alloc::Global;

/// What a line says.
#[derive(Drop)]
pub(crate) enum Step {
    /// Something happens on a connection.
    Happens(Event),
    /// So the owner answers from there on.
    Owner(Manner),
    /// One request more is to be parked.
    Park,
    /// The owner answers the request that is parked under this number.
    Answer(u64),
    /// It declines that request.
    Decline(u64),
}

/// What a line says, and its number, counted from 1.
#[derive(Drop)]
pub(crate) struct Line {
    pub(crate) number: u64,
    pub(crate) step: Step,
}

/// The system exceptions that the standard has (GIOP 9.4.3).
const SYSTEM_NAMES: [SystemName; 40] = [
    SystemName::Marshal,
    SystemName::BadContext,
    SystemName::NoResources,
    SystemName::BadOperation,
    SystemName::ObjectNotExist,
    SystemName::Unknown,
    SystemName::BadParam,
    SystemName::NoPermission,
    SystemName::ImpLimit,
    SystemName::Internal,
    SystemName::Transient,
    SystemName::NoMemory,
    SystemName::CommFailure,
    SystemName::InvObjref,
    SystemName::Initialize,
    SystemName::NoImplement,
    SystemName::BadTypecode,
    SystemName::NoResponse,
    SystemName::PersistStore,
    SystemName::BadInvOrder,
    SystemName::FreeMem,
    SystemName::InvIdent,
    SystemName::InvFlag,
    SystemName::IntfRepos,
    SystemName::ObjAdapter,
    SystemName::DataConversion,
    SystemName::TransactionRequired,
    SystemName::TransactionRolledback,
    SystemName::InvalidTransaction,
    SystemName::InvPolicy,
    SystemName::CodesetIncompatible,
    SystemName::Rebind,
    SystemName::Timeout,
    SystemName::TransactionUnavailable,
    SystemName::TransactionMode,
    SystemName::BadQos,
    SystemName::InvalidActivity,
    SystemName::ActivityCompleted,
    SystemName::ActivityRequired,
    SystemName::ThreadCancelled,
];

/// Whether a word is a system exception's name, as its repository id has it.
fn is_name_of(word: &str, exception: SystemName) -> bool {
    let id = exception.repository_id();
    match id.strip_prefix(b"IDL:omg.org/CORBA/") {
        Some(rest) => rest.strip_suffix(b":1.0") == Some(word.as_bytes()),
        None => false,
    }
}

/// The system exception of a name.
fn system_name(word: &str) -> Result<SystemName, EventError> {
    for exception in &SYSTEM_NAMES {
        if is_name_of(word, *exception) {
            return Ok(*exception);
        }
    }
    Err(EventError::Bad)
}

/// The system exception in the words `system NAME MINOR`.
fn system_in(words: &str) -> Result<Manner, EventError> {
    let words = words.strip_prefix("system ").ok_or(EventError::Bad)?;
    let (name, minor) = words.split_once(' ').ok_or(EventError::Bad)?;
    match u32::try_from(decimal(minor)?) {
        Ok(minor) => Ok(Manner::System(system_name(name)?, minor)),
        Err(_) => Err(EventError::Bad),
    }
}

/// How the owner answers, in the words of a line.
fn manner_in(words: &str) -> Result<Manner, EventError> {
    match words {
        "performs" => Ok(Manner::Performs),
        "gives_up" => Ok(Manner::GivesUp),
        "mistypes" => Ok(Manner::Mistypes),
        "declines" => Ok(Manner::Declines),
        "leaves" => Ok(Manner::Leaves),
        _ => system_in(words),
    }
}

/// What a line says.
fn step_in(alloc: Global, line: &str) -> Result<Step, EventError> {
    if line == "park" {
        return Ok(Step::Park);
    }
    if let Some(words) = line.strip_prefix("owner ") {
        return Ok(Step::Owner(manner_in(words)?));
    }
    if let Some(number) = line.strip_prefix("answer ") {
        return Ok(Step::Answer(decimal(number)?));
    }
    if let Some(number) = line.strip_prefix("decline ") {
        return Ok(Step::Decline(decimal(number)?));
    }
    Ok(Step::Happens(event_in(alloc, line)?))
}

/// Appends what a line says, unless it is passed over.
fn put_line(
    alloc: Global,
    number: u64,
    line: &str,
    lines: &mut Vec<Line>,
) -> Result<(), EventError> {
    if line.is_empty() || line.starts_with('#') {
        return Ok(());
    }
    let step = step_in(alloc, line)?;
    match lines.push(Line { number, step }) {
        Ok(()) => Ok(()),
        Err(_) => Err(EventError::Memory),
    }
}

/// What the lines of a script say, in order. Which lines are passed over, and how a line ends, is as in a script of
/// events.
pub(crate) fn read_steps(alloc: Global, script: &str) -> Result<Vec<Line>, ScriptError>
    ensures { IfErr result CountsFromOne }
{
    let mut lines = Vec::new(alloc);
    for (i, line) in script.lines().enumerate() {
        let number = i as u64 + 1;
        match put_line(alloc, number, line, &mut lines) {
            Ok(()) => {}
            Err(EventError::Bad) => return Err(ScriptError::BadLine(number)),
            Err(EventError::Memory) => return Err(ScriptError::Memory),
        }
    }
    Ok(lines)
}
