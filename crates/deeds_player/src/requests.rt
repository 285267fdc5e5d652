//! Requests in words.
//!
//! A request is `ID VERSION KEY get` or `ID VERSION KEY add LONG`, of the object `c`, and `oneway` before it says that no
//! reply is wished for. VERSION is `1.0` or `1.2`. KEY is `CLIENT/NUMBER/EXPIRATION`, who asks, the number of its request
//! and until when that may be sent again; or `-`.

ghost use Rattle.std.specs.Prelude.{IfOk};
ghost use Rattle.cdr_core.specs.View.{values_of};
ghost use Rattle.cdr_core.specs.Writing.{AreWritable};

use crate::deeds::number;
use cdr_core::{Order, Val, has_no_nul};
use giop_core::{FT_REQUEST, ReplyWish, Target, Version, WriteError, write_ft, write_request};
use std::alloc::Global;
use trials::{Stop, parted, ulong};

/// The version of that name.
fn version_named(word: &str) -> Result<Version, Stop> {
    match word {
        "1.0" => Ok(Version::V10),
        "1.2" => Ok(Version::V12),
        _ => Err(Stop::BadLine),
    }
}

/// The octets of the FT_REQUEST that a key is, or none for `-`.
fn context_in(alloc: Global, key: &str) -> Result<Vec<u8>, Stop> {
    let mut octets = Vec::new(alloc);
    if key == "-" {
        return Ok(octets);
    }
    let (client, words) = key.split_once('/').ok_or(Stop::BadLine)?;
    let (request, expiration) = words.split_once('/').ok_or(Stop::BadLine)?;
    let request = request.parse().map_err(|_| Stop::BadLine)?;
    let expiration = number(expiration)?;
    let client = client.as_bytes();
    if !has_no_nul(client) {
        return Err(Stop::BadLine);
    }
    write_ft(Order::Big, client, request, expiration, &mut octets).map_err(stop_of)?;
    Ok(octets)
}

/// The operation that words are, and its arguments.
fn call_in(alloc: Global, words: &str) -> Result<(&str, Vec<Val>), Stop>
    ensures { IfOk result (λ call. AreWritable (values_of call.1.items)) }
{
    match words.split_once(' ') {
        None => Ok((words, Vec::new(alloc))),
        Some((operation, word)) => {
            let long = word.parse().map_err(|_| Stop::BadLine)?;
            Ok((operation, vec![in alloc; Val::Long(long)]?))
        }
    }
}

/// Appends the request that words are.
fn put_request(alloc: Global, wish: ReplyWish, words: &str, out: &mut Vec<u8>) -> Result<(), Stop> {
    let (id, words) = parted(words)?;
    let (version, words) = parted(words)?;
    let (key, words) = parted(words)?;
    let context = context_in(alloc, key)?;
    let mut contexts = Vec::new(alloc);
    if !context.is_empty() {
        contexts.push((FT_REQUEST, context.as_slice()))?;
    }
    let (operation, arguments) = call_in(alloc, words)?;
    let operation = operation.as_bytes();
    if !has_no_nul(operation) {
        return Err(Stop::BadLine);
    }
    let version = version_named(version)?;
    if !version.can_ask(wish) {
        return Err(Stop::BadLine);
    }
    let written = write_request(
        version,
        Order::Big,
        ulong(id)?,
        wish,
        &Target::Key(b"c"),
        operation,
        &contexts,
        &arguments,
        out,
    );
    written.map_err(stop_of)
}

/// Why a message was not written.
fn stop_of(error: WriteError) -> Stop {
    match error {
        WriteError::Memory => Stop::Memory,
        WriteError::TooLong => Stop::BadLine,
    }
}

/// The octets of requests, with a comma between them.
pub(crate) fn requests_in(alloc: Global, words: &str) -> Result<Vec<u8>, Stop> {
    let mut octets = Vec::new(alloc);
    for request in words.split(',') {
        match request.strip_prefix("oneway ") {
            Some(request) => put_request(alloc, ReplyWish::None, request, &mut octets)?,
            None => put_request(alloc, ReplyWish::Full, request, &mut octets)?,
        }
    }
    Ok(octets)
}
