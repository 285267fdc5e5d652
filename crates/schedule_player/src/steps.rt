//! Steps in words.

ghost use Rattle.std.specs.Prelude.{IfOk};
ghost use Rattle.cdr_core.specs.Spelling.{IsClean};
ghost use Rattle.cdr_core.specs.View.{values_of};
ghost use Rattle.cdr_core.specs.Writing.{AreWritable};
ghost use Rattle.ft_ends.specs.Playing.{IsCallable};

use crate::words::{long, moment, ulong};
use cdr_core::{Val, has_no_nul};
use ft_ends::{Call, Step};
use std::alloc::Global;
use trials::Stop;

/// The arguments that words are: none, or a long.
fn arguments_in(alloc: Global, words: &[&str]) -> Result<Vec<Val>, Stop>
    ensures { IfOk result (λ vs. AreWritable (values_of vs.items)) }
{
    match words {
        [] => Ok(Vec::new(alloc)),
        [word] => Ok(vec![in alloc; Val::Long(long(word)?)]?),
        _ => Err(Stop::BadLine),
    }
}

/// What the words `KEY OPERATION EXPIRATION [LONG]` ask.
fn asked_in(alloc: Global, words: &[&str]) -> Result<Call, Stop>
    ensures clean { IfOk result (λ call. IsClean call.operation.items) }
    ensures writable { IfOk result (λ call. AreWritable (values_of call.arguments.items)) }
{
    let [key, operation, expiration, arguments @ ..] = words else {
        return Err(Stop::BadLine);
    };
    let operation = operation.as_bytes();
    if !has_no_nul(operation) {
        return Err(Stop::BadLine);
    }
    Ok(Call {
        object_key: Vec::from_slice(alloc, key.as_bytes())?,
        operation: Vec::from_slice(alloc, operation)?,
        arguments: arguments_in(alloc, arguments)?,
        expiration: moment(expiration)?,
    })
}

/// The call in the words `K NOW KEY OPERATION EXPIRATION [LONG]`.
fn call_in(alloc: Global, words: &[&str]) -> Result<Step, Stop>
    ensures { IfOk result IsCallable }
{
    let [client, now, asked @ ..] = words else {
        return Err(Stop::BadLine);
    };
    Ok(Step::Call {
        client: ulong(client)?,
        now: moment(now)?,
        call: asked_in(alloc, asked)?,
    })
}

/// The call of before in the words `K NUMBER NOW KEY OPERATION EXPIRATION [LONG]`.
fn recall_in(alloc: Global, words: &[&str]) -> Result<Step, Stop>
    ensures { IfOk result IsCallable }
{
    let [client, number, now, asked @ ..] = words else {
        return Err(Stop::BadLine);
    };
    Ok(Step::Recall {
        client: ulong(client)?,
        number: ulong(number)?,
        now: moment(now)?,
        call: asked_in(alloc, asked)?,
    })
}

/// What is redirected, in the words `K ID KEY`.
fn redirect_in(alloc: Global, words: &[&str]) -> Result<Step, Stop>
    ensures { IfOk result IsCallable }
{
    let [client, id, key] = words else {
        return Err(Stop::BadLine);
    };
    Ok(Step::Redirect {
        client: ulong(client)?,
        id: long(id)?,
        object_key: Vec::from_slice(alloc, key.as_bytes())?,
    })
}

/// What goes up, in the words `K COUNT NOW`.
fn up_in(words: &[&str]) -> Result<Step, Stop>
    ensures { IfOk result IsCallable }
{
    let [client, count, now] = words else {
        return Err(Stop::BadLine);
    };
    Ok(Step::Up {
        client: ulong(client)?,
        count: ulong(count)?,
        now: moment(now)?,
    })
}

/// A step of a client and a number, by its name.
fn numbered_step(name: &str, client: u32, number: &str) -> Result<Step, Stop>
    ensures { IfOk result IsCallable }
{
    match name {
        "skip" => Ok(Step::Skip {
            client,
            number: ulong(number)?,
        }),
        "keep" => Ok(Step::Keep {
            client,
            keeps: ulong(number)? != 0,
        }),
        "forwards" => Ok(Step::KeepForwards {
            client,
            keeps: ulong(number)? != 0,
        }),
        "connect" => Ok(Step::Connect {
            client,
            now: moment(number)?,
        }),
        "resend" => Ok(Step::Resend {
            client,
            now: moment(number)?,
        }),
        "down" => Ok(Step::Down {
            client,
            count: ulong(number)?,
        }),
        "cancel" => Ok(Step::Cancel {
            client,
            id: long(number)?,
        }),
        "tick" => Ok(Step::Tick {
            client,
            now: moment(number)?,
        }),
        _ => Err(Stop::BadLine),
    }
}

/// A step of a client alone, by its name.
fn plain_step(name: &str, client: u32) -> Result<Step, Stop>
    ensures { IfOk result IsCallable }
{
    match name {
        "cut" => Ok(Step::Cut { client }),
        "shut" => Ok(Step::Shut { client }),
        _ => Err(Stop::BadLine),
    }
}

/// The step that a line's first word and its other words are.
pub(crate) fn step_in(alloc: Global, name: &str, words: &[&str]) -> Result<Step, Stop>
    ensures { IfOk result IsCallable }
{
    match (name, words) {
        ("call", _) => call_in(alloc, words),
        ("recall", _) => recall_in(alloc, words),
        ("redirect", _) => redirect_in(alloc, words),
        ("up", _) => up_in(words),
        (_, [client]) => plain_step(name, ulong(client)?),
        (_, [client, number]) => numbered_step(name, ulong(client)?, number),
        _ => Err(Stop::BadLine),
    }
}
