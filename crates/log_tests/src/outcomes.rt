//! Copies of outcomes and of keys.

use cdr_core::Val;
use ft_log::{Completion, Key, Outcome, SystemName};
use std::alloc::{AllocError, Global};

/// Whether two outcomes print as the same.
fn is_printed_alike(alloc: Global, one: &Outcome, other: &Outcome) -> Result<bool, AllocError> {
    let one = format!(in alloc; "{one:?}")?;
    let other = format!(in alloc; "{other:?}")?;
    Ok(one.as_str() == other.as_str())
}

/// Whether the copy of an outcome of each kind prints as the outcome.
fn are_copied(alloc: Global) -> Result<bool, AllocError> {
    let text = Vec::from_slice(alloc, b"why")?;
    let id = Vec::from_slice(alloc, b"IDL:Refused:1.0")?;
    let outcomes = [
        Outcome::Returned(vec![in alloc; Val::Long(-7), Val::Boolean(true)]?),
        Outcome::One(Val::Str(Vec::from_slice(alloc, b"one")?)),
        Outcome::Raised(id, vec![in alloc; Val::Str(text)]?),
        Outcome::System(SystemName::ImpLimit, 3, Completion::Maybe),
    ];
    for outcome in &outcomes {
        let copy = outcome.copy(alloc)?;
        if !is_printed_alike(alloc, outcome, &copy)? {
            return Ok(false);
        }
    }
    Ok(true)
}

#[test]
fn outcomes_are_copied(rt: HostRuntime) {
    let holds = are_copied(rt.alloc()).expect(&rt, "memory");
    assert!(rt; holds);
}

/// Whether a key is its copy, and neither that of another request nor that of another client.
fn are_keys_compared(alloc: Global) -> Result<bool, AllocError> {
    let key = Key::new(alloc, b"A", 1)?;
    let copy = key.copy(alloc)?;
    let other_request = Key::new(alloc, b"A", 2)?;
    let other_client = Key::new(alloc, b"B", 1)?;
    Ok(key.is_same(&copy) && !key.is_same(&other_request) && !key.is_same(&other_client))
}

#[test]
fn keys_are_compared_by_both_parts(rt: HostRuntime) {
    let holds = are_keys_compared(rt.alloc()).expect(&rt, "memory");
    assert!(rt; holds);
}
