//! What is asked of a bank, and what it answers.

use crate::octets::DEPOSIT;
use cdr_core::Val;
use ft_log::Outcome;
use std::alloc::{AllocError, Global};

/// A Request for `deposit` into the account `A`, with FT_REQUEST: the client `A`, its request of this number, the
/// expiration 100.
pub(crate) fn deposit(alloc: Global, number: i32, cents: i64) -> Result<Vec<u8>, AllocError> {
    let (before, after) = DEPOSIT;
    let mut octets = Vec::from_slice(alloc, before)?;
    octets.extend_from_slice(&number.to_be_bytes())?;
    octets.extend_from_slice(after)?;
    octets.extend_from_slice(&cents.to_be_bytes())?;
    Ok(octets)
}

/// The Reply that ends by an amount.
pub(crate) fn reply(alloc: Global, before: &[u8], cents: i64) -> Result<Vec<u8>, AllocError> {
    let mut octets = Vec::from_slice(alloc, before)?;
    octets.extend_from_slice(&cents.to_be_bytes())?;
    Ok(octets)
}

/// The outcome that returns an amount.
pub(crate) fn returned(alloc: Global, cents: i64) -> Result<Outcome, AllocError> {
    Ok(Outcome::Returned(vec![in alloc; Val::LongLong(cents)]?))
}
