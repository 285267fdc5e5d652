//! What parts of a word make, one after another: a part takes what it is made of from the end.

use crate::stop::Stop;
use std::alloc::Global;

/// Takes so many from the end.
pub fn top<T>(stack: &mut Vec<T>, count: u32) -> Result<Vec<T>, Stop> {
    let at = stack
        .len()
        .checked_sub(count as usize)
        .ok_or(Stop::BadLine)?;
    Ok(stack.split_off(at)?)
}

/// Takes the last, into a box.
pub fn boxed<T: Drop>(alloc: Global, stack: &mut Vec<T>) -> Result<Box<T>, Stop> {
    let last = stack.pop().ok_or(Stop::BadLine)?;
    Ok(Box::new(alloc, last)?)
}

/// The one that there is.
pub fn only<T: Drop>(mut stack: Vec<T>) -> Result<T, Stop> {
    let last = stack.pop().ok_or(Stop::BadLine)?;
    if !stack.is_empty() {
        return Err(Stop::BadLine);
    }
    Ok(last)
}
