//! Service contexts in octets of the caller.

ghost use Rattle.std.specs.Prelude.{◌≡◌, ◌==◌, ◌<◌, false, length, map};
ghost use Rattle.cdr_core.specs.Private.{GivesUnlessMemory};
ghost use Rattle.cdr_core.specs.Reading.{each_at, value_at};
ghost use Rattle.cdr_core.specs.Value.{values};
ghost use Rattle.ior_core.specs.Grammar.{tagged};
ghost use Rattle.ior_core.specs.View.{lent_value};
ghost use Rattle.lemonrudder.specs.RawCalls.{AreJudged, PassesOver, ReadsContexts};

use crate::refusal::Refusal;
use cdr_core::{CdrError, Cursor, Fault, Order};
use ior_core::read_tagged;
use std::alloc::Global;

/// So many service contexts, which follow one another.
fn each_of<'a>(
    alloc: Global,
    count: u32,
    cursor: &mut Cursor<'a>,
) -> Result<Vec<(u32, &'a [u8])>, CdrError>
    ensures { GivesUnlessMemory (λ v. values (map lent_value v.items)) result (each_at (value_at tagged cursor.old.order) count) (λ _ _ _. 0 < count) cursor.old cursor.new }
{
    let mut all = Vec::new(alloc);
    for _ in 0..count {
        let one = read_tagged(cursor)?;
        all.push(one)?;
    }
    Ok(all)
}

/// Passes over so many service contexts, which follow one another: none is made.
fn pass_each(count: u32, cursor: &mut Cursor<'_>) -> Result<(), Fault>
    ensures { PassesOver count result cursor.old cursor.new }
{
    for _ in 0..count {
        let _one = read_tagged(cursor)?;
    }
    Ok(())
}

/// Whether some octets are service contexts in this order, all of them: none is made.
fn judged(order: Order, octets: &[u8]) -> Result<(), Refusal>
    requires some { (length octets.now == 0) ≡ false }
    ensures { AreJudged order octets.now result }
{
    let mut cursor = Cursor::new(octets, order, 0);
    let count = cursor.count()?;
    pass_each(count, &mut cursor)?;
    if !cursor.rest().is_empty() {
        return Err(Refusal::Value);
    }
    Ok(())
}

/// The service contexts that octets are in this order, lent from them. Others take no memory.
pub fn contexts_of<'a>(
    alloc: Global,
    order: Order,
    octets: &'a [u8],
) -> Result<Vec<(u32, &'a [u8])>, Refusal>
    ensures { ReadsContexts order octets.now result }
{
    if octets.is_empty() {
        return Ok(Vec::new(alloc));
    }
    judged(order, octets)?;
    let mut cursor = Cursor::new(octets, order, 0);
    let count = cursor.count()?;
    let contexts = each_of(alloc, count, &mut cursor)?;
    Ok(contexts)
}
