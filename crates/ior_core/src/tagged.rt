//! Octets with a tag: tagged profiles and tagged components (IOP 7.6.2).

ghost use Rattle.std.specs.Prelude.{◌≡◌, ◌++◌, ◌<◌, ◌≤◌, ◌^◌, length, map, MatchResult};
ghost use Rattle.cdr_core.specs.Private.{GivesUnlessMemory, Keeps, passing};
ghost use Rattle.cdr_core.specs.Writing.{Appends, PutsAll, AreWritable, IsWritable};
ghost use Rattle.cdr_core.specs.Reading.{each_at, value_at};
ghost use Rattle.cdr_core.specs.Value.{values};
ghost use Rattle.ior_core.specs.Calls.{GivesOnce};
ghost use Rattle.ior_core.specs.Grammar.{tagged, tagged_list};
ghost use Rattle.ior_core.specs.Memory.{StoresItems, StoresTagged};
ghost use Rattle.ior_core.specs.View.{lent_value, list_value, tagged_value, tagged_values};

use cdr_core::{CdrError, Cursor, Fault, Writer};
use std::alloc::{AllocError, Global};

/// A tag, and octets whose meaning the tag gives. Tags are the OMG's numbers; unknown ones are kept.
#[derive(Debug, Drop, PartialEq)]
pub struct Tagged {
    pub tag: u32,
    pub octets: Vec<u8>,
}

/// A profile of a reference (IOP::TaggedProfile): one way to reach the object. That of
/// `TAG_INTERNET_IOP` is read by `read_iiop`.
pub type Profile = Tagged;

/// A component of a profile (IOP::TaggedComponent): a property of the object or of the way to it.
pub type Component = Tagged;

/// Reads a tag and its octets, as a tagged profile, a tagged component or a service context has
/// them, and goes on after them. The octets are lent, and no memory is taken.
///
/// At an error it is the first fault, and nothing is said of where the cursor then stands.
#[inline(always)]
#[tactic(auto, using(crate::proofs::Steps::tagged_is))]
pub fn read_tagged<'a>(cursor: &mut Cursor<'a>) -> Result<(u32, &'a [u8]), Fault>
    ensures { GivesOnce lent_value result (value_at tagged cursor.old.order) cursor.old cursor.new }
{
    let tag = cursor.ulong()?;
    let octets = cursor.octets()?;
    Ok((tag, octets))
}

/// Reads `count` items. The vector grows as they are read, since the count may be any number.
fn read_each(alloc: Global, count: u32, cursor: &mut Cursor) -> Result<Vec<Tagged>, CdrError>
    ensures { GivesUnlessMemory (λ v. tagged_values v.items) result (each_at (value_at tagged cursor.old.order) count) (StoresItems cursor.old.order count) cursor.old cursor.new }
{
    let mut all = Vec::new(alloc);
    for _ in 0..count {
        let (tag, octets) = read_tagged(cursor)?;
        let octets = Vec::from_slice(alloc, octets)?;
        all.push(Tagged { tag, octets })?;
    }
    Ok(all)
}

/// Reads a sequence of items: their count, and then each.
#[tactic(auto, using(crate::proofs::Steps::list_is))]
pub(crate) fn read_list(alloc: Global, cursor: &mut Cursor) -> Result<Vec<Tagged>, CdrError>
    ensures { GivesUnlessMemory (λ v. list_value v.items) result (value_at tagged_list cursor.old.order) (StoresTagged cursor.old.order) cursor.old cursor.new }
{
    let count = cursor.count()?;
    read_each(alloc, count, cursor)
}

/// Skips `count` items.
fn skip(count: u32, cursor: &mut Cursor) -> Result<(), Fault>
    ensures { GivesOnce (λ u. u) result (λ o octets. passing (each_at (value_at tagged cursor.old.order) count o octets)) cursor.old cursor.new }
{
    for _ in 0..count {
        read_tagged(cursor)?;
    }
    Ok(())
}

/// Skips a sequence of items.
#[tactic(auto, using(crate::proofs::Steps::list_is))]
pub(crate) fn skip_list(cursor: &mut Cursor) -> Result<(), Fault>
    ensures { GivesOnce (λ u. u) result (λ o octets. passing (value_at tagged_list cursor.old.order o octets)) cursor.old cursor.new }
{
    let count = cursor.count()?;
    skip(count, cursor)
}

/// Appends one item.
fn put(writer: &Writer, one: &Tagged, out: &mut Vec<u8>) -> Result<(), AllocError>
    requires start { writer.now.start ≤ length out.old.items }
    requires long { length one.now.octets.items < 2 ^ 32 }
    ensures { MatchResult result (λ _. Appends writer.now (tagged_value one.now) out.old.items out.new.items) (λ _. Keeps out.old.items out.new.items) }
{
    writer.ulong(one.tag, out)?;
    writer.octets(&one.octets, out)
}

/// Appends a sequence of items: their count, and then each.
pub(crate) fn put_list(writer: &Writer, all: &[Tagged], out: &mut Vec<u8>) -> Result<(), AllocError>
    requires start { writer.now.start ≤ length out.old.items }
    requires writable { IsWritable (list_value all.now) }
    ensures { MatchResult result (λ _. Appends writer.now (list_value all.now) out.old.items out.new.items) (λ _. Keeps out.old.items out.new.items) }
{
    writer.ulong(all.len() as u32, out)?;
    put_each(writer, all, out)
}

/// Appends items, one after another.
fn put_each(writer: &Writer, all: &[Tagged], out: &mut Vec<u8>) -> Result<(), AllocError>
    requires start { writer.now.start ≤ length out.old.items }
    requires writable { AreWritable (tagged_values all.now) }
    ensures { MatchResult result (λ _. PutsAll writer.now (tagged_values all.now) out.old.items out.new.items) (λ _. Keeps out.old.items out.new.items) }
{
    for one in all {
        put(writer, one, out)?;
    }
    Ok(())
}
