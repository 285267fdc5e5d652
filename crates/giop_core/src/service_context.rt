//! Service contexts (IOP 7.7): a list of ids with octets, in a message and to be written.

ghost use Rattle.std.specs.Iterator.{YieldsFirstBy, item_count};
ghost use Rattle.std.specs.Prelude.{◌≡◌, length, ◌<◌, IfOk, ◌≤◌, ◌^◌, map, MatchResult};
ghost use Rattle.cdr_core.specs.Private.{passing, Keeps};
ghost use Rattle.cdr_core.specs.Reading.{each_at, value_at};
ghost use Rattle.cdr_core.specs.Value.{values};
ghost use Rattle.cdr_core.specs.Writing.{IsWritable, Appends, PutsAll, AreWritable};
ghost use Rattle.ior_core.specs.Grammar.{tagged};
ghost use Rattle.giop_core.specs.Items.{contexts_left, item_at, list_value, tagged_value};
ghost use Rattle.giop_core.specs.Places.{IsOn};
ghost use Rattle.giop_core.specs.Private.{Reads, Gives, contexts_value, lent_value, Checks};
ghost use Rattle.giop_core.specs.Rows.{contexts};

use crate::error::WriteError;
use crate::writing::{LONGEST, check_octets};
use cdr_core::{Cursor, Fault, Writer};
use ior_core::read_tagged;
use std::alloc::AllocError;

/// The service contexts of a message (IOP 7.7), an iterator of the id of each and its
/// octets. They are lent from the message and take no memory.
#[derive(Debug, Drop)]
pub struct Contexts<'m> {
    pub(crate) cursor: Cursor<'m>,
    pub(crate) left: u32,
}

/// Passes over so many contexts.
#[inline(always)]
fn pass(cursor: &mut Cursor, count: u32) -> Result<(), Fault>
    ensures { Gives (λ u. u) result (passing (each_at (value_at tagged cursor.old.order) count cursor.old.place cursor.old.rest)) cursor.old cursor.new }
{
    for _ in 0..count {
        read_tagged(cursor)?;
    }
    Ok(())
}

/// Reads a count and that many contexts, or profiles, which lie one after another in the octets.
#[inline(always)]
pub(crate) fn read_contexts<'m>(cursor: &mut Cursor<'m>) -> Result<Contexts<'m>, Fault>
    ensures reads { Reads contexts_value result contexts cursor.old cursor.new }
    ensures all { IfOk result (λ c. length (contexts_left c) ≡ c.left) }
    // the first of them is behind their count
    ensures first { IfOk result (λ c. IsOn cursor.old.place cursor.old.rest c.cursor × (c.cursor.order ≡ cursor.old.order)) }
{
    let left = cursor.count()?;
    let first = cursor.fork();
    pass(cursor, left)?;
    Ok(Contexts {
        cursor: first,
        left,
    })
}

#[tactic(auto, using(crate::proofs::Passing::items_next, crate::proofs::Passing::items_none, crate::proofs::Passing::items_stop))]
impl<'m> Iterator for Contexts<'m> {
    type Item = (u32, &'m [u8]);

    ghost next_gives = { YieldsFirstBy item_at contexts_left };

    ghost remaining = { item_count contexts_left };

    /// The next context: its id and its octets.
    fn next(&mut self) -> Option<(u32, &'m [u8])> {
        if self.left == 0 {
            return None;
        }
        match read_tagged(&mut self.cursor) {
            Ok(item) => {
                self.left -= 1;
                Some(item)
            }
            Err(_) => {
                self.left = 0;
                None
            }
        }
    }
}

/// That each context is short enough to be written.
pub(crate) fn check_contexts(all: &[(u32, &[u8])]) -> Result<(), WriteError>
    ensures { Checks (list_value (map item_at all.now)) result }
{
    if all.len() > LONGEST {
        return Err(WriteError::TooLong);
    }
    for one in all {
        check_octets(one.1)?;
    }
    Ok(())
}

/// Appends a tag, or an id, and its octets.
pub(crate) fn put_tagged(
    writer: &Writer,
    tag: u32,
    octets: &[u8],
    out: &mut Vec<u8>,
) -> Result<(), AllocError>
    requires start { writer.now.start ≤ length out.old.items }
    requires long { length octets.now < 2 ^ 32 }
    ensures { MatchResult result (λ _. Appends writer.now (tagged_value (tag, octets.now)) out.old.items out.new.items) (λ _. Keeps out.old.items out.new.items) }
{
    writer.ulong(tag, out)?;
    writer.octets(octets, out)
}

/// Appends a service context.
fn put_context(writer: &Writer, one: &(u32, &[u8]), out: &mut Vec<u8>) -> Result<(), AllocError>
    requires start { writer.now.start ≤ length out.old.items }
    requires long { length one.now.1.now < 2 ^ 32 }
    ensures { MatchResult result (λ _. Appends writer.now (lent_value one.now) out.old.items out.new.items) (λ _. Keeps out.old.items out.new.items) }
{
    put_tagged(writer, one.0, one.1, out)
}

/// Appends service contexts one after another.
fn put_each(writer: &Writer, all: &[(u32, &[u8])], out: &mut Vec<u8>) -> Result<(), AllocError>
    requires start { writer.now.start ≤ length out.old.items }
    requires writable { AreWritable (values (map lent_value all.now)) }
    ensures { MatchResult result (λ _. PutsAll writer.now (values (map lent_value all.now)) out.old.items out.new.items) (λ _. Keeps out.old.items out.new.items) }
{
    for one in all {
        put_context(writer, one, out)?;
    }
    Ok(())
}

/// Appends the number of service contexts and the contexts.
pub(crate) fn put_contexts(
    writer: &Writer,
    all: &[(u32, &[u8])],
    out: &mut Vec<u8>,
) -> Result<(), AllocError>
    requires start { writer.now.start ≤ length out.old.items }
    requires writable { IsWritable (list_value (map item_at all.now)) }
    ensures { MatchResult result (λ _. Appends writer.now (list_value (map item_at all.now)) out.old.items out.new.items) (λ _. Keeps out.old.items out.new.items) }
{
    writer.ulong(all.len() as u32, out)?;
    put_each(writer, all, out)
}
