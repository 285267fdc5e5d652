//! An object reference in a message, lent from its octets.

ghost use Rattle.std.specs.Prelude.{◌≡◌, length, option_map, slice_get};
ghost use Rattle.cdr_core.specs.Writing.{IsWritable};
ghost use Rattle.giop_core.specs.facts.Writable.{writable_prop};
ghost use Rattle.giop_core.specs.Items.{contexts_left, item_at, items_in, reference_as};

use crate::service_context::Contexts;
use cdr_core::Cursor;
use ior_core::read_tagged;

/// An object reference in a message (IOP::IOR), lent from its octets.
#[derive(Debug, Drop)]
pub struct IorView<'m> {
    pub(crate) type_id: &'m [u8],
    pub(crate) profiles: Contexts<'m>,
    ghost all_there: { length (contexts_left profiles) ≡ profiles.left },
    ghost writable: { IsWritable (reference_as type_id.now (contexts_left profiles)) } by { writable_prop (reference_as type_id.now (contexts_left profiles)) },
}

impl<'m> IorView<'m> {
    /// The repository id of the reference's type.
    pub fn type_id(&self) -> &'m [u8]
        ensures { result.now ≡ self.now.type_id.now }
    {
        self.type_id
    }

    /// How many profiles the reference has.
    pub fn count(&self) -> u32
        ensures { result ≡ length (contexts_left self.now.profiles) }
    {
        self.profiles.left
    }

    /// The profile of an index, counted from 0: its tag and its octets. None where there is no such one.
    pub fn profile(&self, index: u32) -> Option<(u32, &'m [u8])>
        ensures { option_map item_at result ≡ slice_get (contexts_left self.now.profiles) index }
    {
        let mut cursor = self.profiles.cursor.fork();
        item(&mut cursor, self.profiles.left, index)
    }
}

/// The item of an index, counted from 0.
fn item<'m>(cursor: &mut Cursor<'m>, left: u32, index: u32) -> Option<(u32, &'m [u8])>
    ensures { option_map item_at result ≡ slice_get (items_in cursor.old.order left cursor.old.place cursor.old.rest) index }
{
    for at in 0..left {
        let Ok(item) = read_tagged(cursor) else {
            return None;
        };
        if at == index {
            return Some(item);
        }
    }
    None
}
