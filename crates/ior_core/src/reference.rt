//! Object references (IOP 7.6.2).

ghost use Rattle.std.specs.Prelude.{◌≡◌, ◌↔◌, ◌++◌, ◌<◌, ◌≤◌, ◌^◌, length, option_map, IsTrue, MatchResult, OnErr, OnOk};
ghost use Rattle.cdr_core.specs.Private.{GivesUnlessMemory, Keeps};
ghost use Rattle.cdr_core.specs.Writing.{Appends, octets_of, IsWritable};
ghost use Rattle.cdr_core.specs.Reading.{value_at};
ghost use Rattle.ior_core.specs.Calls.{ReadsReference};
ghost use Rattle.ior_core.specs.Grammar.{reference};
ghost use Rattle.ior_core.specs.Keys.{key_at};
ghost use Rattle.ior_core.specs.Memory.{StoresReference};
ghost use Rattle.ior_core.specs.View.{ior_value};

use crate::error::IorError;
use crate::profile::profile_key;
use crate::tagged::{Profile, put_list, read_list};
use crate::writable::{is_list_writable, is_string_writable};
use cdr_core::{CdrError, Cursor, Order, Writer};
use std::alloc::{AllocError, Global};

/// A reference to an object (IOP::IOR): the repository id of its type, as octets of a string without
/// its NUL, and a profile for each way to reach it. The nil reference has an empty type and no
/// profiles.
#[derive(Debug, Drop, PartialEq)]
pub struct Ior {
    pub type_id: Vec<u8>,
    pub profiles: Vec<Profile>,
}

impl Ior {
    /// Whether the reference can be written: its type has no NUL, and each length and the number of
    /// profiles fit an unsigned long.
    pub fn is_writable(&self) -> bool
        ensures { IsTrue result ↔ IsWritable (ior_value self.now) }
    {
        is_string_writable(&self.type_id) && is_list_writable(&self.profiles)
    }
}

/// Reads a reference where the cursor stands.
#[tactic(auto, using(crate::proofs::Steps::reference_is))]
pub(crate) fn read(alloc: Global, cursor: &mut Cursor) -> Result<Ior, CdrError>
    ensures { GivesUnlessMemory ior_value result (value_at reference cursor.old.order) (StoresReference cursor.old.order) cursor.old cursor.new }
{
    let type_id = Vec::from_slice(alloc, cursor.string()?)?;
    let profiles = read_list(alloc, cursor)?;
    Ok(Ior { type_id, profiles })
}

/// Appends a reference at the writer's place.
pub(crate) fn put(writer: &Writer, ior: &Ior, out: &mut Vec<u8>) -> Result<(), AllocError>
    requires start { writer.now.start ≤ length out.old.items }
    requires writable { IsWritable (ior_value ior.now) }
    ensures { MatchResult result (λ _. Appends writer.now (ior_value ior.now) out.old.items out.new.items) (λ _. Keeps out.old.items out.new.items) }
{
    writer.string(&ior.type_id, out)?;
    put_list(writer, &ior.profiles, out)
}

/// Reads the reference at the front of the octets, as a member or an argument of type Object holds
/// it: in the byte order and on the alignment of the octets around it, and in no encapsulation. `at`
/// is the place of the first octet on the scale of the alignment.
///
/// The number is how many octets were read, padding before the reference included; octets after it
/// are not looked at. Errors are `Cdr`, the first fault, with its place on the same scale as `at`,
/// and `Memory`, only where the type id was read before.
pub fn read_ior(
    alloc: Global,
    order: Order,
    at: u64,
    octets: &[u8],
) -> Result<(Ior, usize), IorError>
    requires { at < 2 ^ 32 }
    ensures { ReadsReference order at octets.now result }
{
    cdr_core::laws::read_is_spelled();
    let mut cursor = Cursor::new(octets, order, at);
    let ior = read(alloc, &mut cursor)?;
    let left = cursor.rest().len();
    Ok((ior, octets.len() - left))
}

/// Appends a reference in the given byte order, as `read_ior` reads it. `at` is the place, on the
/// scale of the alignment, of the first octet that is appended; padding is zeros.
///
/// At an error, which means out of memory, `out` is as it was.
pub fn write_ior(order: Order, at: u64, ior: &Ior, out: &mut Vec<u8>) -> Result<(), AllocError>
    requires at { at < 2 ^ 32 }
    requires writable { IsWritable (ior_value ior.now) }
    ensures ok { OnOk result (out.new.items ≡ out.old.items ++ octets_of order (ior_value ior.now) at) }
    ensures err { OnErr result (out.new.items ≡ out.old.items) }
{
    let writer = Writer::new(order, at, out);
    let start = out.len();
    let result = put(&writer, ior, out);
    if result.is_err() {
        out.truncate(start);
    }
    result
}

/// The object key in the reference's profile of this index, counted from 0: its `profile_key`. None
/// where there is no such profile. It takes no memory.
pub fn object_key(ior: &Ior, index: u32) -> Option<&[u8]>
    ensures { option_map (λ key. key.now) result ≡ key_at ior.now.profiles.items index }
{
    let profile = ior.profiles.get(index as usize)?;
    profile_key(profile.tag, &profile.octets)
}
