//! FT_REQUEST, the service context of a request that may be sent again (FT 23.2.7).

ghost use Rattle.std.specs.Prelude.{◌≡◌, option_map};
ghost use Rattle.cdr_core.specs.Encapsulation.{encapsulated};
ghost use Rattle.cdr_core.specs.Reading.{value_at};
ghost use Rattle.cdr_core.specs.Spelling.{IsClean};
ghost use Rattle.giop_core.specs.Ft.{first_of, ft_by, ft_in, ft_seen};
ghost use Rattle.giop_core.specs.Items.{contexts_left, items_in};
ghost use Rattle.giop_core.specs.Lent.{Shows};
ghost use Rattle.giop_core.specs.Private.{Reads, ft_value, AddsOctets};
ghost use Rattle.giop_core.specs.Rows.{ft_request};
ghost use Rattle.giop_core.specs.Written.{ft_octets, WroteOctets};

use crate::error::WriteError;
use crate::service_context::Contexts;
use crate::writing::{LONGEST, check_text, cut_back};
use cdr_core::{Cursor, Fault, Order, Writer};
use ior_core::read_tagged;

/// The id of the service context FT_REQUEST (FT 23.2.7).
pub const FT_REQUEST: u32 = 13;

/// 1 January 1970, 00:00 UTC, in units of 100 ns since 15 October 1582, as an expiration counts (TimeBase::TimeT).
pub const UNIX_EPOCH: u64 = 122_192_928_000_000_000;

/// What the service contexts of a request say of its client.
#[derive(Clone, Copy, Debug, Drop)]
pub enum FtField<'m> {
    /// There is no FT_REQUEST context.
    Absent,
    /// The first one is no valid FT_REQUEST.
    Bad,
    /// The client id and the retention id name the request over all its transmissions. The
    /// expiration counts 100 ns from 15 October 1582, 00:00 UTC.
    Present {
        client_id: &'m [u8],
        retention_id: i32,
        expiration: u64,
    },
}

/// The fields of an FT_REQUEST, as they are read.
#[derive(Clone, Copy)]
struct FtFields<'m> {
    client_id: &'m [u8],
    retention_id: i32,
    expiration: u64,
}

/// Reads the fields of an FT_REQUEST.
#[tactic(auto, using(crate::proofs::Steps::ft_is))]
fn read_fields<'m>(cursor: &mut Cursor<'m>) -> Result<FtFields<'m>, Fault>
    ensures { Reads ft_value result ft_request cursor.old cursor.new }
{
    let client_id = cursor.string()?;
    let retention_id = cursor.long()?;
    let expiration = cursor.ulonglong()?;
    Ok(FtFields {
        client_id,
        retention_id,
        expiration,
    })
}

/// The fields in the octets of an FT_REQUEST, which are an encapsulation.
#[tactic(auto, using(crate::proofs::Enclosed::order_fails, crate::proofs::Enclosed::value_fails, crate::proofs::Enclosed::value_is))]
fn fields_in(octets: &[u8]) -> Result<FtFields<'_>, Fault>
    ensures { Shows ft_value result (encapsulated (value_at ft_request) octets.now) }
{
    let mut cursor = Cursor::encapsulated(octets)?;
    read_fields(&mut cursor)
}

/// What the octets of an FT_REQUEST say.
fn field_in(octets: &[u8]) -> FtField<'_>
    ensures { ft_seen result ≡ ft_by (encapsulated (value_at ft_request) octets.now) }
{
    match fields_in(octets) {
        Ok(fields) => FtField::Present {
            client_id: fields.client_id,
            retention_id: fields.retention_id,
            expiration: fields.expiration,
        },
        Err(_) => FtField::Bad,
    }
}

/// The octets of the first context of an id.
fn first_of<'m>(cursor: &mut Cursor<'m>, left: u32, id: u32) -> Option<&'m [u8]>
    ensures { option_map (λ x. x.now) result ≡ first_of id (items_in cursor.old.order left cursor.old.place cursor.old.rest) }
{
    for _ in 0..left {
        let Ok((tag, octets)) = read_tagged(cursor) else {
            return None;
        };
        if tag == id {
            return Some(octets);
        }
    }
    None
}

/// What the first FT_REQUEST among service contexts says: its fields, or that it is not valid, or that
/// there is none. Contexts of other ids are passed over, and so are further ones of that id (own rule).
#[tactic(auto, unfolding(crate::specs::Ft::ft_in))]
#[inline(always)]
pub fn ft_request<'m>(contexts: &Contexts<'m>) -> FtField<'m>
    ensures { ft_seen result ≡ ft_in (contexts_left contexts.now) }
{
    let mut cursor = contexts.cursor.fork();
    match first_of(&mut cursor, contexts.left, FT_REQUEST) {
        None => FtField::Absent,
        Some(octets) => field_in(octets),
    }
}

/// Appends the octets of an FT_REQUEST. Where that fails `out` may keep a part of them at its end.
fn put_ft(
    order: Order,
    client_id: &[u8],
    retention_id: i32,
    expiration: u64,
    out: &mut Vec<u8>,
) -> Result<(), WriteError>
    requires { IsClean client_id.now }
    ensures { AddsOctets (ft_octets order client_id.now retention_id expiration) result out.old.items out.new.items }
{
    check_text(client_id)?;
    let start = out.len();
    let writer = Writer::encapsulated(order, out)?;
    writer.string(client_id, out)?;
    writer.long(retention_id, out)?;
    writer.ulonglong(expiration, out)?;
    if out.len() - start > LONGEST {
        return Err(WriteError::TooLong);
    }
    Ok(())
}

/// Appends the octets of an FT_REQUEST context (FT 23.2.7), an encapsulation.
///
/// The client id has no NUL. The expiration counts 100 ns from 15 October 1582, 00:00 UTC. More than
/// 4,294,967,295 octets are `TooLong`. On an error `out` is as it was.
pub fn write_ft(
    order: Order,
    client_id: &[u8],
    retention_id: i32,
    expiration: u64,
    out: &mut Vec<u8>,
) -> Result<(), WriteError>
    requires { IsClean client_id.now }
    ensures { WroteOctets (ft_octets order client_id.now retention_id expiration) result out.old.items out.new.items }
{
    let start = out.len();
    let result = put_ft(order, client_id, retention_id, expiration, out);
    cut_back(result, start, out)
}
