//! Messages that are written into the caller's room.

ghost use Rattle.std.specs.Prelude.{◌≡◌, ◌↔◌, ◌+◌, ◌<◌, ◌≤◌, ◌^◌, IsTrue, MatchResult, length, map};
ghost use Rattle.cdr_core.specs.Parts.{octet_value};
ghost use Rattle.cdr_core.specs.Spelling.{IsClean};
ghost use Rattle.cdr_core.specs.View.{value_of, values_of};
ghost use Rattle.cdr_core.specs.Writing.{AreWritable};
ghost use Rattle.giop_core.specs.declared.header.MessageKind.TheVariants as kind;
ghost use Rattle.giop_core.specs.Written.{CanAsk, Wrote, behind_header, ft_octets};
ghost use Rattle.lemonrudder.specs.Sizes.{body_end, fields_end, locate_end};
ghost use Rattle.lemonrudder.specs.Writes.{CanBegin, CanStand, IsManner, asked, asked_fields, bare, cancel, counted, ft_context, locate_reply, locate_request, parts_size, reply, request, said_by};

use crate::named::{order_of, version_of, wish_of};
use crate::refusal::{Refusal, count_of, fitted};
use crate::sizes::{COUNTED, MOST, behind, check_room, contexts_end, ft_end};
use cdr_core::{Order, Val, has_no_nul};
use giop_core::{
    ReplyWish, Target, Version, WriteError, cancel_octets, close_octets, error_octets,
    locate_reply_octets, write_ft, write_locate_request, write_raw_reply, write_request,
};
use std::alloc::Global;

/// How many statuses of a LocateReply have no body, from 0 on: the object is unknown, or here (GIOP 9.4.6).
const WITHOUT_BODY: u32 = 2;

/// What a Request says, but its version and order.
#[derive(Clone, Copy)]
pub struct Asking<'a> {
    pub request_id: u32,
    pub wish: u32,
    pub key: &'a [u8],
    pub operation: &'a [u8],
    pub context_id: u32,
    pub context: &'a [u8],
    pub body: &'a [u8],
}

impl Asking<'_> {
    /// Whether each part has a count, and all of them together.
    fn is_counted(&self) -> bool
        ensures { IsTrue result ↔ (parts_size self.now < 2 ^ 32) }
    {
        let names = count_of(self.key).saturating_add(count_of(self.operation));
        let octets = count_of(self.context).saturating_add(count_of(self.body));
        names.saturating_add(octets) <= u64::from(u32::MAX)
    }
}

/// How a message is written.
#[derive(Clone, Copy)]
pub struct Manner {
    pub version: Version,
    pub order: Order,
}

impl Manner {
    pub fn new(version: u32, order: u32) -> Result<Manner, Refusal>
        ensures { IsManner version order result }
    {
        Ok(Manner {
            version: version_of(version)?,
            order: order_of(order)?,
        })
    }

    /// Appends a Request with these values in its body.
    fn append(
        self,
        asking: &Asking<'_>,
        wish: ReplyWish,
        body: &[Val],
        out: &mut Vec<u8>,
    ) -> Result<(), WriteError>
        requires wish { CanAsk self.version wish }
        requires clean { IsClean asking.now.operation.now }
        requires writable { AreWritable (values_of body.now) }
        ensures { Wrote self.version kind.Request self.order (behind_header self.version kind.Request self.order (asked_fields self.version wish (said_by asking.now)) (values_of body.now)) result out.old.items out.new.items }
    {
        let one = [(asking.context_id, asking.context)];
        let contexts = &one[..usize::from(!asking.context.is_empty())];
        write_request(
            self.version,
            self.order,
            asking.request_id,
            wish,
            &Target::Key(asking.key),
            asking.operation,
            contexts,
            body,
            out,
        )
    }

    /// Whether a body that is written for a place divisible by 8 can begin at a place: 1.2 has padding before it.
    fn can_begin(self, place: u64) -> bool
        ensures { IsTrue result ↔ CanBegin self.version place }
    {
        match self.version {
            Version::V10 | Version::V11 => place % 8 == 0,
            Version::V12 => true,
        }
    }

    /// .. or there is none.
    fn can_stand(self, place: u64, body: &[u8]) -> bool
        ensures { IsTrue result ↔ CanStand self.version place body.now }
    {
        body.is_empty() || self.can_begin(place)
    }

    /// The place where the fields of a Request end.
    fn fields_end(self, asking: &Asking<'_>) -> u64
        requires { parts_size asking.now < 2 ^ 32 }
        ensures is { result ≡ fields_end self.version (length asking.now.key.now) (length asking.now.operation.now) (length asking.now.context.now) }
        ensures most { result ≤ 2 ^ 33 }
    {
        let key = count_of(asking.key);
        let operation = count_of(asking.operation) + 1;
        let context = count_of(asking.context);
        match self.version {
            Version::V10 => {
                let id = behind(contexts_end(12, context), 0);
                behind(behind(behind(id + 1, key), operation), 0)
            }
            Version::V11 => {
                let id = behind(contexts_end(12, context), 0);
                behind(behind(behind(id + 4, key), operation), 0)
            }
            Version::V12 => contexts_end(behind(behind(22, key), operation), context),
        }
    }

    /// The place where a body of so many octets ends, behind fields.
    #[tactic(auto, using(crate::proofs::Sized::body_none, crate::proofs::Sized::body_some))]
    fn body_end(self, place: u64, body: u64) -> u64
        requires { place + body < 2 ^ 62 }
        ensures { result ≡ body_end self.version place body }
    {
        match self.version {
            Version::V10 | Version::V11 => place + body,
            Version::V12 => {
                if body == 0 {
                    return place;
                }
                let padding = (8 - place % 8) % 8;
                place + padding + body
            }
        }
    }

    /// Writes a Request of this wish. Where it is refused no memory is taken.
    fn ask(
        self,
        alloc: Global,
        asking: &Asking<'_>,
        wish: ReplyWish,
        room: &mut [u8],
    ) -> Result<u64, Refusal>
        requires wish { CanAsk self.version wish }
        requires clean { IsClean asking.now.operation.now }
        ensures { asked self.version self.order wish (said_by asking.now) room.old room.new result }
    {
        if !asking.is_counted() {
            return Err(Refusal::Long);
        }
        let place = self.fields_end(asking);
        if !self.can_stand(place, asking.body) {
            return Err(Refusal::Place);
        }
        let size = self.body_end(place, count_of(asking.body));
        check_room(MOST, size, room)?;
        let body = values_of_octets(alloc, asking.body)?;
        let mut out = Vec::new(alloc);
        self.append(asking, wish, &body, &mut out)?;
        fitted(&out, room)
    }

    /// Writes a Request.
    pub fn request(
        self,
        alloc: Global,
        asking: &Asking<'_>,
        room: &mut [u8],
    ) -> Result<u64, Refusal>
        ensures { request self.version self.order (said_by asking.now) room.old room.new result }
    {
        let wish = wish_of(asking.wish)?;
        if !self.version.can_ask(wish) {
            return Err(Refusal::Range);
        }
        if !has_no_nul(asking.operation) {
            return Err(Refusal::Text);
        }
        self.ask(alloc, asking, wish, room)
    }

    /// Writes a Reply.
    pub fn reply(
        self,
        alloc: Global,
        request_id: u32,
        status: u32,
        body: &[u8],
        room: &mut [u8],
    ) -> Result<u64, Refusal>
        ensures { reply self.version self.order request_id status body.now room.old room.new result }
    {
        if !self.version.has_reply_status(status) {
            return Err(Refusal::Range);
        }
        check_room(MOST, 24 + count_of(body), room)?;
        let mut out = Vec::new(alloc);
        write_raw_reply(
            self.version,
            self.order,
            request_id,
            status,
            &[],
            body,
            &mut out,
        )?;
        fitted(&out, room)
    }

    /// Writes a CancelRequest.
    pub fn cancel(self, request_id: u32, room: &mut [u8]) -> Result<u64, Refusal>
        ensures { cancel self.version self.order request_id room.old room.new result }
    {
        fitted(&cancel_octets(self.version, self.order, request_id), room)
    }

    /// How many octets a LocateRequest has to a key of so many.
    fn locate_end(self, key: u64) -> u64
        requires { key < 2 ^ 63 }
        ensures { result ≡ locate_end self.version key }
    {
        match self.version {
            Version::V10 | Version::V11 => 20 + key,
            Version::V12 => 24 + key,
        }
    }

    /// Writes a LocateRequest.
    pub fn locate_request(
        self,
        alloc: Global,
        request_id: u32,
        key: &[u8],
        room: &mut [u8],
    ) -> Result<u64, Refusal>
        ensures { locate_request self.version self.order request_id key.now room.old room.new result }
    {
        check_room(MOST, self.locate_end(count_of(key)), room)?;
        let mut out = Vec::new(alloc);
        let target = Target::Key(key);
        write_locate_request(self.version, self.order, request_id, &target, &mut out)?;
        fitted(&out, room)
    }

    /// Writes a LocateReply without a body.
    pub fn locate_reply(self, request_id: u32, status: u32, room: &mut [u8]) -> Result<u64, Refusal>
        ensures { locate_reply self.version self.order request_id status room.old room.new result }
    {
        if status >= WITHOUT_BODY {
            return Err(Refusal::Range);
        }
        let octets = locate_reply_octets(self.version, self.order, request_id, status);
        fitted(&octets, room)
    }
}

/// Octets as values, one after another.
fn values_of_octets(alloc: Global, octets: &[u8]) -> Result<Vec<Val>, Refusal>
    ensures { MatchResult result (λ all. map value_of all.items ≡ map octet_value octets.now) (λ e. e ≡ Refusal.Memory) }
{
    let mut values = Vec::with_capacity(alloc, octets.len())?;
    for octet in octets {
        values.push(Val::Octet(*octet))?;
    }
    Ok(values)
}

/// Writes CloseConnection.
pub fn close(room: &mut [u8]) -> Result<u64, Refusal>
    ensures { bare kind.CloseConnection room.old room.new result }
{
    fitted(&close_octets(), room)
}

/// Writes MessageError.
pub fn error(room: &mut [u8]) -> Result<u64, Refusal>
    ensures { bare kind.MessageError room.old room.new result }
{
    fitted(&error_octets(), room)
}

/// Writes the data of an FT_REQUEST context, of an id without a NUL.
fn lay_ft(
    alloc: Global,
    order: Order,
    client: &[u8],
    retention_id: i32,
    expiration: u64,
    room: &mut [u8],
) -> Result<u64, Refusal>
    requires { IsClean client.now }
    ensures { let octets = ft_octets order client.now retention_id expiration in counted octets octets room.old room.new result }
{
    check_room(COUNTED, ft_end(count_of(client)), room)?;
    let mut out = Vec::new(alloc);
    write_ft(order, client, retention_id, expiration, &mut out)?;
    fitted(&out, room)
}

/// Writes the data of an FT_REQUEST context.
pub fn ft(
    alloc: Global,
    order: u32,
    client: &[u8],
    retention_id: i32,
    expiration: u64,
    room: &mut [u8],
) -> Result<u64, Refusal>
    ensures { ft_context order client.now retention_id expiration room.old room.new result }
{
    let order = order_of(order)?;
    if !has_no_nul(client) {
        return Err(Refusal::Text);
    }
    lay_ft(alloc, order, client, retention_id, expiration, room)
}
