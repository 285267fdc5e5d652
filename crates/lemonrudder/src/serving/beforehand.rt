//! Which outcomes are taken, which is told before they are handed in too.

ghost use Rattle.std.specs.Prelude.{◌≡◌, ◌↔◌, IfOk, IsTrue, OnErr, map, option_map};
ghost use Rattle.cdr_core.specs.Fitting.{AreValid};
ghost use Rattle.cdr_core.specs.View.{forms_of, values_of};
ghost use Rattle.cdr_core.specs.Writing.{AreWritable};
ghost use Rattle.giop_core.specs.Written.{exception_body};
ghost use Rattle.ft_log.specs.Performed.{raw};
ghost use Rattle.ft_log.specs.View.{performed_in};
ghost use Rattle.ft_log.specs.declared.outcome.RawStatus.{RawStatus as Status};
ghost use Rattle.cdr_core.specs.declared.order.Order.{Order as ByteOrder};
ghost use Rattle.ft_orb.specs.Engines.{awaited_lent};
ghost use Rattle.ft_objects.specs.Interfaces.{interface_of, raise_of, types_of};
ghost use Rattle.lemonrudder.specs.Outcomes.{IsBody, MayBeRaised, exception_octets, forms_in, members_in, outcome_read, types_in};

use crate::named::order_of;
use crate::refusal::{Refusal, copied, count_of};
use crate::serving::Serving;
use crate::serving::questions::Found;
use crate::types::{are_values, values_of};
use cdr_core::{Order, Ty, Val, Writer, are_writable, has_no_nul};
use ft_log::{Outcome, RawStatus};
use ft_objects::{Lookup, Signature};
use ft_orb::Asked;
use std::alloc::{AllocError, Global};

/// The most octets that the body of a Reply takes.
const MOST: u64 = 1_048_576;

impl Serving {
    ghost use Rattle.std.specs.Prelude.{Some};
    ghost use Rattle.lemonrudder.specs.Beforehand.{OnCanAnswer, OnException};
    ghost use Rattle.lemonrudder.specs.Outcomes.{AreRead, AreResults, CanBe, interface_at, member_types};

    /// Whether an outcome may be that of the request, which waits or is parked.
    #[inline(always)]
    pub(super) fn can_be(&self, found: Found, outcome: &Outcome) -> bool
        ensures { IsTrue result ↔ CanBe found (performed_in outcome.now) self.now }
    {
        match found {
            Found::Waits(number, _) => self.engine.can_answer(number, outcome),
            Found::Parked(number) => self.engine.can_settle(number, outcome),
        }
    }

    /// Whether octets may be the body of its Reply, of whichever status and order.
    #[inline(always)]
    pub(super) fn can_be_body(&self, found: Found, octets: &[u8]) -> bool
        ensures { (status : Status) (order : ByteOrder) → IsTrue result ↔ CanBe found (raw status order octets.now) self.now }
    {
        giop_core::laws::octets_bodies();
        if octets.len() as u64 > MOST {
            return false;
        }
        let none = Vec::new(self.alloc);
        self.can_be(
            found,
            &Outcome::Raw(RawStatus::NoException, Order::Big, none),
        )
    }

    /// Whether octets are results of the operation of a request.
    #[inline(always)]
    pub(super) fn are_results(&self, asked: &Asked<'_>, order: Order, octets: &[u8]) -> bool
        ensures { IsTrue result ↔ AreResults (interface_at self.now (awaited_lent asked.now)) order octets.now }
    {
        match signature_of(self.lookup(asked)) {
            Some(signature) => are_values(&signature.results, order, octets),
            None => false,
        }
    }

    /// The values of types whose octets these are; others are no outcome, and take no memory.
    fn values(&self, types: &[Ty], order: Order, octets: &[u8]) -> Result<Vec<Val>, Refusal>
        requires valid { AreValid (forms_of types.now) }
        ensures { AreRead (Some (forms_of types.now)) order octets.now result }
    {
        if !are_values(types, order, octets) {
            return Err(Refusal::Outcome);
        }
        of_outcome(values_of(self.alloc, types, order, octets))
    }

    /// The members of an exception of the operation of a request, of these octets.
    fn members(
        &self,
        asked: &Asked<'_>,
        id: &[u8],
        order: Order,
        octets: &[u8],
    ) -> Result<Vec<Val>, Refusal>
        ensures { AreRead (member_types id.now (interface_at self.now (awaited_lent asked.now))) order octets.now result }
    {
        let Some(signature) = signature_of(self.lookup(asked)) else {
            return Err(Refusal::Outcome);
        };
        let types = types_of_exception(&signature.raises, id).ok_or(Refusal::Outcome)?;
        self.values(types, order, octets)
    }

    /// The body of the Reply that raises an exception of the operation of a request, whose members are these octets. Where
    /// it is surely too long no memory is taken.
    pub(super) fn exception_of(
        &self,
        asked: &Asked<'_>,
        id: &[u8],
        order: Order,
        octets: &[u8],
    ) -> Result<Vec<u8>, Refusal>
        ensures { IsBody id.now (member_types id.now (interface_at self.now (awaited_lent asked.now))) order octets.now result }
    {
        if !may_be_raised(id, octets) {
            return Err(Refusal::Outcome);
        }
        let members = self.members(asked, id, order, octets)?;
        if !can_raise(id, &members) {
            return Err(Refusal::Outcome);
        }
        let body = write_exception(self.alloc, order, id, &members)?;
        Ok(body)
    }

    /// Tells whether octets are results that can be handed in.
    pub fn can_answer(&self, ticket: u64, order: u32, octets: &[u8]) -> Result<u64, Refusal>
        ensures { OnCanAnswer ticket order octets.now self.now self.now result }
    {
        let order = order_of(order)?;
        let called = self.named_by(ticket)?;
        if !self.are_results(&called.asked, order, octets) {
            return Err(Refusal::Outcome);
        }
        if !self.can_be_body(called.found, octets) {
            return Err(Refusal::Outcome);
        }
        Ok(0)
    }

    /// Tells the body of the Reply that raises an exception which the operation declares.
    pub fn exception(
        &self,
        ticket: u64,
        id: &[u8],
        order: u32,
        octets: &[u8],
        room: &mut [u8],
    ) -> Result<u64, Refusal>
        ensures told { OnException ticket id.now order octets.now room.old room.new self.now self.now result }
        ensures refused { OnErr result (room.new ≡ room.old) }
    {
        let order = order_of(order)?;
        let called = self.named_by(ticket)?;
        let body = self.exception_of(&called.asked, id, order, octets)?;
        if !self.can_be_body(called.found, &body) {
            return Err(Refusal::Outcome);
        }
        Ok(copied(&body, room))
    }
}

/// The types of an operation, if it has types.
fn signature_of(lookup: Lookup<'_>) -> Option<&Signature>
    ensures { option_map (λ s. types_of s.now) result ≡ types_in (interface_of lookup.entry) }
{
    match lookup {
        Lookup::Operation(signature) | Lookup::Checked(signature) => Some(signature),
        _ => None,
    }
}

/// Octets that are no values of types are no outcome.
fn of_outcome(read: Result<Vec<Val>, Refusal>) -> Result<Vec<Val>, Refusal>
    ensures { result ≡ outcome_read read }
{
    match read {
        Ok(values) => Ok(values),
        Err(Refusal::Memory) => Err(Refusal::Memory),
        Err(_) => Err(Refusal::Outcome),
    }
}

/// The types of the members of an exception among those that are declared.
fn types_of_exception<'s>(raises: &'s [(Vec<u8>, Vec<Ty>)], id: &[u8]) -> Option<&'s [Ty]>
    ensures { forms_in result ≡ members_in id.now (map raise_of raises.now) }
{
    for (declared, members) in raises {
        if declared.as_slice() == id {
            return Some(members.as_slice());
        }
    }
    None
}

/// Whether a repository id and octets of members may make a body that is not too long, which is no shorter than this.
fn may_be_raised(id: &[u8], octets: &[u8]) -> bool
    ensures { IsTrue result ↔ MayBeRaised id.now octets.now }
{
    let place = (count_of(id) + 5) / 8 * 8;
    place <= MOST && count_of(octets) <= MOST - place
}

/// Whether a repository id and members can be written.
fn can_raise(id: &[u8], members: &[Val]) -> bool
    ensures { IsTrue result ↔ AreWritable (exception_body id.now (values_of members.now)) }
{
    (id.len() as u64) < u64::from(u32::MAX) && has_no_nul(id) && are_writable(members)
}

/// Writes the body of the Reply that raises an exception.
fn write_exception(
    alloc: Global,
    order: Order,
    id: &[u8],
    members: &[Val],
) -> Result<Vec<u8>, AllocError>
    requires { AreWritable (exception_body id.now (values_of members.now)) }
    ensures { IfOk result (λ v. v.items ≡ exception_octets order id.now (values_of members.now)) }
{
    let mut body = Vec::new(alloc);
    let writer = Writer::new(order, 0, &body);
    writer.string(id, &mut body)?;
    writer.values(members, &mut body)?;
    Ok(body)
}
