//! What is said of the request that waits, and of one that is parked.

ghost use Rattle.std.specs.Prelude.{◌≡◌, ◌↔◌, ◌<◌, IfOk, IsTrue, length};
ghost use Rattle.cdr_core.specs.View.{values_of};
ghost use Rattle.cdr_core.specs.Writing.{octets_of_all};
ghost use Rattle.ft_orb.specs.Engines.{awaited_lent, waits_in};
ghost use Rattle.ft_orb.specs.Parking.{parked_in};
ghost use Rattle.ft_objects.specs.Interfaces.{interface_of};
ghost use Rattle.lemonrudder.specs.Questions.{TellsIfSome, body_size, client_of};

use crate::refusal::{Refusal, copied, count_of};
use crate::request::{RequestHead, put_question, put_refusal, ticket_of};
use crate::serving::Serving;
use cdr_core::{Order, Val, are_writable, end_of_list, write_list};
use ft_objects::{Catalogue, Lookup, boolean_at, octets_at, ulong_at};
use ft_orb::Asked;
use giop_link::Inbound;

/// Where the request of a ticket is.
#[derive(Clone, Copy, Debug)]
pub(super) enum Found {
    /// It waits: it has this number, and came on this connection.
    Waits(u64, u64),
    /// It is parked under this number.
    Parked(u64),
}

/// The request of a ticket, and where it is.
#[derive(Clone, Copy, Debug)]
pub(super) struct Called<'e> {
    pub(super) found: Found,
    pub(super) asked: Asked<'e>,
}

impl Serving {
    ghost use Rattle.lemonrudder.specs.Outcomes.{interface_at};
    ghost use Rattle.lemonrudder.specs.Questions.{OnAsked, OnPart, TellsBody, TellsValues, is_raw, with_body};
    ghost use Rattle.lemonrudder.specs.Tickets.{IsAskedBy, IsFound, IsFoundAt, IsNamedBy, IsParkedOne, called_by, found_parked, named_by, parked_by};

    /// The request that waits, where it has this ticket.
    pub(super) fn asked_by(&self, ticket: u64) -> Result<Asked<'_>, Refusal>
        ensures { IsAskedBy ticket (waits_in self.now.engine) result }
    {
        let Some(asked) = self.engine.asked() else {
            return Err(Refusal::Idle);
        };
        if ticket_of(asked.number) != ticket {
            return Err(Refusal::Ticket);
        }
        Ok(asked)
    }

    /// The request of a ticket, which waits or is parked.
    #[inline(always)]
    pub(super) fn named_by(&self, ticket: u64) -> Result<Called<'_>, Refusal>
        ensures named { IsNamedBy (named_by ticket (waits_in self.now.engine) (parked_in self.now.engine)) result }
        ensures found { IfOk result (λ x. IsFoundAt x.found (waits_in self.now.engine)) }
    {
        if let Some(asked) = self.engine.asked() {
            if ticket_of(asked.number) == ticket {
                let found = Found::Waits(asked.number, asked.connection);
                return Ok(Called { found, asked });
            }
        }
        self.parked_by(ticket)
    }

    /// The request of a ticket, which is parked.
    #[inline(never)]
    fn parked_by(&self, ticket: u64) -> Result<Called<'_>, Refusal>
        ensures named { IsNamedBy (found_parked ticket (parked_by ticket (parked_in self.now.engine))) result }
        ensures found { IfOk result (λ x. IsParkedOne x.found) }
    {
        if ticket == 0 {
            return Err(Refusal::Ticket);
        }
        let number = ticket - 1;
        match self.engine.parked(number) {
            Some(asked) => {
                let found = Found::Parked(number);
                Ok(Called { found, asked })
            }
            None => Err(Refusal::Ticket),
        }
    }

    /// The request of a ticket of which an outcome may be said: not of one that is parked while another waits.
    #[inline(always)]
    pub(super) fn called_by(&self, ticket: u64) -> Result<Called<'_>, Refusal>
        ensures called { IsNamedBy (called_by ticket (waits_in self.now.engine) (parked_in self.now.engine)) result }
        ensures found { IfOk result (λ x. IsFound x.found (waits_in self.now.engine)) }
    {
        let called = self.named_by(ticket)?;
        if let Found::Waits(_, _) = called.found {
            return Ok(called);
        }
        if self.engine.is_asking() {
            return Err(Refusal::Asking);
        }
        Ok(called)
    }

    /// What the operation is that waits: raw, where it would be refused.
    #[inline(always)]
    pub(super) fn lookup(&self, asked: &Asked<'_>) -> Lookup<'_>
        ensures { interface_of result ≡ interface_at self.now (awaited_lent asked.now) }
    {
        if asked.refused.is_some() {
            return Lookup::Raw;
        }
        self.engine
            .catalogue()
            .interface(asked.object_key, asked.operation)
    }

    /// Whether the operation that waits is raw.
    fn is_raw(&self, asked: &Asked<'_>) -> bool
        ensures { result ≡ is_raw (interface_at self.now (awaited_lent asked.now)) }
    {
        matches!(self.lookup(asked), Lookup::Raw)
    }

    /// Says whether the request that waits is raw, how long its body is, its order and its place.
    fn put_body(&self, head: &mut RequestHead, asked: &Asked<'_>)
        ensures { head.new ≡ with_body (interface_at self.now (awaited_lent asked.now)) (values_of asked.now.arguments.now) head.old }
    {
        head.is_raw = u32::from(self.is_raw(asked));
        head.body_size = body_len(asked.arguments);
        head.body_order = boolean_at(asked.arguments, 1).map_or(0, u32::from);
        head.body_at = ulong_at(asked.arguments, 2).map_or(0, u64::from);
    }

    /// Says what waits.
    pub fn asked(&self, room: &mut [u8]) -> u64
        ensures does { OnAsked room.old room.new self.now self.now (Ok result) }
        ensures none { result ≡ 0 → room.new ≡ room.old }
    {
        let Some(asked) = self.engine.asked() else {
            return 0;
        };
        let Some(inbound) = self.engine.message() else {
            return 0;
        };
        let Inbound::Request(version, request) = inbound else {
            return 0;
        };
        let mut head = RequestHead::none();
        head.ticket = ticket_of(asked.number);
        head.connection = asked.connection;
        head.key_size = count_of(asked.object_key);
        head.operation_size = count_of(asked.operation);
        put_question(&mut head, version, request);
        self.put_body(&mut head, &asked);
        put_refusal(&mut head, asked.refused);
        head.tell(room);
        1
    }

    /// Copies a body: octets that came, or arguments that are values.
    fn body(&self, arguments: &[Val], room: &mut [u8]) -> Result<u64, Refusal>
        ensures { TellsBody (values_of arguments.now) room.old room.new result }
    {
        if let Some(octets) = octets_at(arguments, 0) {
            return Ok(copied(octets, room));
        }
        self.values_of_call(arguments, room)
    }

    /// .. that are values.
    fn values_of_call(&self, arguments: &[Val], room: &mut [u8]) -> Result<u64, Refusal>
        ensures { TellsValues (values_of arguments.now) room.old room.new result }
    {
        if !are_writable(arguments) {
            return Err(Refusal::None);
        }
        if !have_octets(arguments) {
            return Ok(0);
        }
        let mut octets = Vec::new(self.alloc);
        write_list(Order::Big, 0, arguments, &mut octets)?;
        Ok(copied(&octets, room))
    }

    /// Copies a part of the request of a ticket.
    pub fn part(&self, ticket: u64, part: u32, room: &mut [u8]) -> Result<u64, Refusal>
        ensures { OnPart ticket part room.old room.new self.now self.now result }
    {
        let asked = self.named_by(ticket)?.asked;
        match part {
            0 => Ok(copied(asked.object_key, room)),
            1 => Ok(copied(asked.operation, room)),
            2 => self.body(asked.arguments, room),
            3 => client(&asked, room),
            _ => Err(Refusal::None),
        }
    }
}

/// How many octets a body has: those that came, or those of arguments that are values, in big order from place 0.
fn body_len(arguments: &[Val]) -> u64
    ensures { result ≡ body_size (values_of arguments.now) }
{
    match octets_at(arguments, 0) {
        Some(octets) => count_of(octets),
        None => end_of_list(0, arguments).unwrap_or(0),
    }
}

/// Whether arguments that are values have octets.
fn have_octets(arguments: &[Val]) -> bool
    ensures { IsTrue result ↔ (0 < length (octets_of_all Order.Big (values_of arguments.now) 0)) }
{
    match end_of_list(0, arguments) {
        Some(end) => end > 0,
        None => true,
    }
}

/// Copies the client id of a request.
fn client(asked: &Asked<'_>, room: &mut [u8]) -> Result<u64, Refusal>
    ensures { TellsIfSome (client_of (awaited_lent asked.now).field) room.old room.new result }
{
    match &asked.ft_request {
        Some(ft_request) => Ok(copied(&ft_request.key.client_id, room)),
        None => Err(Refusal::None),
    }
}
