//! The client's end of a connection.

ghost use Rattle.std.specs.Prelude.{◌≡◌, ◌≢◌, ◌<◌, ◌≤◌, ◌+◌, ◌*◌, ◌++◌, List, [], ℕ, suc, length, take, true, false, Some, None, Ok, Err, map, IfOk, IfErr, IfSome, IsOk, IsTrue, OnErr, OnOk, if◌then◌else◌};
ghost use Rattle.std.specs.Option.{option_map};
ghost use Rattle.cdr_core.specs.declared.order.Order.TheVariants.{Big};
ghost use Rattle.cdr_core.specs.Spelling.{IsClean};
ghost use Rattle.cdr_core.specs.View.{values_of};
ghost use Rattle.cdr_core.specs.Writing.{AreWritable};
ghost use Rattle.giop_core.specs.declared.header.MessageKind.TheVariants as kind;
ghost use Rattle.giop_core.specs.Items.{item_at};
ghost use Rattle.giop_core.specs.Lent.{addressed_by};
ghost use Rattle.giop_core.specs.Places.{said_by};
ghost use Rattle.giop_core.specs.Written.{CanAddress, CanAsk, message_octets};
ghost use Rattle.giop_frames.specs.Standing.{frame_held, frame_of, parts_held};
ghost use Rattle.giop_link.specs.declared.awaited.Wanted.TheVariants as wanted;
ghost use Rattle.giop_link.specs.Answering.{Answer, answer_of, answer_to};
ghost use Rattle.giop_link.specs.ClientLinking.{CanBeSent, ClientStands, Exchange, IsClientFaultOf, IsNearBody, IsSendError, TakesIn, Terms, cancel_octets, delivered_at, ended, locate_after, no_exchange, refusal_of, request_after};
ghost use Rattle.giop_link.specs.Ids.{given_up, is_outstanding, one_more, wanted_by};
ghost use Rattle.giop_link.specs.Listening.{spoken_by};
ghost use Rattle.giop_link.specs.Private.{answered_one, settled_left, settles};

use crate::awaited::{Outstanding, Wanted, enter, place_of, wanted_by};
use crate::delivery::{Delivery, delivered};
use crate::error::{LinkFault, SendError};
use crate::listener::{Listener, PeerEnd, Side};
use cdr_core::{Order, Val};
use giop_core::{
    Reading, ReplyWish, Said, Target, Version, write_cancel, write_locate_request, write_request,
};
use giop_frames::Limits;
use std::alloc::{AllocError, Global};
use std::marker::Model;

/// A client, which hears replies and answers to locates.
#[derive(Debug, Drop)]
pub struct Client;

impl Side for Client {
    ghost Heard = { Answer };

    ghost meaning = { answer_to };

    fn turn_of(message: &Reading<'_>) -> Result<Option<PeerEnd>, LinkFault> {
        match message.said() {
            Said::Reply(_) | Said::LocateReply(_) => Ok(None),
            Said::Close => Ok(Some(PeerEnd::Closed)),
            Said::Error => Ok(Some(PeerEnd::Error)),
            Said::Request(_) | Said::LocateRequest(_) | Said::Cancel(_) | Said::Fragment(_) => {
                Err(LinkFault::WrongDirection)
            }
        }
    }
}

/// The id that a message answers and the kind of answer that it is, if it is one.
#[inline(always)]
fn answered_one(message: &Reading<'_>) -> Option<Outstanding>
    requires { IsOk (said_by message.now) }
    ensures { result ≡ answered_one (answer_of (frame_of message.now)) }
{
    match message.said() {
        Said::Reply(reply) => Some(Outstanding {
            id: reply.lend().request_id,
            wanted: Wanted::Reply,
        }),
        Said::LocateReply(reply) => Some(Outstanding {
            id: reply.lend().request_id,
            wanted: Wanted::Location,
        }),
        Said::Request(_)
        | Said::Cancel(_)
        | Said::LocateRequest(_)
        | Said::Close
        | Said::Error
        | Said::Fragment(_) => None,
    }
}

/// Takes the id of the answer that is lent, if one is, out of those that are outstanding. True: it was awaited.
fn settle(waiting: &mut Vec<Outstanding>, listener: &Listener<Client>) -> bool
    ensures by { result ≡ settles (spoken_by answer_to listener.now.message) waiting.old.items }
    ensures left { waiting.new.items ≡ settled_left (spoken_by answer_to listener.now.message) waiting.old.items }
{
    let Some(message) = listener.reading() else {
        return false;
    };
    let Some(one) = answered_one(&message) else {
        return false;
    };
    let Some(place) = place_of(waiting.as_slice(), one.id, Some(one.wanted)) else {
        return false;
    };
    waiting.remove(place);
    true
}

/// The client's end of a connection: it writes requests, locates and cancels, gives each its request id, and
/// takes the octets of a server, of which it lends each answer that is awaited, until the stream ends.
///
/// Request ids are 1, 2, .. in the order of sending. An id is outstanding, unless no reply was wished for, until
/// it is cancelled or abandoned, a message of its kind answers it, a Reply a request and a LocateReply a locate,
/// or the link ends. Its messages are big-endian. It opens no socket. A link that has ended holds no octets.
#[derive(Debug, Drop)]
pub struct ClientLink {
    listener: Listener<Client>,
    version: Version,
    most: u16,
    given: u32,
    outstanding: Vec<Outstanding>,
    /// Whether the message that completed last was awaited.
    delivers: bool,
}

impl Model for ClientLink {
    ghost use Rattle.giop_link.specs.ClientLinking.{ClientLinked};
    ghost use Rattle.giop_link.specs.Private.{IsClientSound, client_linked};

    ghost Value = { ClientLinked };

    ghost view = { λ l. client_linked (record { limits = l.listener.limits; version = l.version; most = l.most }) (record { given = l.given; outstanding = l.outstanding.items }) l.delivers l.listener };

    ghost invariant = { λ l. IsClientSound l.most l.outstanding.items l.listener };
}

impl ClientLink {
    /// The client's end of a connection on which nothing was sent and nothing has come. So many ids may be
    /// outstanding, 1 to 1,024. Messages are written in this version. It takes no memory.
    pub fn new(alloc: Global, limits: Limits, version: Version, outstanding: u16) -> ClientLink
        requires least { 1 ≤ outstanding }
        requires most { outstanding ≤ 1024 }
        ensures stands { ClientStands (record { limits = limits; version = version; most = outstanding }) result no_exchange }
        ensures message { result.message ≡ None }
        ensures delivery { result.delivery ≡ None }
    {
        ClientLink {
            listener: Listener::new(alloc, limits),
            version,
            most: outstanding,
            given: 0,
            outstanding: Vec::new(alloc),
            delivers: false,
        }
    }

    /// Tells whether the link has ended: nothing is sent any more, and nothing that comes counts.
    pub fn is_closed(&self) -> bool
        ensures { result ≡ self.now.is_closed }
    {
        self.listener.is_closed()
    }

    /// How many ids are outstanding: none, where the link has ended.
    pub fn outstanding(&self) -> usize
        ensures outstanding { result ≡ length self.now.ids.outstanding }
        ensures bound { result ≤ self.now.terms.most }
        ensures closed { self.now.is_closed ≡ true → result ≡ 0 }
    {
        self.outstanding.len()
    }

    /// How many ids the link has given: there are 4,294,967,295.
    pub fn given(&self) -> u32
        ensures { result ≡ self.now.ids.given }
    {
        self.given
    }

    /// How many octets the link holds: those of the frame that is not whole, or of the message that completed
    /// last, and those of the partial messages, the headers of their first frames among them. A link that has
    /// ended holds none.
    pub fn held(&self) -> usize
        ensures octets { result ≡ frame_held self.now.message self.now.pending + parts_held self.now.parts }
        ensures closed { self.now.is_closed ≡ true → result ≡ 0 }
        ensures bound { result ≤ (self.now.terms.limits.partials + 1) * self.now.terms.limits.message }
    {
        self.listener.held()
    }

    /// Why nothing is sent now, if an answer of this kind is wanted.
    fn refusal(&self, wanted: Option<Wanted>) -> Option<SendError>
        ensures refusal { result ≡ refusal_of self.now wanted }
        ensures next { result ≡ None → self.now.ids.given < 4294967295 }
    {
        if self.is_closed() {
            return Some(SendError::LinkClosed);
        }
        if wanted.is_some() && self.outstanding() >= usize::from(self.most) {
            return Some(SendError::TooManyOutstanding);
        }
        if self.given == u32::MAX {
            return Some(SendError::IdsUsed);
        }
        None
    }

    /// Appends a Request (GIOP 9.4.2), and returns its id, which is outstanding from then on unless
    /// no reply is wished for.
    ///
    /// The operation has no NUL. In 1.0 and 1.1 the target is an object key, and no empty reply can be asked for.
    /// On an error the link and `out` are as they were.
    pub fn send_request(
        &mut self,
        wish: ReplyWish,
        target: &Target,
        operation: &[u8],
        contexts: &[(u32, &[u8])],
        body: &[Val],
        out: &mut Vec<u8>,
    ) -> Result<u32, SendError>
        requires target { CanAddress self.old.terms.version (addressed_by target.now) }
        requires wish { CanAsk self.old.terms.version wish }
        requires clean { IsClean operation.now }
        requires writable { AreWritable (values_of body.now) }
        // the next id is given, and what is lent stays
        ensures ok { IfOk result (λ id. (id ≡ suc self.old.ids.given) × (self.new ≡ record self.old { ids = one_more (wanted_by wish) self.old.ids })) }
        ensures out { OnOk result (out.new.items ≡ out.old.items
            ++ message_octets self.old.terms.version kind.Request Big (request_after self.old.terms.version (suc self.old.ids.given) wish (addressed_by target.now) operation.now (map item_at contexts.now) (values_of body.now))) }
        // no refusal holds ..
        ensures sent { OnOk result (CanBeSent (refusal_of self.old (wanted_by wish))
            (request_after self.old.terms.version (suc self.old.ids.given) wish (addressed_by target.now) operation.now (map item_at contexts.now) (values_of body.now))) }
        // .. or it is the first that holds
        ensures err { IfErr result (λ e. IsSendError (refusal_of self.old (wanted_by wish))
            (request_after self.old.terms.version (suc self.old.ids.given) wish (addressed_by target.now) operation.now (map item_at contexts.now) (values_of body.now)) e) }
        ensures same { OnErr result ((self.new ≡ self.old) × (out.new.items ≡ out.old.items)) }
        ensures stands { (terms : Terms) (x : Exchange) → ClientStands terms self.old x → OnOk result (ClientStands terms self.new (record x { ids = one_more (wanted_by wish) x.ids })) }
    {
        let wanted = wanted_by(wish);
        if let Some(refusal) = self.refusal(wanted) {
            return Err(refusal);
        }
        let id = self.given + 1;
        let before = enter(&mut self.outstanding, id, wanted)?;
        let written = write_request(
            self.version,
            Order::Big,
            id,
            wish,
            target,
            operation,
            contexts,
            body,
            out,
        );
        if let Err(error) = written {
            self.outstanding.truncate(before);
            return Err(SendError::from(error));
        }
        self.given = id;
        Ok(id)
    }

    /// Gives the next request id, for a Request that the caller writes under it. It is outstanding from then on unless
    /// no reply is wished for.
    ///
    /// It is `send_request` for a message whose octets the caller has already. On an error the link is as it was.
    pub fn give_id(&mut self, wish: ReplyWish) -> Result<u32, SendError>
        ensures ok { IfOk result (λ id. (id ≡ suc self.old.ids.given) × (self.new ≡ record self.old { ids = one_more (wanted_by wish) self.old.ids })) }
        // no refusal holds ..
        ensures given { OnOk result (refusal_of self.old (wanted_by wish) ≡ None) }
        // .. or it is the first that holds
        ensures err { IfErr result (λ e. IsSendError (refusal_of self.old (wanted_by wish)) [] e) }
        ensures same { OnErr result (self.new ≡ self.old) }
        ensures stands { (terms : Terms) (x : Exchange) → ClientStands terms self.old x → OnOk result (ClientStands terms self.new (record x { ids = one_more (wanted_by wish) x.ids })) }
    {
        let waits_for = wanted_by(wish);
        if let Some(refusal) = self.refusal(waits_for) {
            return Err(refusal);
        }
        let next = self.given + 1;
        enter(&mut self.outstanding, next, waits_for)?;
        self.given = next;
        Ok(next)
    }

    /// Appends a LocateRequest (GIOP 9.4.5), and returns its id, which is outstanding from then on.
    ///
    /// In 1.0 and 1.1 the target is an object key. On an error the link and `out` are as they were.
    pub fn send_locate(&mut self, target: &Target, out: &mut Vec<u8>) -> Result<u32, SendError>
        requires { CanAddress self.old.terms.version (addressed_by target.now) }
        ensures ok { IfOk result (λ id. (id ≡ suc self.old.ids.given) × (self.new ≡ record self.old { ids = one_more (Some wanted.Location) self.old.ids })) }
        ensures out { OnOk result (out.new.items ≡ out.old.items
            ++ message_octets self.old.terms.version kind.LocateRequest Big (locate_after self.old.terms.version (suc self.old.ids.given) (addressed_by target.now))) }
        ensures sent { OnOk result (CanBeSent (refusal_of self.old (Some wanted.Location)) (locate_after self.old.terms.version (suc self.old.ids.given) (addressed_by target.now))) }
        ensures err { IfErr result (λ e. IsSendError (refusal_of self.old (Some wanted.Location)) (locate_after self.old.terms.version (suc self.old.ids.given) (addressed_by target.now)) e) }
        ensures same { OnErr result ((self.new ≡ self.old) × (out.new.items ≡ out.old.items)) }
        ensures stands { (terms : Terms) (x : Exchange) → ClientStands terms self.old x → OnOk result (ClientStands terms self.new (record x { ids = one_more (Some wanted.Location) x.ids })) }
    {
        let wanted = Some(Wanted::Location);
        if let Some(refusal) = self.refusal(wanted) {
            return Err(refusal);
        }
        let id = self.given + 1;
        let before = enter(&mut self.outstanding, id, wanted)?;
        if let Err(error) = write_locate_request(self.version, Order::Big, id, target, out) {
            self.outstanding.truncate(before);
            return Err(SendError::from(error));
        }
        self.given = id;
        Ok(id)
    }

    /// Gives up an id, and appends a CancelRequest (GIOP 9.4.4). False, and nothing is appended,
    /// where it is not outstanding. Where an allocation fails nothing has changed.
    pub fn cancel(&mut self, id: u32, out: &mut Vec<u8>) -> Result<bool, AllocError>
        ensures ok { IfOk result (λ was. (was ≡ is_outstanding id self.old.ids.outstanding) × (self.new ≡ record self.old { ids = given_up id self.old.ids })) }
        ensures out { IfOk result (λ was. out.new.items ≡ out.old.items ++ (if was then cancel_octets self.old.terms.version id else [])) }
        ensures err { OnErr result (IsTrue (is_outstanding id self.old.ids.outstanding) × (self.new ≡ self.old) × (out.new.items ≡ out.old.items)) }
        ensures stands { (terms : Terms) (x : Exchange) → ClientStands terms self.old x → OnOk result (ClientStands terms self.new (record x { ids = given_up id x.ids })) }
    {
        let Some(place) = place_of(self.outstanding.as_slice(), id, None) else {
            return Ok(false);
        };
        write_cancel(self.version, Order::Big, id, out)?;
        self.outstanding.remove(place);
        Ok(true)
    }

    /// Gives up an id, and writes nothing. Where it is not outstanding nothing changes.
    pub fn abandon(&mut self, id: u32)
        ensures ids { self.new ≡ record self.old { ids = given_up id self.old.ids } }
        ensures stands { (terms : Terms) (x : Exchange) → ClientStands terms self.old x → ClientStands terms self.new (record x { ids = given_up id x.ids }) }
    {
        if let Some(place) = place_of(self.outstanding.as_slice(), id, None) {
            self.outstanding.remove(place);
        }
    }

    /// What the last call of `feed` completed, if it was awaited, or the end that the peer made.
    pub fn delivery(&self) -> Option<Delivery<'_>>
        ensures lent { option_map delivered_at result ≡ self.now.delivery }
        // the place of a body fits 32 bits, as the readers of values ask
        ensures near { IfSome result IsNearBody }
    {
        match self.listener.end() {
            Some(PeerEnd::Closed) => Some(Delivery::Closed),
            Some(PeerEnd::Error) => Some(Delivery::PeerError),
            None => {
                if !self.delivers {
                    return None;
                }
                delivered(&self.listener.reading()?)
            }
        }
    }

    /// Takes octets of a piece up to and with the end of the next message that completes, or all of them, and
    /// returns how many. What it lent before is dropped.
    ///
    /// An answer that is awaited is lent, and its id is no longer outstanding. Any other is dropped. Where the
    /// link has ended it takes all octets, without memory, and lends nothing. An error is the first fault of the
    /// stream, a message of the wrong direction, or that an allocation failed; the link has ended then, with no
    /// id outstanding. After the peer's CloseConnection or MessageError, which is lent once, it has ended too. An
    /// empty piece takes no memory, and changes nothing but that nothing is lent any more.
    pub fn feed(&mut self, piece: &[u8]) -> Result<usize, LinkFault>
        ensures takes { (terms : Terms) (x : Exchange) → ClientStands terms self.old x → IfOk result (λ n. TakesIn terms x piece.now n self.new) }
        ensures within { IfOk result (λ n. n ≤ length piece.now) }
        ensures some { IfOk result (λ n. 0 < length piece.now → 0 < n) }
        ensures closed { self.old.is_closed ≡ true → (result ≡ Ok (length piece.now)) × (self.new ≡ ended self.old) }
        // an allocation failed, or the stream ends so with the piece, and nothing is heard in it
        ensures fault { (terms : Terms) (x : Exchange) → ClientStands terms self.old x → IfErr result (λ e. IsClientFaultOf terms.limits x.received piece.now e) }
        ensures err { OnErr result (self.new ≡ ended self.old) }
        ensures empty { self.old.is_closed ≡ false → piece.now ≡ [] → (result ≡ Ok 0) × (self.new ≡ record self.old { message = None; delivery = None }) }
        ensures terms { self.new.terms ≡ self.old.terms }
        ensures given { self.new.ids.given ≡ self.old.ids.given }
    {
        self.delivers = false;
        let fed = self.listener.feed(piece);
        if self.listener.is_closed() {
            self.outstanding.clear(); // nothing is answered any more
        } else {
            self.delivers = settle(&mut self.outstanding, &self.listener);
        }
        fed
    }
}
