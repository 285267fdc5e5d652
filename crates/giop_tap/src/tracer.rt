//! A reader beside connections: each message of either side, and what it has to do with earlier ones.

ghost use Rattle.std.specs.Prelude.{◌≡◌, ◌≢◌, ◌≤◌, ◌+◌, ◌*◌, ◌++◌, ℕ, true, false, List, length, take, [], IfOk, IfSome, IsSome, IsTrue, MatchOption, None, Some};
ghost use Rattle.giop_core.specs.Lent.{content_of};
ghost use Rattle.giop_frames.specs.declared.limits.Limits.{Limits};
ghost use Rattle.giop_frames.specs.Streams.{Awaits, rest_of};
ghost use Rattle.giop_link.specs.Listening.{ListenerStands, heard_in, spoken_by};
ghost use Rattle.giop_tap.specs.Pairing.{RepeatsRecent, Said, answered, may_repeat, named_in, repeated, unanswered_in, weight_in};
ghost use Rattle.giop_tap.specs.Tracing as tracing;
ghost use Rattle.giop_tap.specs.Tracing.{EndsStand, IsHeld, IsLatest, PairsStand, Talk, TraceStands, counts, end_of, has_ended, lent_of, news, octets_of, said_after, talk_after};

use crate::either::Either;
use crate::pairing::{Pairs, Tie};
use crate::sender::Sender;
use giop_core::Message;
use giop_frames::{Limits, StreamFault};
use giop_link::{LinkFault, Listener};
use std::alloc::{AllocError, Global};
use std::marker::Model;
use std::mem;

/// Takes octets of a side up to and with the end of the next message, or all, and that message among the others.
fn hear(
    listener: &mut Listener<Either>,
    pairs: &mut Pairs,
    connection: u64,
    sender: Sender,
    piece: &[u8],
) -> Result<usize, LinkFault>
    ensures stands { (limits : Limits) (s : List ℕ) → ListenerStands counts limits listener.old s → IfOk result (λ n. ListenerStands counts limits listener.new (s ++ take n piece.now)) }
    ensures pairs { (limits : Limits) (s : List ℕ) (earlier : List Said) → ListenerStands counts limits listener.old s → PairsStand pairs.old earlier
        → IfOk result (λ n. PairsStand pairs.new (said_after connection sender (news limits s (take n piece.now)) earlier)) }
    ensures within { IfOk result (λ n. n ≤ length piece.now) }
    // what the octets bring is the message that is lent then
    ensures brings { (limits : Limits) (s : List ℕ) → ListenerStands counts limits listener.old s → IfOk result (λ n. heard_in (spoken_by counts listener.new.message) ≡ news limits s (take n piece.now)) }
    ensures keys { pairs.new.keyed.most ≡ pairs.old.keyed.most }
{
    let taken = listener.feed(piece)?;
    if listener.is_closed() {
        return Ok(taken);
    }
    let Some(message) = listener.message() else {
        return Ok(taken);
    };
    match pairs.take(connection, sender, &message.content) {
        Ok(_) => Ok(taken),
        Err(_) => Err(LinkFault::Stream(StreamFault::Memory)),
    }
}

/// A message as a trace lends it.
#[derive(Debug, Drop)]
pub struct Seen<'t> {
    /// Its number among all messages of all connections, from 1.
    pub number: u64,
    pub connection: u64,
    pub sender: Sender,
    pub message: Message<'t>,
    pub tie: Tie,
}

/// What both sides of a connection have sent, as far as it is not a whole message, while a trace is on another.
#[derive(Debug, Drop)]
pub struct Ends {
    connection: u64,
    opener: Listener<Either>,
    acceptor: Listener<Either>,
}

impl Model for Ends {
    ghost use Rattle.giop_tap.specs.Tracing.{Parted};

    ghost Value = { Parted };

    ghost view = { λ e. record { connection = e.connection; opener = e.opener; acceptor = e.acceptor } };
}

impl Ends {
    /// Those of a connection of this number, on which nothing has come.
    pub fn new(alloc: Global, limits: Limits, connection: u64) -> Ends
        ensures { EndsStand limits result (tracing.connected connection tracing.silence) }
    {
        Ends {
            connection,
            opener: Listener::new(alloc, limits),
            acceptor: Listener::new(alloc, limits),
        }
    }
}

/// A reader beside connections, on one at a time: it takes the octets of both sides as they come, and lends each
/// message that completes, with the request that it answers or cancels, and the one that it repeats.
///
/// A message may be of either side: requests of the side that accepted the connection count as well, and have ids of
/// their own (GIOP 9.8: bi-directional GIOP).
#[derive(Debug, Drop)]
pub struct Trace {
    alloc: Global,
    limits: Limits,
    connection: u64,
    opener: Listener<Either>,
    acceptor: Listener<Either>,
    pairs: Pairs,
    /// The side whose message is lent.
    lends: Option<Sender>,
}

impl Model for Trace {
    ghost use Rattle.giop_tap.specs.Tracing.{Traced};

    ghost Value = { Traced };

    ghost view = { λ t. record { limits = t.limits; connection = t.connection; opener = t.opener; acceptor = t.acceptor; pairs = t.pairs; lends = t.lends } };
}

impl Trace {
    /// A reader to which nothing has come. It remembers the keys of requests that came last: at least those that weigh
    /// `keys` together, and at most twice as many. A key weighs one, and one more for each 256 octets of its client id.
    pub fn new(alloc: Global, limits: Limits, keys: u64) -> Trace
        ensures stands { TraceStands result tracing.silence }
        ensures limits { result.limits ≡ limits }
        ensures keys { result.pairs.keyed.most ≡ keys }
    {
        Trace {
            alloc,
            limits,
            connection: 0,
            opener: Listener::new(alloc, limits),
            acceptor: Listener::new(alloc, limits),
            pairs: Pairs::new(alloc, keys),
            lends: None,
        }
    }

    /// Goes to another connection, of this number. What has come on the one before counts as far as later messages
    /// repeat its requests.
    pub fn connect(&mut self, connection: u64)
        ensures stands { (t : Talk) → TraceStands self.old t → TraceStands self.new (tracing.connected connection t) }
        ensures limits { self.new.limits ≡ self.old.limits }
        ensures keys { self.new.pairs.keyed.most ≡ self.old.pairs.keyed.most }
    {
        self.connection = connection;
        self.opener = Listener::new(self.alloc, self.limits);
        self.acceptor = Listener::new(self.alloc, self.limits);
        self.lends = None;
    }

    /// Goes to a connection of which this has come, and returns what has come of the one that it leaves. No message is
    /// lent then.
    pub fn turn_to(&mut self, ends: Ends) -> Ends
        ensures stands { (t on : Talk) → TraceStands self.old t → EndsStand self.old.limits ends on → TraceStands self.new (tracing.turned on t) }
        ensures left { (t : Talk) → TraceStands self.old t → EndsStand self.old.limits result t }
        ensures limits { self.new.limits ≡ self.old.limits }
        ensures keys { self.new.pairs.keyed.most ≡ self.old.pairs.keyed.most }
    {
        self.lends = None;
        let opener = mem::replace(&mut self.opener, ends.opener);
        let acceptor = mem::replace(&mut self.acceptor, ends.acceptor);
        let connection = mem::replace(&mut self.connection, ends.connection);
        Ends {
            connection,
            opener,
            acceptor,
        }
    }

    /// Lets the stream of a side begin anew, as after a fault: what was left of it is dropped.
    pub fn resume(&mut self, sender: Sender)
        ensures stands { (t : Talk) → TraceStands self.old t → TraceStands self.new (tracing.resumed sender t) }
        ensures limits { self.new.limits ≡ self.old.limits }
        ensures keys { self.new.pairs.keyed.most ≡ self.old.pairs.keyed.most }
    {
        let listener = Listener::new(self.alloc, self.limits);
        match sender {
            Sender::Opener => self.opener = listener,
            Sender::Acceptor => self.acceptor = listener,
        }
        self.lends = None;
    }

    /// Takes octets of a side up to and with the end of the next message, or all of them, and returns how many.
    ///
    /// An error is the first fault of the side's stream, after which nothing that comes of it counts until it is
    /// resumed; or that an allocation failed, after which the trace is no longer whole.
    pub fn feed(&mut self, sender: Sender, piece: &[u8]) -> Result<usize, LinkFault>
        ensures stands { (t : Talk) → TraceStands self.old t → IfOk result (λ n. TraceStands self.new (talk_after self.old.limits sender (take n piece.now) t)) }
        // each message that the octets bring is lent
        ensures brings { (t : Talk) → TraceStands self.old t → IfOk result (λ n. lent_of self.new ≡ news self.old.limits (octets_of sender t) (take n piece.now)) }
        ensures within { IfOk result (λ n. n ≤ length piece.now) }
        ensures limits { self.new.limits ≡ self.old.limits }
        ensures keys { self.new.pairs.keyed.most ≡ self.old.pairs.keyed.most }
    {
        self.lends = Some(sender);
        let connection = self.connection;
        match sender {
            Sender::Opener => hear(
                &mut self.opener,
                &mut self.pairs,
                connection,
                Sender::Opener,
                piece,
            ),
            Sender::Acceptor => hear(
                &mut self.acceptor,
                &mut self.pairs,
                connection,
                Sender::Acceptor,
                piece,
            ),
        }
    }

    /// The message that the last call of `feed` completed, if it did.
    pub fn seen(&self) -> Option<Seen<'_>>
        // it is the latest of all
        ensures message { (t : Talk) → TraceStands self.now t → MatchOption result (lent_of self.now ≡ []) (λ s. IsLatest (record { connection = s.connection; sender = s.sender; content = content_of s.message.content }) t.earlier) }
        // its number is that of all messages so far
        ensures number { IfSome result (λ s. s.number ≡ self.now.pairs.count) }
        ensures tie { IfSome result (λ s. self.now.pairs.last ≡ Some s.tie) }
        ensures connection { IfSome result (λ s. s.connection ≡ self.now.connection) }
        ensures request { (t : Talk) → TraceStands self.now t → IfSome result (λ s. s.tie.request ≡ answered t.earlier) }
        // while no key was forgotten, it repeats the first of all requests with its key
        ensures first { (t : Talk) → TraceStands self.now t → self.now.pairs.keyed.forgot ≡ None → IfSome result (λ s. s.tie.repeats ≡ repeated t.earlier) }
        // and what it repeats has its key, whatever was forgotten
        ensures repeats { (t : Talk) → TraceStands self.now t → IfSome result (λ s. IfSome s.tie.repeats (λ n. IsTrue (may_repeat n t.earlier))) }
        ensures recent { (t : Talk) → TraceStands self.now t → RepeatsRecent self.now.pairs.keyed.most t.earlier → IfSome result (λ s. IsSome s.tie.repeats) }
    {
        let sender = self.lends?;
        let message = self.listener(sender).message()?;
        let tie = self.pairs.last()?;
        Some(Seen {
            number: self.pairs.count(),
            connection: self.connection,
            sender,
            message,
            tie,
        })
    }

    /// The end that hears a side.
    fn listener(&self, sender: Sender) -> &Listener<Either>
        ensures { result.now ≡ end_of sender self.now }
    {
        match sender {
            Sender::Opener => &self.opener,
            Sender::Acceptor => &self.acceptor,
        }
    }

    /// How many octets of a side are held: those of the frame that is not whole, or of the message that the side completed
    /// last, until `feed` is called for it again; and those of partial messages, the headers of their first frames among
    /// them. A side whose stream has ended holds none.
    pub fn held(&self, sender: Sender) -> usize
        ensures octets { (t : Talk) → TraceStands self.now t → has_ended self.now.limits (octets_of sender t) ≡ false → IsHeld self.now.limits (octets_of sender t) (end_of sender self.now).message result }
        // where the last octets that were taken are of this side, and brought no message, none counts
        ensures idle { (t : Talk) → TraceStands self.now t → has_ended self.now.limits (octets_of sender t) ≡ false → self.now.lends ≡ Some sender → lent_of self.now ≡ [] → IsHeld self.now.limits (octets_of sender t) None result }
        ensures ended { (t : Talk) → TraceStands self.now t → has_ended self.now.limits (octets_of sender t) ≡ true → result ≡ 0 }
        ensures bound { (t : Talk) → TraceStands self.now t → result ≤ (self.now.limits.partials + 1) * self.now.limits.message }
    {
        let listener = self.listener(sender);
        if listener.is_closed() {
            return 0;
        }
        listener.held()
    }

    /// How many octets of the frame that a side has begun are still to come, or of its header, where that has not come
    /// whole; none where it has begun none, or its stream has ended.
    pub fn left(&self, sender: Sender) -> u64
        ensures awaits { (t : Talk) → TraceStands self.now t → has_ended self.now.limits (octets_of sender t) ≡ false → rest_of self.now.limits (octets_of sender t) ≢ [] → Awaits self.now.limits (octets_of sender t) result }
        ensures none { (t : Talk) → TraceStands self.now t → rest_of self.now.limits (octets_of sender t) ≡ [] → result ≡ 0 }
        ensures ended { (t : Talk) → TraceStands self.now t → has_ended self.now.limits (octets_of sender t) ≡ true → result ≡ 0 }
    {
        let listener = self.listener(sender);
        match listener.pending() {
            0 => 0,
            _ => listener.needed().unwrap_or(0) as u64,
        }
    }

    /// How many messages there were on all connections.
    pub fn count(&self) -> u64
        ensures { result ≡ self.now.pairs.count }
    {
        self.pairs.count()
    }

    /// The number of the message at which keys of requests were forgotten first, if some were: later requests with one of
    /// them repeat nothing that is known.
    pub fn forgot(&self) -> Option<u64>
        ensures number { result ≡ self.now.pairs.keyed.forgot }
        ensures light { (t : Talk) → TraceStands self.now t → weight_in (named_in t.earlier) ≤ self.now.pairs.keyed.most → result ≡ None }
    {
        self.pairs.forgot()
    }

    /// The numbers of the requests that no message has answered, in their order.
    pub fn unanswered(&self) -> Result<Vec<u64>, AllocError>
        ensures { (t : Talk) → TraceStands self.now t → IfOk result (λ v. v.items ≡ unanswered_in t.earlier) }
    {
        self.pairs.unanswered()
    }
}
