//! An end of a connection as it hears the stream of its peer, whoever it is.

ghost use Rattle.std.specs.Prelude.{◌≡◌, ◌≢◌, ◌↔◌, ◌<◌, ◌≤◌, ◌+◌, ◌*◌, ◌^◌, ◌++◌, ℕ, List, [], length, take, true, false, Option, Some, None, Result, Ok, Err, IfOk, IfErr, IsOk, IsSome, IsSomeAnd, OnErr, OnOk, IfSome, MatchOption};
ghost use Rattle.std.specs.Option.{option_map};
ghost use Rattle.giop_core.specs.declared.header.Version.{Version};
ghost use Rattle.giop_core.specs.Content.{Content};
ghost use Rattle.giop_core.specs.Lent.{content_of};
ghost use Rattle.giop_core.specs.Messages.{OnBody};
ghost use Rattle.giop_core.specs.Places.{said_by};
ghost use Rattle.giop_frames.specs.Standing.{HasPlace, IsLent, StandsFor, frame_held, frame_of, parts_held};
ghost use Rattle.giop_frames.specs.Streams.{Awaits, frame_begins};
ghost use Rattle.giop_frames.specs.declared.limits.Limits.{Limits};
ghost use Rattle.giop_link.specs.declared.error.LinkFault.TheVariants.{WrongDirection};
ghost use Rattle.giop_link.specs.Hearing.{Sound, ending_as};
ghost use Rattle.giop_link.specs.Listening.{Brings, IsFaultTo, IsQuietTo, IsTurn, ListenerStands, closed, lent_by, spoken_by, told_with};
ghost use Rattle.giop_link.specs.Private.{IsHeard, LendsHeard};

use crate::error::LinkFault;
use giop_core::{Message, Reading};
use giop_frames::{Assembler, Limits};
use std::alloc::Global;
use std::marker::{Model, PhantomData};

/// The message by which a peer ended its stream.
#[derive(Clone, Copy, Debug)]
pub enum PeerEnd {
    Closed,
    Error,
}

/// An end of a connection, by what each message is to it.
pub trait Side {
    /// What it hears.
    ghost Heard: { Type 0 };

    /// What a message is to it, by its version and what it says: one that it hears, or the end of the stream.
    ghost meaning: { Version → Content → Sound Heard };

    /// What a message is: one that is heard, or the end that the peer made. An error is that it has the wrong
    /// direction.
    fn turn_of(message: &Reading<'_>) -> Result<Option<PeerEnd>, LinkFault>
        ensures by { IsTurn meaning message.now.header.kind result }
        ensures strays { IfErr result (λ e. e ≡ WrongDirection) };
}

/// Octets that were taken, and the end of the stream in them, if the peer made one.
#[derive(Drop)]
struct Taken {
    taken: usize,
    end: Option<PeerEnd>,
}

/// Takes octets up to and with the end of the next message, or all.
fn hear<S: Side>(assembler: &mut Assembler, piece: &[u8]) -> Result<Taken, LinkFault>
    requires { assembler.old.failed ≡ false }
    ensures heard { (s : List ℕ) → StandsFor assembler.old s → ending_as S.meaning assembler.old.limits s ≡ None
        → IfOk result (λ h. IsHeard S.meaning assembler.old.limits s (take h.taken piece.now) (told_with h.end (spoken_by S.meaning assembler.new.message)) assembler.new) }
    ensures first { (s : List ℕ) → StandsFor assembler.old s → ending_as S.meaning assembler.old.limits s ≡ None
        → IfOk result (λ h. (k : ℕ) → k < h.taken → IsQuietTo S.meaning assembler.old.limits s (take k piece.now)) }
    ensures fault { (s : List ℕ) → StandsFor assembler.old s → ending_as S.meaning assembler.old.limits s ≡ None
        → IfErr result (λ e. IsFaultTo S.meaning assembler.old.limits s piece.now e) }
    ensures within { IfOk result (λ h. h.taken ≤ length piece.now) }
    ensures some { IfOk result (λ h. 0 < length piece.now → 0 < h.taken) }
    ensures all { IfOk result (λ h. told_with h.end (spoken_by S.meaning assembler.new.message) ≡ None → h.taken ≡ length piece.now) }
    ensures empty { piece.now ≡ [] → (result ≡ Ok (record { taken = 0; end = None })) × (assembler.new ≡ record assembler.old { message = None }) }
    ensures live { OnOk result (assembler.new.failed ≡ false) }
    ensures lent { IfOk result (λ h. h.end ≡ None → LendsHeard S.meaning assembler.new) }
    ensures limits { assembler.new.limits ≡ assembler.old.limits }
{
    giop_frames::laws::streams_grow();
    giop_frames::laws::messages_are_whole();
    let taken = assembler.feed(piece)?;
    let end = match assembler.reading() {
        Some(message) => S::turn_of(&message)?,
        None => None,
    };
    Ok(Taken { taken, end })
}

/// What a listener does with what comes.
#[derive(Debug, Drop)]
pub(crate) enum State {
    /// It hears the messages that the assembler lends.
    Live(Assembler),
    /// The last call of `feed` took the message by which the peer ended the stream. It is lent until the next.
    Parting(PeerEnd),
    /// Nothing that comes counts.
    Closed,
}

/// A side's end of a connection as it hears: it takes the octets of the peer, and lends each message that is heard,
/// until the stream ends or it is closed.
///
/// It opens no socket. A closed listener holds no octets.
#[derive(Debug, Drop)]
pub struct Listener<S: Side> {
    limits: Limits,
    state: State,
    side: PhantomData<S>,
}

impl<S: Side> Model for Listener<S> {
    ghost use Rattle.giop_link.specs.Listening.{Listened};
    ghost use Rattle.giop_link.specs.Private.{IsSound, listened};

    ghost Value = { Listened };

    ghost view = { λ l. listened l.limits l.state };

    ghost invariant = { λ l. IsSound S.meaning l.limits l.state };
}

impl<S: Side> Listener<S> {
    /// A listener to which nothing has come. It takes no memory.
    pub fn new(alloc: Global, limits: Limits) -> Listener<S>
        ensures stands { ListenerStands S.meaning limits result [] }
        ensures message { result.message ≡ None }
        ensures end { result.end ≡ None }
    {
        crate::laws::streams_are_heard::<S>();
        Listener {
            limits,
            state: State::Live(Assembler::new(alloc, limits)),
            side: PhantomData,
        }
    }

    /// Tells whether nothing that comes counts any more.
    pub fn is_closed(&self) -> bool
        ensures closed { result ≡ self.now.is_closed }
        // a closed listener lends no message, and one that is not closed no end
        ensures message { result ≡ true → self.now.message ≡ None }
        ensures end { result ≡ false → self.now.end ≡ None }
    {
        !matches!(self.state, State::Live(_))
    }

    /// The message that the last call of `feed` completed, if it did, and it is heard, as its reading left it.
    #[inline(always)]
    pub fn reading(&self) -> Option<Reading<'_>>
        ensures lent { option_map frame_of result ≡ self.now.message }
        // it has no fault
        ensures valid { IfSome result (λ m. IsOk (said_by m)) }
        // the place of a body fits 32 bits, as the readers of values ask
        ensures short { IfSome result (λ m. length m.octets < 2 ^ 31) }
    {
        match &self.state {
            State::Live(assembler) => assembler.reading(),
            State::Parting(_) | State::Closed => None,
        }
    }

    /// The message that the last call of `feed` completed, if it did, and it is heard.
    #[inline(always)]
    pub fn message(&self) -> Option<Message<'_>>
        ensures lent { MatchOption result (self.now.message ≡ None) (λ m. IsSomeAnd self.now.message (λ f. IsLent m f)) }
        // the place of a body fits 32 bits, as the readers of values ask
        ensures place { IfSome result (λ m. OnBody HasPlace (content_of m.content)) }
    {
        match &self.state {
            State::Live(assembler) => assembler.message(),
            State::Parting(_) | State::Closed => None,
        }
    }

    /// The end that the peer made, if the last call of `feed` took it.
    #[inline(always)]
    pub fn end(&self) -> Option<PeerEnd>
        ensures { result ≡ self.now.end }
    {
        match &self.state {
            State::Parting(end) => Some(*end),
            State::Live(_) | State::Closed => None,
        }
    }

    /// How many octets it holds: those of the frame that is not whole, or of the message that is lent, and those of
    /// the partial messages, the headers of their first frames among them. A closed listener holds none.
    pub fn held(&self) -> usize
        ensures octets { result ≡ frame_held self.now.message self.now.pending + parts_held self.now.parts }
        ensures closed { self.now.is_closed ≡ true → result ≡ 0 }
        ensures bound { result ≤ (self.now.limits.partials + 1) * self.now.limits.message }
        // no message is held whole but one that is lent, which counts, with its header
        ensures idle { lent_by S.meaning self.now ≡ None → self.now.message ≡ None }
        ensures lent { self.now.is_closed ≡ false → lent_by S.meaning self.now ≢ None → 12 + parts_held self.now.parts ≤ result }
    {
        match &self.state {
            State::Live(assembler) => assembler.held(),
            State::Parting(_) | State::Closed => 0,
        }
    }

    /// How many octets there are of the frame that is not whole. A closed listener has none.
    pub fn pending(&self) -> usize
        ensures octets { result ≡ length self.now.pending }
        ensures closed { self.now.is_closed ≡ true → result ≡ 0 }
        // the frame begins so many octets before the end of what has come
        ensures begins { (limits : Limits) (s : List ℕ) → ListenerStands S.meaning limits self.now s → self.now.is_closed ≡ false → frame_begins limits s + result ≡ length s }
    {
        match &self.state {
            State::Live(assembler) => assembler.pending(),
            State::Parting(_) | State::Closed => 0,
        }
    }

    /// How many more octets are needed before anything can be judged: those up to the end of the frame's header, or of the
    /// frame. None, where it is closed.
    ///
    /// With fewer no message is heard, no frame ends, and there is no fault. An error that so many bring is of the frame that
    /// has begun, `pending` octets before them: who gives no more at a time knows where the frame of a fault begins.
    pub fn needed(&self) -> Option<usize>
        ensures closed { IsSome result ↔ self.now.is_closed ≡ false }
        ensures some { IfSome result (λ n. 0 < n) }
        ensures awaits { (limits : Limits) (s : List ℕ) → ListenerStands S.meaning limits self.now s → IfSome result (λ n. Awaits limits s n) }
    {
        match &self.state {
            State::Live(assembler) => Some(assembler.needed()),
            State::Parting(_) | State::Closed => None,
        }
    }

    /// Takes octets of a piece up to and with the end of the next message that is heard, or all of them, and
    /// returns how many. What it lent before is dropped.
    ///
    /// Where it is closed it takes all of them, without memory, and lends nothing. An error is the first fault of the
    /// stream, a message of the wrong direction, or that an allocation failed; it is closed then. After the peer's
    /// CloseConnection or MessageError, which is lent once, it is closed too. An empty piece takes no memory, and
    /// changes nothing but that nothing is lent any more.
    pub fn feed(&mut self, piece: &[u8]) -> Result<usize, LinkFault>
        ensures stands { (limits : Limits) (s : List ℕ) → ListenerStands S.meaning limits self.old s → IfOk result (λ n. ListenerStands S.meaning limits self.new (s ++ take n piece.now)) }
        // what is lent is the next that is heard, or the stream's end
        ensures brings { (limits : Limits) (s : List ℕ) → ListenerStands S.meaning limits self.old s → IfOk result (λ n. Brings S.meaning limits s (take n piece.now) (lent_by S.meaning self.new)) }
        // and nothing comes before the last octet that is taken
        ensures first { (limits : Limits) (s : List ℕ) → ListenerStands S.meaning limits self.old s → IfOk result (λ n. (k : ℕ) → k < n → IsQuietTo S.meaning limits s (take k piece.now)) }
        ensures within { IfOk result (λ n. n ≤ length piece.now) }
        ensures some { IfOk result (λ n. 0 < length piece.now → 0 < n) }
        ensures all { IfOk result (λ n. lent_by S.meaning self.new ≡ None → n ≡ length piece.now) }
        ensures idle { OnOk result (lent_by S.meaning self.new ≡ None → self.new.message ≡ None) }
        ensures closed { self.old.is_closed ≡ true → (result ≡ Ok (length piece.now)) × (self.new ≡ closed self.old) }
        // an allocation failed, or the stream ends so with the piece, and nothing is heard in it
        ensures fault { (limits : Limits) (s : List ℕ) → ListenerStands S.meaning limits self.old s → IfErr result (λ e. IsFaultTo S.meaning limits s piece.now e) }
        ensures err { OnErr result (self.new ≡ closed self.old) }
        ensures empty { self.old.is_closed ≡ false → piece.now ≡ [] → (result ≡ Ok 0) × (self.new ≡ record self.old { message = None; end = None }) }
        ensures limits { self.new.limits ≡ self.old.limits }
    {
        crate::laws::streams_are_heard::<S>();
        let next = match &mut self.state {
            State::Live(assembler) => hear::<S>(assembler, piece),
            State::Parting(_) | State::Closed => {
                self.state = State::Closed;
                return Ok(piece.len());
            }
        };
        match next {
            Ok(Taken { taken, end }) => {
                if let Some(end) = end {
                    self.state = State::Parting(end);
                }
                Ok(taken)
            }
            Err(fault) => {
                self.state = State::Closed; // what was held is dropped
                Err(fault)
            }
        }
    }

    /// Closes the listener: what it held is dropped, and nothing that comes counts any more.
    pub fn close(&mut self)
        ensures { self.new ≡ closed self.old }
    {
        self.state = State::Closed;
    }
}
