//! The server's end of a connection.

ghost use Rattle.std.specs.Prelude.{◌≡◌, ◌≢◌, ◌<◌, ◌≤◌, ◌+◌, ◌*◌, ◌++◌, List, [], ℕ, length, take, true, false, Some, None, Ok, Err, IfOk, IfErr, IfSome, OnErr, OnOk, if◌then◌else◌};
ghost use Rattle.std.specs.Option.{option_map};
ghost use Rattle.giop_frames.specs.Standing.{StandsFor, parts_held};
ghost use Rattle.giop_frames.specs.declared.limits.Limits.{Limits};
ghost use Rattle.giop_link.specs.Hearing.{Incoming, ending, heard, meaning_in};
ghost use Rattle.giop_link.specs.Listening.{ending_in, heard_in};
ghost use Rattle.giop_link.specs.Linking.{IsFaultOf, IsNear, IsQuiet, LinkStands, close_connection, meaning_at, shut};

use crate::error::LinkFault;
use crate::inbound::{Inbound, spoken};
use crate::listener::{Listener, PeerEnd, Side};
use giop_core::{Reading, Said, write_close};
use giop_frames::Limits;
use std::alloc::{AllocError, Global};
use std::marker::Model;

/// A server, which hears requests, locates and cancels.
#[derive(Debug, Drop)]
pub struct Server;

impl Side for Server {
    ghost Heard = { Incoming };

    ghost meaning = { meaning_in };

    fn turn_of(message: &Reading<'_>) -> Result<Option<PeerEnd>, LinkFault> {
        match message.said() {
            Said::Request(_) | Said::LocateRequest(_) | Said::Cancel(_) => Ok(None),
            Said::Close => Ok(Some(PeerEnd::Closed)),
            Said::Error => Ok(Some(PeerEnd::Error)),
            Said::Reply(_) | Said::LocateReply(_) | Said::Fragment(_) => {
                Err(LinkFault::WrongDirection)
            }
        }
    }
}

/// The server's end of a connection: it takes the octets of a client, and lends each message that is heard,
/// until the stream ends or it is closed.
///
/// It opens no socket. A closed link holds no octets.
#[derive(Debug, Drop)]
pub struct ServerLink {
    listener: Listener<Server>,
}

impl Model for ServerLink {
    ghost use Rattle.giop_link.specs.Linking.{Linked};
    ghost use Rattle.giop_link.specs.Private.{linked};

    ghost Value = { Linked };

    ghost view = { λ l. linked l.listener };
}

impl ServerLink {
    /// The server's end of a connection on which nothing has come. It takes no memory.
    pub fn new(alloc: Global, limits: Limits) -> ServerLink
        ensures stands { LinkStands limits result [] }
        ensures inbound { result.inbound ≡ None }
    {
        ServerLink {
            listener: Listener::new(alloc, limits),
        }
    }

    /// Tells whether the link is closed: nothing that comes counts any more.
    pub fn is_closed(&self) -> bool
        ensures { result ≡ self.now.is_closed }
    {
        self.listener.is_closed()
    }

    /// The message that the last call of `feed` completed, if it did.
    #[inline(always)]
    pub fn inbound(&self) -> Option<Inbound<'_>>
        ensures lent { option_map meaning_at result ≡ self.now.inbound }
        // the place of a request's body fits 32 bits, as its arguments' reader asks
        ensures near { IfSome result IsNear }
    {
        match self.listener.end() {
            Some(PeerEnd::Closed) => Some(Inbound::PeerClosed),
            Some(PeerEnd::Error) => Some(Inbound::PeerError),
            None => spoken(&self.listener.reading()?),
        }
    }

    /// How many octets the link holds: those of the frame that is not whole, or of the message that is lent, and
    /// those of the partial messages, the headers of their first frames among them. A closed link holds none.
    pub fn held(&self) -> usize
        ensures octets { self.now.inbound ≡ None → result ≡ length self.now.pending + parts_held self.now.parts }
        // a message that is lent counts, with its header
        ensures lent { self.now.is_closed ≡ false → self.now.inbound ≢ None → 12 + parts_held self.now.parts ≤ result }
        ensures closed { self.now.is_closed ≡ true → result ≡ 0 }
        ensures bound { result ≤ (self.now.limits.partials + 1) * self.now.limits.message }
    {
        self.listener.held()
    }

    /// Takes octets of a piece up to and with the end of the next message that completes, or all of them, and
    /// returns how many. What it lent before is dropped.
    ///
    /// Where the link is closed it takes all of them, without memory, and lends nothing. An error is the first
    /// fault of the stream, a message of the wrong direction, or that an allocation failed; the link is closed
    /// then. After the peer's CloseConnection or MessageError, which is lent once, it is closed too. An empty
    /// piece takes no memory, and changes nothing but that no message is lent any more.
    pub fn feed(&mut self, piece: &[u8]) -> Result<usize, LinkFault>
        ensures stands { (limits : Limits) (s : List ℕ) → LinkStands limits self.old s → IfOk result (λ n. LinkStands limits self.new (s ++ take n piece.now)) }
        // the message that is lent, if one is, is the next that is heard
        ensures heard { (limits : Limits) (s : List ℕ) → LinkStands limits self.old s → IfOk result (λ n. heard limits (s ++ take n piece.now) ≡ heard limits s ++ heard_in self.new.inbound) }
        // or it is the stream's end
        ensures ended { (limits : Limits) (s : List ℕ) → LinkStands limits self.old s → IfOk result (λ n. ending limits (s ++ take n piece.now) ≡ ending_in (ending limits s) self.new.inbound) }
        // and nothing comes before the last octet that is taken
        ensures first { (limits : Limits) (s : List ℕ) → LinkStands limits self.old s → IfOk result (λ n. (k : ℕ) → k < n → IsQuiet limits s (take k piece.now)) }
        ensures within { IfOk result (λ n. n ≤ length piece.now) }
        ensures some { IfOk result (λ n. 0 < length piece.now → 0 < n) }
        ensures all { IfOk result (λ n. self.new.inbound ≡ None → n ≡ length piece.now) }
        ensures closed { self.old.is_closed ≡ true → (result ≡ Ok (length piece.now)) × (self.new ≡ shut self.old) }
        // an allocation failed, or the stream ends so with the piece, and nothing is heard in it
        ensures fault { (limits : Limits) (s : List ℕ) → LinkStands limits self.old s → IfErr result (λ e. IsFaultOf limits s piece.now e) }
        ensures err { OnErr result (self.new ≡ shut self.old) }
        ensures empty { self.old.is_closed ≡ false → piece.now ≡ [] → (result ≡ Ok 0) × (self.new ≡ record self.old { inbound = None }) }
        ensures limits { self.new.limits ≡ self.old.limits }
    {
        self.listener.feed(piece)
    }

    /// Closes the link, and appends CloseConnection (GIOP 9.4.7), unless it was closed before. Where
    /// an allocation fails nothing has changed.
    pub fn close(&mut self, out: &mut Vec<u8>) -> Result<(), AllocError>
        ensures ok { OnOk result (out.new.items ≡ out.old.items ++ (if self.old.is_closed then [] else close_connection)) }
        ensures closed { OnOk result (self.new ≡ shut self.old) }
        ensures err { OnErr result ((self.old.is_closed ≡ false) × (out.new.items ≡ out.old.items) × (self.new ≡ self.old)) }
    {
        if !self.is_closed() {
            write_close(out)?;
        }
        self.listener.close(); // nothing more counts
        Ok(())
    }
}
