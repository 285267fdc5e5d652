//! Connections of a client, and what is sent again on them.

ghost use Rattle.std.specs.Prelude.{◌≡◌, ◌≢◌, ◌++◌, [], false, true, is_some, OnOk, OnErr};

use crate::client::FtClient;
use crate::ending::end_sent;
use crate::sending::{forget_sent, send_again};
use giop_link::ClientLink;
use std::alloc::AllocError;

impl FtClient {
    ghost use Rattle.ft_client.specs.Clients.{Client, Joined, Kept, Linked, Resent, after, parted, resent_on, says, says_again, sent_off};
    ghost use Rattle.ft_client.specs.Directions.{stream};
    ghost use Rattle.ft_client.specs.Messages.{octets_said};
    ghost use Rattle.ft_client.specs.Standing.{FieldsStand, FtStands, IsLinked, down};

    /// Whether a reply that raises TRANSIENT (CORBA 3.3 Part 1, A.3), whatever its minor code, leaves its call pending from now
    /// on, in place of completing it. In a new client it completes it, and so does one with COMPLETED_YES (FT 23.2).
    ///
    /// Such a call is not sent on this connection any more until `resend` is called, and on the next connection as others are. It
    /// expires and is cancelled as others are. A server that keeps what it answered knows the call by its number: one that
    /// performed it, and raised TRANSIENT, raises it for each try.
    pub fn keep_on_transient(&mut self, keeps: bool)
        ensures stands { (m : Client) → FtStands self.old m → FtStands self.new (after (down m.limits) (Kept keeps) m) }
        ensures link { self.new.link ≡ self.old.link }
    {
        self.keeps_transient = keeps;
    }

    /// The client is connected anew: each pending call that is not past its expiration is sent on the new connection,
    /// in the order of the numbers, and the Requests are appended. One that wishes for no reply has ended with that.
    ///
    /// Where an allocation fails `out` is as it was, and the client is not connected. It fails only where a call is to be
    /// sent.
    pub fn connected(&mut self, now: u64, out: &mut Vec<u8>) -> Result<(), AllocError>
        requires { is_some self.old.link ≡ false }
        ensures stands { OnOk result ((m : Client) → FtStands self.old m → FtStands self.new (after (down m.limits) (Joined now) m)) }
        ensures out { OnOk result ((m : Client) → FtStands self.old m → out.new.items ≡ out.old.items ++ stream octets_said (says (Joined now) m)) }
        ensures err { OnErr result ((m : Client) → FtStands self.old m → FtStands self.new (parted m)) }
        ensures needed { OnErr result ((m : Client) → FtStands self.old m → says (Joined now) m ≢ []) }
        ensures unwritten { OnErr result (out.new.items ≡ out.old.items) }
    {
        giop_link::laws::streams_are_heard::<giop_link::Client>();
        let link = ClientLink::new(self.alloc, self.limits, self.version, 64);
        self.send_due(link, now, out)
    }

    /// Sends each pending call that was not sent on this connection, and is not past its expiration, on it, in the order of the
    /// numbers, and appends the Requests: those that TRANSIENT left pending. One that wishes for no reply has ended with that.
    /// Where the client is not connected nothing happens.
    ///
    /// Each goes out under a new request id. When it is called is up to the caller, and so how long a call waits for its next
    /// try. Half of the ids of a connection are left to calls: once 2,147,483,648 were given on it, nothing is sent again on it.
    /// Where an allocation fails `out` is as it was, and the client is not connected. It fails only where a call is to be sent.
    pub fn resend(&mut self, now: u64, out: &mut Vec<u8>) -> Result<(), AllocError>
        ensures stands { OnOk result ((m : Client) → FtStands self.old m → FtStands self.new (after (down m.limits) (Resent now) m)) }
        ensures out { OnOk result ((m : Client) → FtStands self.old m → out.new.items ≡ out.old.items ++ stream octets_said (says (Resent now) m)) }
        ensures err { OnErr result ((m : Client) → FtStands self.old m → FtStands self.new (parted m)) }
        ensures link { OnErr result ((is_some self.old.link ≡ true) × (is_some self.new.link ≡ false)) }
        ensures needed { OnErr result ((m : Client) → FtStands self.old m → says (Resent now) m ≢ []) }
        ensures unwritten { OnErr result (out.new.items ≡ out.old.items) }
    {
        let Some(link) = self.link.take() else {
            return Ok(());
        };
        self.send_due(link, now, out)
    }

    /// Each pending call that is due is sent on a link, which is the client's from then on. Where an allocation fails the link is
    /// dropped.
    fn send_due(
        &mut self,
        mut link: ClientLink,
        now: u64,
        out: &mut Vec<u8>,
    ) -> Result<(), AllocError>
        ensures stands { OnOk result ((m : Client) (l : Linked) → FieldsStand self.old m → IsLinked link m l → FtStands self.new (sent_off (resent_on now m l))) }
        ensures out { OnOk result ((m : Client) (l : Linked) → FieldsStand self.old m → IsLinked link m l → out.new.items ≡ out.old.items ++ stream octets_said (says_again m.version m.client_id now l.given m.pending)) }
        ensures err { OnErr result ((m : Client) → FieldsStand self.old m → FtStands self.new (parted m)) }
        ensures link { OnErr result (is_some self.new.link ≡ false) }
        ensures needed { OnErr result ((m : Client) (l : Linked) → FieldsStand self.old m → IsLinked link m l → says_again m.version m.client_id now l.given m.pending ≢ []) }
        ensures unwritten { OnErr result (out.new.items ≡ out.old.items) }
    {
        let start = out.len();
        if let Err(error) = send_again(&mut link, &mut self.pending, now, out) {
            out.truncate(start);
            self.link = None;
            forget_sent(&mut self.pending);
            return Err(error);
        }
        end_sent(&mut self.pending, &mut self.completions);
        self.link = Some(link);
        Ok(())
    }
}
