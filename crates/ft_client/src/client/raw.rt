//! Raw calls of a client.

ghost use Rattle.std.specs.Prelude.{◌≡◌, ◌++◌, true, IfOk, IfErr, OnOk, OnErr, pos, suc};
ghost use Rattle.cdr_core.specs.Spelling.{IsClean};

use crate::client::FtClient;
use crate::error::{RawCallError, RawRecallError};
use crate::raw_call::{RawCall, has_ft_request, is_placed};
use crate::requests::written_raw;

impl FtClient {
    ghost use Rattle.giop_core.specs.Written.{CanAsk};
    ghost use Rattle.ft_client.specs.Calling.{IsRawCallError, IsRawRecallError, call_raw};
    ghost use Rattle.ft_client.specs.Clients.{Called, Client, Resumed, after, is_resumed, is_taken, says};
    ghost use Rattle.ft_client.specs.Directions.{stream};
    ghost use Rattle.ft_client.specs.Messages.{octets_said};
    ghost use Rattle.ft_client.specs.Standing.{FtStands, down};

    /// Takes a raw call, and returns its number, as `call` does. Its body and its service contexts go out as they are, after
    /// FT_REQUEST, in its own version and in the byte order of its body. One that wishes for no reply has ended as soon as
    /// it is sent (`Ended::Sent`): here, where the client is connected, or else on the next connection, unless it has
    /// expired. A CancelRequest of it is in the client's version (`cancel`).
    ///
    /// The operation has no NUL, and 1.0 and 1.1 can't ask for an empty reply. On an error the client and `out` are as
    /// they were.
    pub fn call_raw(
        &mut self,
        now: u64,
        call: &RawCall<'_>,
        out: &mut Vec<u8>,
    ) -> Result<i32, RawCallError>
        requires clean { IsClean call.now.operation.now }
        requires wish { CanAsk call.now.version call.now.wish }
        ensures number { IfOk result (λ id. (m : Client) → FtStands self.old m → id ≡ pos (suc m.last)) }
        // no refusal holds ..
        ensures taken { OnOk result ((m : Client) → FtStands self.old m → is_taken now (call_raw call.now) m ≡ true) }
        ensures stands { OnOk result ((m : Client) → FtStands self.old m → FtStands self.new (after (down m.limits) (Called now (call_raw call.now)) m)) }
        ensures out { OnOk result ((m : Client) → FtStands self.old m → out.new.items ≡ out.old.items ++ stream octets_said (says (Called now (call_raw call.now)) m)) }
        // .. or it is the first that holds
        ensures err { IfErr result (λ e. (m : Client) → FtStands self.old m → IsRawCallError now (call_raw call.now) m e) }
        ensures same { OnErr result ((m : Client) → FtStands self.old m → FtStands self.new m) }
        ensures unwritten { OnErr result (out.new.items ≡ out.old.items) }
    {
        if has_ft_request(call.contexts) {
            return Err(RawCallError::FtRequest);
        }
        let number = self.next_number(now, call.expiration)?;
        let kept = written_raw(self.alloc, self.client_id.as_slice(), number, call)?;
        if !is_placed(&call.body, kept.message.as_slice()) {
            return Err(RawCallError::Misplaced);
        }
        self.place(number, kept, out)?;
        Ok(number as i32)
    }
    /// Takes a raw call of before up again, under its own number, as `recall` does a typed one: it goes out as `call_raw`
    /// sends it.
    ///
    /// The operation has no NUL, and 1.0 and 1.1 can't ask for an empty reply. On an error the client and `out` are as
    /// they were.
    pub fn recall_raw(
        &mut self,
        number: u32,
        now: u64,
        call: &RawCall<'_>,
        out: &mut Vec<u8>,
    ) -> Result<(), RawRecallError>
        requires clean { IsClean call.now.operation.now }
        requires wish { CanAsk call.now.version call.now.wish }
        // no refusal holds ..
        ensures taken { OnOk result ((m : Client) → FtStands self.old m → is_resumed now number (call_raw call.now) m ≡ true) }
        ensures stands { OnOk result ((m : Client) → FtStands self.old m → FtStands self.new (after (down m.limits) (Resumed now number (call_raw call.now)) m)) }
        ensures out { OnOk result ((m : Client) → FtStands self.old m → out.new.items ≡ out.old.items ++ stream octets_said (says (Resumed now number (call_raw call.now)) m)) }
        // .. or it is the first that holds
        ensures err { IfErr result (λ e. (m : Client) → FtStands self.old m → IsRawRecallError now number (call_raw call.now) m e) }
        ensures same { OnErr result ((m : Client) → FtStands self.old m → FtStands self.new m) }
        ensures unwritten { OnErr result (out.new.items ≡ out.old.items) }
    {
        if has_ft_request(call.contexts) {
            return Err(RawRecallError::FtRequest);
        }
        self.check_recall(number, now, call.expiration)?;
        let kept = written_raw(self.alloc, self.client_id.as_slice(), number, call)?;
        if !is_placed(&call.body, kept.message.as_slice()) {
            return Err(RawRecallError::Misplaced);
        }
        self.place(number, kept, out)?;
        Ok(())
    }
}
