//! Calls of a client that are led elsewhere.

ghost use Rattle.std.specs.Prelude.{◌≡◌, ◌<◌, ◌^◌, Some, true, false, vec_len, IfErr, IfOk, OnErr, OnOk};
ghost use Rattle.std.specs.Option.{option_map};
ghost use Rattle.cdr_core.specs.Spelling.{IsClean};
ghost use Rattle.cdr_core.specs.View.{values_of};
ghost use Rattle.cdr_core.specs.Writing.{AreWritable};

use crate::client::FtClient;
use crate::ended::ReplyBody;
use crate::ending::{place_led, place_of};
use crate::error::{RawRedirectError, RedirectError};
use crate::pending::Asked;
use crate::raw_call::{RawCall, has_ft_request, is_placed};
use crate::requests::{written, written_raw};
use crate::sending::put_for;
use cdr_core::Val;

impl FtClient {
    ghost use Rattle.giop_core.specs.Written.{CanAsk};
    ghost use Rattle.ft_client.specs.declared.error.RedirectError.TheVariants.{NotForwarded};
    ghost use Rattle.ft_client.specs.Calling.{IsFitting, IsRawRedirectError, IsRedirectError, call_of, call_raw, is_led, raw_until};
    ghost use Rattle.ft_client.specs.Clients.{Client, KeptForwards, Pending, Redirected, after, find_pending, first_led};
    ghost use Rattle.ft_client.specs.Ends.{led_by_code, led_to};
    ghost use Rattle.ft_client.specs.Messages.{is_oneway, typed};
    ghost use Rattle.ft_client.specs.Private.{IsLedAt};
    ghost use Rattle.ft_client.specs.Redirections.{asked_anew, in_place_of};
    ghost use Rattle.ft_client.specs.Standing.{FieldsStand, FtStands, down};

    /// Whether a reply LOCATION_FORWARD or LOCATION_FORWARD_PERM (GIOP 9.4.3.2) leaves its call pending from now on, in place of
    /// completing it. In a new client it completes it (`Ended::Forwarded`).
    ///
    /// Such a call is led elsewhere: `forwarded` gives the reference, and until `redirect` says under which object key it is
    /// asked for it is not sent, on no connection. It expires and is cancelled as others are.
    pub fn keep_on_forward(&mut self, keeps: bool)
        ensures stands { (m : Client) → FtStands self.old m → FtStands self.new (after (down m.limits) (KeptForwards keeps) m) }
        ensures link { self.new.link ≡ self.old.link }
    {
        self.keeps_forwards = keeps;
    }

    /// The first call, in the order of the numbers, that is led elsewhere, and the reference to which (GIOP 9.4.3.2: an IOR).
    pub fn forwarded(&self) -> Option<(i32, &ReplyBody)>
        ensures { (m : Client) → FtStands self.now m → option_map led_by_code result ≡ led_to (first_led m.pending) }
    {
        let place = place_led(self.pending.as_slice())?;
        let one = &self.pending[place];
        match &one.led {
            Some(body) => Some((one.id, body)),
            None => None,
        }
    }

    /// The pending call of a number, which is led elsewhere, is asked for under another object key from now on: `resend` sends
    /// it, where the client is connected, or the next `connected`. Nothing is written here. It keeps its number, by which each
    /// server of its group knows it, and its expiration.
    ///
    /// The client keeps the octets of a call and not what they say, so its operation and its arguments are given again. They
    /// are to be those of the call: under one number a server takes both for one call. What is pending is always sent on the
    /// one connection, so it is up to the caller that this leads to where the call is led.
    ///
    /// What is given is what the call asks from now on, whatever it asked before, also where it was a raw one
    /// (`redirect_raw`).
    pub fn redirect(
        &mut self,
        id: i32,
        object_key: &[u8],
        operation: &[u8],
        arguments: &[Val],
    ) -> Result<(), RedirectError>
        requires clean { IsClean operation.now }
        requires writable { AreWritable (values_of arguments.now) }
        // no refusal holds ..
        ensures fitting { OnOk result ((m : Client) → FtStands self.old m → IsFitting id (call_of object_key.now operation.now arguments.now) m true) }
        ensures stands { OnOk result ((m : Client) (p : Pending) → FtStands self.old m → find_pending id m.pending ≡ Some p → p.call.form ≡ typed → p.call.operation ≡ operation.now → p.call.arguments ≡ values_of arguments.now
            → FtStands self.new (after (down m.limits) (Redirected id object_key.now) m)) }
        // .. also where this is another call
        ensures anew { OnOk result ((m : Client) → FtStands self.old m → FtStands self.new (record m { pending = asked_anew id object_key.now (in_place_of operation.now (values_of arguments.now) typed) m.pending })) }
        // .. or it is the first that holds
        ensures err { IfErr result (λ e. (m : Client) → FtStands self.old m → IsRedirectError id (call_of object_key.now operation.now arguments.now) m e) }
        ensures same { OnErr result ((m : Client) → FtStands self.old m → FtStands self.new m) }
    {
        let (place, number) = self.led_at(id)?;
        let one = &self.pending[place];
        let sent = one.sent;
        let asked = Asked {
            object_key,
            operation,
            arguments,
            expiration: one.expiration,
        };
        let client_id = self.client_id.as_slice();
        let mut call = written(self.alloc, self.version, client_id, number, &asked)?;
        call.sent = sent;
        put_for(&mut self.pending, place, call);
        Ok(())
    }

    /// A raw call that is led elsewhere is asked for under another object key from now on, as `redirect` does a typed one. What
    /// it asks is given again, but for its expiration, which counts for nothing here.
    ///
    /// The operation has no NUL, and 1.0 and 1.1 can't ask for an empty reply. What is given is what the call asks from now
    /// on, also where it was a typed one. A call that is led elsewhere wished for a reply: of one that is given without
    /// such a wish, and is not the call, no contract says what the client is afterwards.
    pub fn redirect_raw(&mut self, id: i32, call: &RawCall<'_>) -> Result<(), RawRedirectError>
        requires clean { IsClean call.now.operation.now }
        requires wish { CanAsk call.now.version call.now.wish }
        // no refusal holds ..
        ensures fitting { OnOk result ((m : Client) → FtStands self.old m → IsFitting id (raw_until call.now) m true) }
        ensures stands { OnOk result ((m : Client) (p : Pending) → FtStands self.old m → find_pending id m.pending ≡ Some p → p.call.form ≡ (call_raw call.now).form → p.call.operation ≡ call.now.operation.now → p.call.arguments ≡ (call_raw call.now).arguments
            → FtStands self.new (after (down m.limits) (Redirected id call.now.object_key.now) m)) }
        // .. also where this is another call, which wishes for a reply
        ensures anew { OnOk result (is_oneway call.now.wish ≡ false → (m : Client) → FtStands self.old m → FtStands self.new (record m { pending = asked_anew id call.now.object_key.now (in_place_of call.now.operation.now (call_raw call.now).arguments (call_raw call.now).form) m.pending })) }
        // .. or it is the first that holds
        ensures err { IfErr result (λ e. (m : Client) → FtStands self.old m → IsRawRedirectError id (raw_until call.now) m e) }
        ensures same { OnErr result ((m : Client) → FtStands self.old m → FtStands self.new m) }
    {
        if has_ft_request(call.contexts) {
            return Err(RawRedirectError::FtRequest);
        }
        let (place, number) = self.led_at(id)?;
        let one = &self.pending[place];
        let sent = one.sent;
        let asked = RawCall {
            expiration: one.expiration,
            ..*call
        };
        let mut kept = written_raw(self.alloc, self.client_id.as_slice(), number, &asked)?;
        if !is_placed(&call.body, kept.message.as_slice()) {
            return Err(RawRedirectError::Misplaced);
        }
        kept.sent = sent;
        put_for(&mut self.pending, place, kept);
        Ok(())
    }

    /// The place of the call of a number that is led elsewhere, and the number.
    fn led_at(&self, id: i32) -> Result<(usize, u32), RedirectError>
        ensures within { IfOk result (λ at. at.0 < vec_len self.now.pending) }
        ensures low { IfOk result (λ at. at.1 < 2 ^ 31) }
        ensures found { IfOk result (λ at. (m : Client) → FieldsStand self.now m → IsLedAt id self.now m at.0 at.1) }
        ensures err { IfErr result (λ e. (m : Client) → FtStands self.now m → (e ≡ NotForwarded) × (is_led (find_pending id m.pending) ≡ false)) }
    {
        let Some(place) = place_of(self.pending.as_slice(), id) else {
            return Err(RedirectError::NotForwarded);
        };
        let Ok(number) = u32::try_from(id) else {
            return Err(RedirectError::NotForwarded);
        };
        if self.pending[place].led.is_none() {
            return Err(RedirectError::NotForwarded);
        }
        Ok((place, number))
    }
}
