//! Finding where the parts of a message lie.

ghost use Rattle.std.specs.Prelude.{◌≡◌, ◌+◌, ◌≤◌, length, drop, IfOk};
ghost use Rattle.cdr_core.specs.Form as form;
ghost use Rattle.cdr_core.specs.Numbers.{padding};
ghost use Rattle.cdr_core.specs.Parts.{enum_value, octet, octet_value, raw, text, ulong, ulong_value};
ghost use Rattle.cdr_core.specs.Value as value;
ghost use Rattle.giop_core.specs.Items.{list_value};
ghost use Rattle.giop_core.specs.Messages.{field_at};
ghost use Rattle.giop_core.specs.Places.{IsSpanIn, IsTargetIn, contexts_in, object_in, span_in};
ghost use Rattle.giop_core.specs.Private.{Gives, Reads, three_value};
ghost use Rattle.giop_core.specs.Rows.{contexts, reserved, target};
ghost use Rattle.giop_core.specs.Written.{target_of};

use crate::error::MessageFault;
use crate::message::AFTER_HEADER;
use crate::places::{BodyPlace, ContextsPlace, Span, TargetPlace};
use crate::request::read_reserved;
use crate::service_context::read_contexts;
use crate::target_address::{Target, read_target};
use cdr_core::{Cursor, Fault, Order};
use std::marker::Model;

/// A cursor that knows among which octets it stands, so that it tells where each part lies.
#[derive(Drop)]
pub(crate) struct Finder<'m> {
    octets: &'m [u8],
    cursor: Cursor<'m>,
}

impl<'m> Model for Finder<'m> {
    ghost use Rattle.giop_core.specs.Private.{Finding};
    ghost use Rattle.giop_core.specs.Places.{IsOn};

    ghost Value = { Finding };

    ghost view = { λ f. record { octets = f.octets.now; at = f.cursor } };

    ghost invariant = { λ f. IsOn 12 f.octets.now f.cursor };
}

impl<'m> Finder<'m> {
    /// At the first of the octets after a header.
    #[inline(always)]
    pub fn new(octets: &'m [u8], order: Order) -> Finder<'m>
        ensures { result ≡ record { octets = octets.now; at = record { order = order; place = 12; rest = octets.now } } }
    {
        Finder {
            octets,
            cursor: Cursor::new(octets, order, AFTER_HEADER),
        }
    }

    /// How many octets stand before the cursor.
    #[inline(always)]
    pub fn start(&self) -> usize
        ensures place { 12 + result ≡ self.now.at.place }
        ensures rest { self.now.at.rest ≡ drop result self.now.octets }
        ensures within { result ≤ length self.now.octets }
    {
        self.octets.len() - self.cursor.rest().len()
    }

    /// Reads an unsigned long.
    #[inline(always)]
    pub fn ulong(&mut self) -> Result<u32, Fault>
        ensures reads { Reads ulong_value result ulong self.old.at self.new.at }
        ensures octets { self.new.octets ≡ self.old.octets }
    {
        self.cursor.ulong()
    }

    /// Reads an octet.
    #[inline(always)]
    pub fn octet(&mut self) -> Result<u8, Fault>
        ensures reads { Reads octet_value result octet self.old.at self.new.at }
        ensures octets { self.new.octets ≡ self.old.octets }
    {
        self.cursor.octet()
    }

    /// Reads octets.
    #[inline(always)]
    pub fn octets(&mut self) -> Result<Span, Fault>
        ensures reads { Reads (λ s. value.octets (span_in s self.old.octets)) result raw self.old.at self.new.at }
        ensures octets { self.new.octets ≡ self.old.octets }
        ensures within { IfOk result (λ s. IsSpanIn s self.old.octets) }
    {
        let octets = self.cursor.octets()?;
        let end = self.start();
        Ok(Span {
            start: end - octets.len(),
            end,
        })
    }

    /// Reads a boolean.
    #[inline(always)]
    pub fn boolean(&mut self) -> Result<bool, Fault>
        ensures reads { Reads value.boolean result form.boolean self.old.at self.new.at }
        ensures octets { self.new.octets ≡ self.old.octets }
    {
        self.cursor.boolean()
    }

    /// Reads the ordinal of an enumeration of so many names.
    #[inline(always)]
    pub fn ordinal(&mut self, names: u32) -> Result<u32, Fault>
        ensures reads { Reads enum_value result (form.enumeration names) self.old.at self.new.at }
        ensures octets { self.new.octets ≡ self.old.octets }
    {
        self.cursor.ordinal(names)
    }

    /// Reads three reserved octets, which may be any.
    #[inline(always)]
    pub fn reserved(&mut self) -> Result<[u8; 3], Fault>
        ensures reads { Reads three_value result reserved self.old.at self.new.at }
        ensures octets { self.new.octets ≡ self.old.octets }
    {
        let mut next = self.cursor.fork();
        let octets = read_reserved(&mut next)?;
        self.cursor = next;
        Ok(octets)
    }

    /// Reads a string, which is lent without its NUL.
    #[inline(always)]
    pub fn string(&mut self) -> Result<Span, Fault>
        ensures reads { Reads (λ s. value.string (span_in s self.old.octets)) result text self.old.at self.new.at }
        ensures octets { self.new.octets ≡ self.old.octets }
        ensures within { IfOk result (λ s. IsSpanIn s self.old.octets) }
    {
        let text = self.cursor.string()?;
        let end = self.start() - 1; // before the NUL
        Ok(Span {
            start: end - text.len(),
            end,
        })
    }

    /// Reads service contexts.
    #[inline(always)]
    pub fn contexts(&mut self) -> Result<ContextsPlace, Fault>
        ensures reads { Reads (λ p. list_value (contexts_in p self.old.at.order self.old.octets)) result contexts self.old.at self.new.at }
        ensures octets { self.new.octets ≡ self.old.octets }
        ensures within { IfOk result (λ p. p.start ≤ length self.old.octets) }
    {
        let mut next = self.cursor.fork();
        let lent = read_contexts(&mut next)?;
        self.cursor = next;
        Ok(ContextsPlace {
            start: self.octets.len() - lent.cursor.rest().len(),
            left: lent.left,
        })
    }

    /// Reads a target of 1.2.
    #[inline(always)]
    pub fn target(&mut self) -> Result<TargetPlace, MessageFault>
        ensures reads { Gives (λ p. target_of (object_in p self.old.at.order self.old.octets)) result (field_at target self.old.at.order self.old.at.place self.old.at.rest) self.old.at self.new.at }
        ensures octets { self.new.octets ≡ self.old.octets }
        ensures within { IfOk result (λ p. IsTargetIn p self.old.at.order self.old.octets) }
    {
        let start = self.start();
        let mut next = self.cursor.fork();
        let target = read_target(&mut next)?;
        self.cursor = next;
        if let Target::Key(key) = target {
            let end = self.start();
            return Ok(TargetPlace::Key(Span {
                start: end - key.len(),
                end,
            }));
        }
        Ok(TargetPlace::Other(start))
    }

    /// The body, where the cursor is.
    #[inline(always)]
    pub fn body(&self) -> BodyPlace
        ensures at { result.at ≡ self.now.at.place }
        ensures rest { drop result.start self.now.octets ≡ self.now.at.rest }
        ensures within { result.start ≤ length self.now.octets }
    {
        BodyPlace {
            start: self.start(),
            at: self.cursor.place(),
        }
    }

    /// The body, at the next place divisible by 8.
    #[inline(always)]
    pub fn aligned_body(&self) -> BodyPlace
        ensures at { result.at ≡ self.now.at.place + padding self.now.at.place 8 }
        ensures rest { drop result.start self.now.octets ≡ drop (padding self.now.at.place 8) self.now.at.rest }
        ensures within { result.start ≤ length self.now.octets }
    {
        let mut next = self.cursor.fork();
        next.align(8);
        BodyPlace {
            start: self.octets.len() - next.rest().len(),
            at: next.place(),
        }
    }
}
