//! A message as its reading left it, which lends what it says without reading it again.

ghost use Rattle.std.specs.Prelude.{◌≡◌, Ok, IsOk};
ghost use Rattle.giop_core.specs.Lent.{content_of, locate_reply_of, locate_request_of, reply_of, request_of, rest_of};
ghost use Rattle.giop_core.specs.Messages.{OnBody, StandsNear};
ghost use Rattle.giop_core.specs.Places.{ArePlacesOf, said_by};
ghost use Rattle.giop_core.specs.Said.{IsSaid};

use crate::cancel::CancelRequest;
use crate::fragment::Fragment;
use crate::header::Header;
use crate::locate::{LocateReply, LocateRequest};
use crate::message::{Message, Places};
use crate::places::{BodyPlace, Parts, ReplyParts, RequestParts, TargetPlace};
use crate::reply::Reply;
use crate::request::Request;
use std::marker::Model;

/// A message as its reading left it: its header, its octets, and where its parts lie among them.
#[derive(Drop)]
pub struct Reading<'m> {
    header: &'m Header,
    octets: &'m [u8],
    places: &'m Places,
}

impl<'m> Model for Reading<'m> {
    ghost use Rattle.giop_core.specs.Places.{ArePlacesOf, Headed};

    ghost Value = { Headed };

    ghost view = { λ m. record { header = m.header.now; octets = m.octets.now } };

    ghost invariant = { λ m. ArePlacesOf m.header.now m.octets.now m.places.now };
}

impl<'m> Reading<'m> {
    /// The octets after a header, whose parts lie at these places.
    #[inline(always)]
    pub fn new(header: &'m Header, octets: &'m [u8], places: &'m Places) -> Reading<'m>
        requires { ArePlacesOf header.now octets.now places.now }
        ensures { result ≡ record { header = header.now; octets = octets.now } }
    {
        Reading {
            header,
            octets,
            places,
        }
    }

    /// The header.
    #[inline(always)]
    pub fn header(&self) -> Header
        ensures header { result ≡ self.now.header }
        // the message has no fault
        ensures valid { IsOk (said_by self.now) }
    {
        *self.header
    }

    /// The message.
    #[inline(always)]
    pub fn message(&self) -> Message<'m>
        ensures says { said_by self.now ≡ Ok (content_of result.content) }
        ensures same { (result.version ≡ self.now.header.version) × (result.order ≡ self.now.header.order) }
        ensures near { OnBody (StandsNear self.now.octets) (content_of result.content) }
    {
        self.places.lend(self.header, self.octets)
    }

    /// The kind of the message, which its reading decided, and what lends what a message of the kind says.
    #[inline(always)]
    pub fn said(&self) -> Said<'m>
        ensures { IsSaid self.now result }
    {
        let (header, octets) = (self.header, self.octets);
        match &self.places.parts {
            Parts::Request(parts) => Said::Request(RequestReading {
                header,
                octets,
                parts,
            }),
            Parts::Reply(parts) => Said::Reply(ReplyReading {
                header,
                octets,
                parts,
            }),
            Parts::Cancel(id) => Said::Cancel(CancelRequest { request_id: *id }),
            Parts::LocateRequest(id, target) => Said::LocateRequest(LocateRequestReading {
                header,
                octets,
                id: *id,
                target,
            }),
            Parts::LocateReply(id, status, body) => Said::LocateReply(LocateReplyReading {
                header,
                octets,
                id: *id,
                status: *status,
                body,
            }),
            Parts::Close => Said::Close,
            Parts::Error => Said::Error,
            Parts::Fragment(id, start) => Said::Fragment(Fragment {
                request_id: *id,
                payload: &octets[*start..],
            }),
        }
    }
}

/// A message by its kind (GIOP 9.4.1). Requests, Replies and what is said of locations are lent where they are asked for.
#[derive(Drop)]
pub enum Said<'m> {
    Request(RequestReading<'m>),
    Reply(ReplyReading<'m>),
    Cancel(CancelRequest),
    LocateRequest(LocateRequestReading<'m>),
    LocateReply(LocateReplyReading<'m>),
    /// CloseConnection, which is its header alone.
    Close,
    /// MessageError, which is its header alone.
    Error,
    Fragment(Fragment<'m>),
}

/// A Request as its reading left it.
#[derive(Drop)]
pub struct RequestReading<'m> {
    header: &'m Header,
    octets: &'m [u8],
    parts: &'m RequestParts,
}

impl<'m> Model for RequestReading<'m> {
    ghost use Rattle.giop_core.specs.Places.{ArePartsOf, Headed};
    ghost use Rattle.giop_core.specs.declared.places.Parts.TheVariants.{Request};

    ghost Value = { Headed };

    ghost view = { λ m. record { header = m.header.now; octets = m.octets.now } };

    ghost invariant = { λ m. ArePartsOf m.header.now.version m.header.now.kind m.header.now.order m.octets.now (Request m.parts.now) };
}

impl<'m> RequestReading<'m> {
    /// What it says.
    #[inline(always)]
    pub fn lend(&self) -> Request<'m>
        ensures says { said_by self.now ≡ Ok (request_of result) }
        ensures near { StandsNear self.now.octets (rest_of result.body) }
    {
        self.parts.lend(self.header.order, self.octets)
    }
}

/// A Reply as its reading left it.
#[derive(Drop)]
pub struct ReplyReading<'m> {
    header: &'m Header,
    octets: &'m [u8],
    parts: &'m ReplyParts,
}

impl<'m> Model for ReplyReading<'m> {
    ghost use Rattle.giop_core.specs.Places.{ArePartsOf, Headed};
    ghost use Rattle.giop_core.specs.declared.places.Parts.TheVariants.{Reply};

    ghost Value = { Headed };

    ghost view = { λ m. record { header = m.header.now; octets = m.octets.now } };

    ghost invariant = { λ m. ArePartsOf m.header.now.version m.header.now.kind m.header.now.order m.octets.now (Reply m.parts.now) };
}

impl<'m> ReplyReading<'m> {
    /// What it says.
    #[inline(always)]
    pub fn lend(&self) -> Reply<'m>
        ensures says { said_by self.now ≡ Ok (reply_of result) }
        ensures near { StandsNear self.now.octets (rest_of result.body) }
    {
        self.parts.lend(self.header.order, self.octets)
    }
}

/// A LocateRequest as its reading left it.
#[derive(Drop)]
pub struct LocateRequestReading<'m> {
    header: &'m Header,
    octets: &'m [u8],
    id: u32,
    target: &'m TargetPlace,
}

impl<'m> Model for LocateRequestReading<'m> {
    ghost use Rattle.giop_core.specs.Places.{ArePartsOf, Headed};
    ghost use Rattle.giop_core.specs.declared.places.Parts.TheVariants.{LocateRequest};

    ghost Value = { Headed };

    ghost view = { λ m. record { header = m.header.now; octets = m.octets.now } };

    ghost invariant = { λ m. ArePartsOf m.header.now.version m.header.now.kind m.header.now.order m.octets.now (LocateRequest m.id m.target.now) };
}

impl<'m> LocateRequestReading<'m> {
    /// What it says.
    #[inline(always)]
    pub fn lend(&self) -> LocateRequest<'m>
        ensures { said_by self.now ≡ Ok (locate_request_of result) }
    {
        LocateRequest {
            request_id: self.id,
            target: self.target.lend(self.header.order, self.octets),
        }
    }
}

/// A LocateReply as its reading left it.
#[derive(Drop)]
pub struct LocateReplyReading<'m> {
    header: &'m Header,
    octets: &'m [u8],
    id: u32,
    status: u32,
    body: &'m BodyPlace,
}

impl<'m> Model for LocateReplyReading<'m> {
    ghost use Rattle.giop_core.specs.Places.{ArePartsOf, Headed};
    ghost use Rattle.giop_core.specs.declared.places.Parts.TheVariants.{LocateReply};

    ghost Value = { Headed };

    ghost view = { λ m. record { header = m.header.now; octets = m.octets.now } };

    ghost invariant = { λ m. ArePartsOf m.header.now.version m.header.now.kind m.header.now.order m.octets.now (LocateReply m.id m.status m.body.now) };
}

impl<'m> LocateReplyReading<'m> {
    /// What it says.
    #[inline(always)]
    pub fn lend(&self) -> LocateReply<'m>
        ensures says { said_by self.now ≡ Ok (locate_reply_of result) }
        ensures near { StandsNear self.now.octets (rest_of result.body) }
    {
        LocateReply {
            request_id: self.id,
            status: self.status,
            body: self.body.lend(self.header.order, self.octets),
        }
    }
}
