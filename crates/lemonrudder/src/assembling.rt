//! The messages of a stream.

ghost use Rattle.std.specs.Prelude.{◌≡◌};
ghost use Rattle.giop_core.specs.Lent.{content_of};
ghost use Rattle.lemonrudder.specs.Assembles.{fault_number};
ghost use Rattle.lemonrudder.specs.Lends.{head_of};

use crate::layout::Layout;
use crate::lent::{
    body_of, client_of, context_of, contexts_of, copies_of, count_of_contexts, expiration_of,
    ft_of, id_of, key_of, kind_of, operation_of, part_of, payload_of, place_of, retention_of,
    size_of, status_of, wish_of,
};
use crate::named::{cuts_of, limits_of, minor_of, number_of_order};
use crate::refusal::{Refusal, copied};
use giop_core::{HeaderFault, Message};
use giop_frames::{Assembler, StreamFault};
use std::alloc::Global;
use std::marker::Model;

/// A message: `lr_message`.
#[derive(Clone, Copy, Debug, Drop)]
pub struct MessageHead {
    pub key_size: u64,
    pub operation_size: u64,
    pub body_size: u64,
    pub body_at: u64,
    pub payload_size: u64,
    pub kind: u32,
    pub version: u32,
    pub order: u32,
    pub request_id: u32,
    pub status: u32,
    pub wish: u32,
    pub contexts: u32,
    pub has_key: u32,
    pub has_client: u32,
    pub retention_id: i32,
    pub client_size: u64,
    pub expiration: u64,
}

impl MessageHead {
    ghost use Rattle.lemonrudder.specs.Layouts.{laid, octets_of_message};

    /// Fills a room: with the octets of the struct, as many as it has, and with zeros behind.
    fn tell(&self, room: &mut [u8])
        ensures { room.new ≡ laid (octets_of_message self.now) room.old }
    {
        let mut layout = Layout::new();
        layout.put_u64(self.key_size);
        layout.put_u64(self.operation_size);
        layout.put_u64(self.body_size);
        layout.put_u64(self.body_at);
        layout.put_u64(self.payload_size);
        layout.put_u32(self.kind);
        layout.put_u32(self.version);
        layout.put_u32(self.order);
        layout.put_u32(self.request_id);
        layout.put_u32(self.status);
        layout.put_u32(self.wish);
        layout.put_u32(self.contexts);
        layout.put_u32(self.has_key);
        layout.put_u32(self.has_client);
        layout.put_i32(self.retention_id);
        layout.put_u64(self.client_size);
        layout.put_u64(self.expiration);
        layout.fill(room);
    }
}

/// An assembler, and the first fault of its stream, as a number. Once more than the first service context of the message
/// was asked for, all are copied, so that each is found by its index.
#[derive(Drop)]
pub struct Assembling {
    alloc: Global,
    assembler: Assembler,
    fault: u64,
    copies: Option<Vec<(u32, Vec<u8>)>>,
}

impl Model for Assembling {
    ghost use Rattle.std.specs.Option.{ForSome};
    ghost use Rattle.lemonrudder.specs.Assembled.{Assembled};
    ghost use Rattle.lemonrudder.specs.Lends.{AreThose};

    ghost Value = { Assembled };

    ghost view = { λ a. record { assembler = a.assembler; fault = a.fault } };

    ghost invariant = { λ a. ForSome a.copies (λ v. AreThose a.assembler.message v.items) };
}

/// The number of a fault.
pub fn number_of_fault(fault: &StreamFault) -> u64
    ensures { result ≡ fault_number fault.now }
{
    match fault {
        StreamFault::Header(HeaderFault::BadMagic) => 1,
        StreamFault::Header(HeaderFault::BadVersion) => 2,
        StreamFault::Header(HeaderFault::BadFlags) => 3,
        StreamFault::Header(HeaderFault::BadType) => 4,
        StreamFault::Header(HeaderFault::BadCut) => 5,
        StreamFault::TooLarge => 6,
        StreamFault::UnalignedFragment => 7,
        StreamFault::StrayFragment => 8,
        StreamFault::TwiceStarted => 9,
        StreamFault::TooManyPartial => 10,
        StreamFault::Body(_) => 11,
        StreamFault::MixedOrder => 12,
        StreamFault::Memory => 13,
        StreamFault::Failed => 0,
    }
}

/// What is reported of a message, but for how many service contexts it has.
fn head_of(message: &Message<'_>) -> MessageHead
    ensures { result ≡ record (head_of message.now.version message.now.order (content_of message.now.content)) { contexts = 0 } }
{
    let content = &message.content;
    let key = key_of(content);
    let ft = ft_of(content);
    let client = client_of(&ft);
    MessageHead {
        key_size: size_of(key),
        operation_size: size_of(operation_of(content)),
        body_size: size_of(body_of(content)),
        body_at: place_of(content),
        payload_size: size_of(payload_of(content)),
        kind: kind_of(content),
        version: minor_of(message.version),
        order: number_of_order(message.order),
        request_id: id_of(content),
        status: status_of(content),
        wish: wish_of(content),
        contexts: 0,
        has_key: u32::from(key.is_some()),
        has_client: u32::from(client.is_some()),
        retention_id: retention_of(&ft),
        client_size: size_of(client),
        expiration: expiration_of(&ft),
    }
}

impl Assembling {
    ghost use Rattle.std.specs.Prelude.{◌≡◌, Ok, OnErr, option_map};
    ghost use Rattle.std.specs.Option.{option_and_then};
    ghost use Rattle.giop_core.specs.Items.{item_at};
    ghost use Rattle.lemonrudder.specs.Assembles.{IsNew, OnFault, OnFeed};
    ghost use Rattle.lemonrudder.specs.Lends.{OnContext, OnMessage, OnPart, context_in, said};
    ghost use Rattle.lemonrudder.specs.Naming.{cuts_named};

    /// An assembler of which nothing has come.
    pub fn new(alloc: Global, message: u32, partials: u32, cuts: u32) -> Result<Assembling, Refusal>
        ensures { IsNew message partials (cuts_named cuts) result }
    {
        let limits = limits_of(message, partials, cuts_of(u64::from(cuts))?)?;
        Ok(Assembling {
            alloc,
            assembler: Assembler::new(alloc, limits),
            fault: 0,
            copies: None,
        })
    }

    /// Takes octets, and answers how many.
    pub fn feed(&mut self, octets: &[u8]) -> Result<u64, Refusal>
        ensures { OnFeed octets.now self.old self.new result }
    {
        self.copies = None;
        match self.assembler.feed(octets) {
            Ok(taken) => Ok(taken as u64),
            Err(fault) => {
                if self.fault == 0 {
                    self.fault = number_of_fault(&fault);
                }
                Err(Refusal::Stream)
            }
        }
    }

    /// The first fault of the stream, as a number.
    pub fn fault(&self) -> u64
        ensures { OnFault self.now self.now (Ok result) }
    {
        self.fault
    }

    /// Says what the message is that the last feed completed.
    pub fn message(&self, room: &mut [u8]) -> u64
        ensures told { OnMessage room.old room.new self.now self.now (Ok result) }
        ensures none { result ≡ 0 → room.new ≡ room.old }
    {
        let Some(message) = self.assembler.message() else {
            return 0;
        };
        let mut head = head_of(&message);
        head.contexts = count_of_contexts(message.content);
        head.tell(room);
        1
    }

    /// Copies a part of that message.
    pub fn part(&self, part: u32, room: &mut [u8]) -> Result<u64, Refusal>
        ensures copied { OnPart part room.old room.new self.now self.now result }
        ensures refused { OnErr result (room.new ≡ room.old) }
    {
        let message = self.assembler.message().ok_or(Refusal::None)?;
        let octets = part_of(&message.content, part).ok_or(Refusal::None)?;
        Ok(copied(octets, room))
    }

    /// Copies the service contexts of that message, where there are some and memory for that.
    fn keep(&mut self)
        ensures { self.new ≡ self.old }
    {
        let Some(message) = self.assembler.message() else {
            return;
        };
        let Some(contexts) = contexts_of(message.content) else {
            return;
        };
        let Ok(copies) = copies_of(self.alloc, contexts) else {
            return;
        };
        self.copies = Some(copies);
    }

    /// A service context of that message.
    fn at(&self, index: u32) -> Option<(u32, &[u8])>
        ensures { option_map item_at result ≡ option_and_then (context_in index) (said self.now) }
    {
        if let Some(copies) = &self.copies {
            let (id, data) = copies.get(index as usize)?;
            return Some((*id, data.as_slice()));
        }
        let message = self.assembler.message()?;
        context_of(message.content, index)
    }

    /// Copies a service context of that message, and gives its id.
    pub fn context(&mut self, index: u32, id: &mut u32, room: &mut [u8]) -> Result<u64, Refusal>
        ensures copied { OnContext index id.old id.new room.old room.new self.old self.new result }
        ensures refused { OnErr result ((id.new ≡ id.old) × (room.new ≡ room.old)) }
    {
        if index > 0 && self.copies.is_none() {
            self.keep();
        }
        let (found, data) = self.at(index).ok_or(Refusal::None)?;
        *id = found;
        Ok(copied(data, room))
    }
}
