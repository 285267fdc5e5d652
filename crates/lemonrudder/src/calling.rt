//! A client, with the octets that are due on its connection, and the completion that was taken last.

ghost use Rattle.std.specs.Prelude.{◌≡◌, option_map};
ghost use Rattle.ft_client.specs.Ends.{body_of, ended_of};
ghost use Rattle.lemonrudder.specs.Calls.{head_of, head_with, how_ended, told};

mod asking;
mod raw;
mod setting;

use crate::due::Due;
use crate::layout::Layout;
use crate::named::{limits_of, number_of_call, number_of_order};
use crate::refusal::{Refusal, copied, count_of};
use cdr_core::has_no_nul;
use ft_client::{Ended, FtClient, ReplyBody};
use giop_core::Version;
use giop_frames::Cuts;
pub use raw::RawQuestion;
use std::alloc::Global;

/// How many octets a message may have that comes, where nothing is set.
const MESSAGE: u32 = 1_048_576;

/// How many messages may be partial at a time, where nothing is set.
const PARTIALS: u32 = 4;

/// A call that ended: `lr_completion`.
#[derive(Clone, Copy, Debug, Drop)]
pub struct CompletionHead {
    pub body_size: u64,
    pub body_at: u64,
    pub call: i32,
    pub how: u32,
    pub body_order: u32,
    pub reserved: u32,
}

impl CompletionHead {
    ghost use Rattle.lemonrudder.specs.Layouts.{laid, octets_of_completion};

    /// Fills a room: with the octets of the struct, as many as it has, and with zeros behind.
    fn tell(&self, room: &mut [u8])
        ensures { room.new ≡ laid (octets_of_completion self.now) room.old }
    {
        let mut layout = Layout::new();
        layout.put_u64(self.body_size);
        layout.put_u64(self.body_at);
        layout.put_i32(self.call);
        layout.put_u32(self.how);
        layout.put_u32(self.body_order);
        layout.put_u32(self.reserved);
        layout.fill(room);
    }
}

/// What a call asks.
#[derive(Clone, Copy)]
pub struct Question<'q> {
    pub key: &'q [u8],
    pub operation: &'q [u8],
    pub types: &'q [u8],
    pub order: u32,
    pub arguments: &'q [u8],
}

/// A client, and what is due on its connection.
#[derive(Drop)]
pub struct Calling {
    client: FtClient,
    alloc: Global,
    due: Due,
    ended: Option<Ended>,
}

/// How a call ended, as a number, and the body of its reply, if one came.
fn of_ended(ended: &Ended) -> (u32, Option<&ReplyBody>)
    ensures how { result.0 ≡ how_ended (ended_of ended.now) }
    ensures body { option_map (λ body. body_of body.now) result.1 ≡ told (ended_of ended.now) }
{
    match ended {
        Ended::Returned(body) => (0, Some(body)),
        Ended::Raised(body) => (1, Some(body)),
        Ended::System(body) => (2, Some(body)),
        Ended::Forwarded(body) => (3, Some(body)),
        Ended::NeedsAddressing => (4, None),
        Ended::Expired => (5, None),
        Ended::Cancelled => (6, None),
        Ended::Sent => (7, None),
    }
}

/// What is said of a call that ended so. Where no reply came, the numbers of its body are 0.
fn head_with(call: i32, how: u32, body: Option<&ReplyBody>) -> CompletionHead
    ensures { result ≡ head_with call how (option_map (λ b. body_of b.now) body.entry) }
{
    let (body_size, body_at, body_order) = match body {
        Some(body) => (count_of(&body.octets), body.at, number_of_order(body.order)),
        None => (0, 0, 0),
    };
    CompletionHead {
        body_size,
        body_at,
        call,
        how,
        body_order,
        reserved: 0,
    }
}

/// What is said of a call that ended.
fn head_of(call: i32, ended: &Ended) -> CompletionHead
    ensures { result ≡ head_of call (ended_of ended.now) }
{
    let (how, body) = of_ended(ended);
    head_with(call, how, body)
}

impl Calling {
    ghost use Rattle.std.specs.Prelude.{◌≡◌, Ok, false, is_some};
    ghost use Rattle.lemonrudder.specs.Calls.{IsMade, OnBody, OnCancel, OnCompleted, OnConnected, OnFeed, OnIsConnected, OnLost, OnOutput, OnTick};
    ghost use Rattle.lemonrudder.specs.Resuming.{OnResend, OnSkip};

    /// A client that is not connected.
    pub fn new(alloc: Global, id: &[u8]) -> Result<Calling, Refusal>
        ensures { IsMade id.now result }
    {
        let limits = limits_of(MESSAGE, PARTIALS, Cuts::Aligned)?;
        if id.is_empty() || id.len() > 256 || !has_no_nul(id) {
            return Err(Refusal::Text);
        }
        Ok(Calling {
            client: FtClient::new(alloc, id, Version::V12, limits)?,
            alloc,
            due: Due::new(Vec::new(alloc)),
            ended: None,
        })
    }

    /// The client is connected anew.
    pub fn connected(&mut self, now: u64) -> Result<u64, Refusal>
        ensures { OnConnected now self.old self.new result }
    {
        self.lost();
        match self.client.connected(now, &mut self.due.octets) {
            Ok(()) => Ok(0),
            Err(_) => Err(Refusal::Lost),
        }
    }

    /// The connection is lost.
    pub fn lost(&mut self) -> u64
        ensures lost { OnLost self.old self.new (Ok result) }
        ensures link { is_some self.new.client.link ≡ false }
    {
        self.client.lost();
        self.due.drop_all();
        0
    }

    /// Whether the client is connected.
    pub fn is_connected(&self) -> u64
        ensures { OnIsConnected self.now self.now (Ok result) }
    {
        u64::from(self.client.is_connected())
    }

    /// Numbers up to this one were given to calls of before.
    pub fn skip_to(&mut self, call: i64) -> Result<u64, Refusal>
        ensures { OnSkip call self.old self.new result }
    {
        let number = number_of_call(call)?;
        self.client.skip_to(number);
        Ok(0)
    }

    /// Sends what is pending and was not sent on this connection.
    pub fn resend(&mut self, now: u64) -> Result<u64, Refusal>
        ensures { OnResend now self.old self.new result }
    {
        match self.client.resend(now, &mut self.due.octets) {
            Ok(()) => Ok(0),
            Err(_) => Err(Refusal::Lost),
        }
    }

    /// Cancels a call.
    pub fn cancel(&mut self, call: i64) -> Result<u64, Refusal>
        ensures { OnCancel call self.old self.new result }
    {
        match i32::try_from(call) {
            Ok(call) => Ok(u64::from(self.client.cancel(call, &mut self.due.octets)?)),
            Err(_) => Err(Refusal::Range),
        }
    }

    /// A moment has come.
    pub fn tick(&mut self, now: u64) -> u64
        ensures { OnTick now self.old self.new (Ok result) }
    {
        self.client.tick(now);
        0
    }

    /// Takes octets that came on the connection.
    pub fn feed(&mut self, octets: &[u8]) -> Result<u64, Refusal>
        ensures { OnFeed octets.now self.old self.new result }
    {
        match self.client.feed(octets) {
            Ok(()) => Ok(count_of(octets)),
            Err(_) => Err(Refusal::Lost),
        }
    }

    /// Takes the next completion.
    pub fn completed(&mut self, room: &mut [u8]) -> u64
        ensures taken { OnCompleted room.old room.new self.old self.new (Ok result) }
        ensures none { result ≡ 0 → room.new ≡ room.old }
    {
        let Some((call, ended)) = self.client.take_completion() else {
            return 0;
        };
        head_of(call, &ended).tell(room);
        self.ended = Some(ended);
        1
    }

    /// Copies the body of the completion that was taken last.
    pub fn body(&self, room: &mut [u8]) -> Result<u64, Refusal>
        ensures { OnBody room.old room.new self.now self.now result }
    {
        let Some(ended) = &self.ended else {
            return Err(Refusal::None);
        };
        let (_, body) = of_ended(ended);
        match body {
            Some(body) => Ok(copied(&body.octets, room)),
            None => Err(Refusal::None),
        }
    }

    /// Moves octets that are due into a room.
    pub fn output(&mut self, room: &mut [u8]) -> u64
        ensures { OnOutput room.old room.new self.old self.new (Ok result) }
    {
        self.due.output(room)
    }
}
