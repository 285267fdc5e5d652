//! The calls of a client that sends its calls again.

ghost use Rattle.std.specs.Prelude.{◌≡◌, ◌++◌};

use crate::call_samples::{ADD, TRANSIENT};
use crate::limits::LEAST;
use crate::misses::{call_miss, raw_recall_miss, recall_miss};
use cdr_core::{Order, Val};
use ft_client::{Ended, FtClient, RawCall};
use giop_core::{Body, ReplyWish, Version};
use std::alloc::{AllocError, Global};
use trials::{Miss, Output, Room, Sample, Trial, Wrong, check_printed};

/// What a client does.
#[derive(Clone, Copy)]
pub enum Act {
    /// It calls where it has no connection: nothing is written.
    CallUnconnected,
    /// It calls.
    Call,
    /// It takes its call 1 up again.
    Recall,
    /// It takes its call 1 up again, as octets.
    RecallRaw,
    /// It is connected, once it called twice.
    Connect,
    /// It sends its call again, which TRANSIENT left pending.
    Resend,
    /// It cancels a call that it sent.
    Cancel,
    /// It loses its connection, learns of a moment past the expiration of a call, and gives the completion.
    Rest,
}

/// Calls `add` of 7 at the key `c` until the moment 100.
fn call_add(client: &mut FtClient, out: &mut Vec<u8>) -> Result<i32, Miss> {
    client
        .call(50, b"c", b"add", &[Val::Long(7)], 100, out)
        .map_err(call_miss)
}

/// The same call as octets.
const RAW_ADD: RawCall<'static> = RawCall {
    object_key: b"c",
    operation: b"add",
    contexts: &[],
    body: Body {
        order: Order::Big,
        at: 24,
        octets: b"\x00\x00\x00\x07",
    },
    wish: ReplyWish::Full,
    version: Version::V12,
    expiration: 100,
};

/// Connects a client where it has no connection.
fn connect(client: &mut FtClient, out: &mut Vec<u8>) -> Result<(), AllocError> {
    if client.is_connected() {
        return Ok(());
    }
    client.connected(50, out)
}

/// Connects a client whose call is pending, and TRANSIENT answers it.
fn put_off(alloc: Global, client: &mut FtClient) -> Result<(), AllocError> {
    connect(client, &mut Vec::new(alloc))?;
    client.feed(TRANSIENT)
}

/// A client `A` of messages of 1.2.
fn new_client(alloc: Global) -> Result<FtClient, AllocError> {
    FtClient::new(alloc, b"A", Version::V12, LEAST)
}

/// A client that does something. It writes the octets of a sample.
#[derive(Drop)]
pub struct Calling {
    act: Act,
    sample: &'static Sample,
    client: FtClient,
    output: Output,
}

impl Calling {
    /// The inputs.
    pub(crate) fn new(
        alloc: Global,
        sample: &'static Sample,
        act: Act,
        room: Room,
    ) -> Result<Calling, Miss> {
        let mut client = new_client(alloc)?;
        let mut out = Vec::new(alloc);
        if !matches!(act, Act::CallUnconnected | Act::Connect | Act::Resend) {
            connect(&mut client, &mut out)?;
        }
        if matches!(act, Act::Connect | Act::Resend | Act::Cancel | Act::Rest) {
            call_add(&mut client, &mut out)?;
        }
        if matches!(act, Act::Connect) {
            call_add(&mut client, &mut out)?;
        }
        if matches!(act, Act::Resend) {
            client.keep_on_transient(true);
            put_off(alloc, &mut client)?;
        }
        Ok(Calling {
            act,
            sample,
            client,
            output: Output::new(alloc, room)?,
        })
    }

    /// Does it. Whether what it gives is right.
    fn do_it(&mut self, alloc: Global) -> Result<bool, Miss> {
        let client = &mut self.client;
        let out = &mut self.output.out;
        match self.act {
            Act::CallUnconnected | Act::Call => Ok(call_add(client, out)? == 1),
            Act::Recall => {
                let seven = [Val::Long(7)];
                let again = client.recall(1, 50, b"c", b"add", &seven, 100, out);
                Ok(again.map_err(recall_miss).map(|()| true)?)
            }
            Act::RecallRaw => {
                let again = client.recall_raw(1, 50, &RAW_ADD, out);
                Ok(again.map_err(raw_recall_miss).map(|()| true)?)
            }
            Act::Connect => {
                connect(client, out)?;
                Ok(client.is_connected())
            }
            Act::Resend => {
                if !client.is_connected() {
                    put_off(alloc, client)?;
                }
                client.resend(50, out)?;
                Ok(client.take_completion().is_none())
            }
            Act::Cancel => {
                let was = client.cancel(1, out)?;
                Ok(was && matches!(client.take_completion(), Some((1, Ended::Cancelled))))
            }
            Act::Rest => {
                client.lost();
                client.tick(101);
                Ok(matches!(client.take_completion(), Some((1, Ended::Expired))))
            }
        }
    }
}

impl Trial for Calling {
    // The sample's octets stand after those from before.
    ghost is_right = { λ c. c.output.out.items ≡ c.output.before.now ++ c.sample.now.octets.now };

    fn call(&mut self, alloc: Global) -> Result<(), Miss> {
        if !self.do_it(alloc)? {
            return Err(Wrong::Value.into());
        }
        if !self.output.has_gained(self.sample.octets) {
            return Err(Wrong::Octets.into());
        }
        Ok(())
    }

    /// Nothing is written, and the client is connected where it was.
    fn is_unchanged(&self) -> bool {
        let was = matches!(
            self.act,
            Act::Call | Act::Recall | Act::RecallRaw | Act::Cancel
        );
        self.client.is_connected() == was && self.output.has_gained(&[])
    }
}

/// A client that calls `add` of 7, and is fed the octets of a sample in pieces of `size` octets.
#[derive(Drop)]
pub struct Completing {
    sample: &'static Sample,
    size: usize,
    client: FtClient,
    /// How the call was completed, if it was.
    completed: Option<(i32, Ended)>,
    /// Whether a failed allocation left the client without a connection.
    is_cut_well: bool,
}

/// Feeds octets in pieces of at most `size` octets.
fn feed_octets(client: &mut FtClient, octets: &[u8], size: usize) -> Result<(), AllocError> {
    for piece in octets.chunks(size.max(1)) {
        client.feed(piece)?;
    }
    Ok(())
}

impl Completing {
    /// A client that has made the call.
    pub(crate) fn new(
        alloc: Global,
        sample: &'static Sample,
        size: usize,
    ) -> Result<Completing, Miss> {
        let mut client = new_client(alloc)?;
        call_add(&mut client, &mut Vec::new(alloc))?;
        Ok(Completing {
            sample,
            size,
            client,
            completed: None,
            is_cut_well: true,
        })
    }

    /// Takes a completion, if there is one. Whether there is no second one.
    fn complete(&mut self) -> bool {
        if let Some(completion) = self.client.take_completion() {
            if self.completed.is_some() {
                return false;
            }
            self.completed = Some(completion);
        }
        self.client.take_completion().is_none()
    }
}

impl Trial for Completing {
    /// The call is sent on a new connection, unless it was completed, and the octets come.
    fn call(&mut self, alloc: Global) -> Result<(), Miss> {
        let mut out = Vec::new(alloc);
        connect(&mut self.client, &mut out)?;
        let sent: &[u8] = if self.completed.is_none() { ADD } else { &[] };
        if out.as_slice() != sent {
            return Err(Wrong::Octets.into());
        }
        let fed = feed_octets(&mut self.client, self.sample.octets, self.size);
        let is_once = self.complete();
        if fed.is_err() {
            self.is_cut_well = is_once && !self.client.is_connected();
        }
        fed?;
        if !is_once {
            return Err(Wrong::Value.into());
        }
        Ok(check_printed(self.sample, &self.completed)?)
    }

    /// What is promised after an allocation was refused: the client is not connected, and its call was not completed
    /// twice.
    fn is_unchanged(&self) -> bool {
        self.is_cut_well && !self.client.is_connected()
    }
}
