//! `write_ft` of the clients of samples.

ghost use Rattle.std.specs.Prelude.{◌≡◌, ◌++◌};

use crate::misses::message_miss;
use cdr_core::{Cursor, Fault, has_no_nul};
use giop_core::write_ft;
use std::alloc::Global;
use trials::{Miss, Output, Room, Sample, Trial, Wrong, check_printed};

/// What a context FT_REQUEST says: the client, its number for the request, and an expiration.
type Client = (&'static [u8], i32, u64);

/// What the octets of such a context say.
fn client_in(octets: &'static [u8]) -> Result<Client, Fault> {
    let mut cursor = Cursor::encapsulated(octets)?;
    let client_id = cursor.string()?;
    let retention_id = cursor.long()?;
    let expiration = cursor.ulonglong()?;
    Ok((client_id, retention_id, expiration))
}

/// `write_ft` of the client of a sample.
#[derive(Drop)]
pub struct ClientWriting {
    sample: &'static Sample,
    client: Client,
    output: Output,
}

impl ClientWriting {
    /// The inputs.
    pub(crate) fn new(
        alloc: Global,
        sample: &'static Sample,
        room: Room,
    ) -> Result<ClientWriting, Miss> {
        let client = client_in(sample.octets).map_err(|_| Wrong::Inputs)?;
        check_printed(sample, &client)?;
        Ok(ClientWriting {
            sample,
            client,
            output: Output::new(alloc, room)?,
        })
    }
}

impl Trial for ClientWriting {
    // The sample's octets stand after those from before.
    ghost is_right = { λ w. w.output.out.items ≡ w.output.before.now ++ w.sample.now.octets.now };

    fn call(&mut self, _alloc: Global) -> Result<(), Miss> {
        let sample = self.sample;
        let (client_id, retention_id, expiration) = self.client;
        if !has_no_nul(client_id) {
            return Err(Wrong::Inputs.into());
        }
        let out = &mut self.output.out;
        write_ft(sample.order, client_id, retention_id, expiration, out).map_err(message_miss)?;
        if !self.output.has_gained(sample.octets) {
            return Err(Wrong::Octets.into());
        }
        Ok(())
    }

    fn is_unchanged(&self) -> bool {
        self.output.has_gained(&[])
    }
}
