//! Read a capture: count its messages, and name the operations that it asks for.

ghost use Rattle.std.specs.Prelude.{◌≡◌, length, IfOk};
ghost use Rattle.giop_frames.specs.Streams.{messages_of};

use giop_core::{Content, Message};
use giop_frames::{Assembler, Limits, StreamFault};
use std::alloc::{AllocError, Global};

/// What one direction of a connection carried.
#[derive(Debug, Drop)]
pub struct Capture {
    pub messages: usize,
    /// The operations of the requests, in the order in which the requests complete.
    pub operations: Vec<Vec<u8>>,
}

/// Notes the operation of a message, if it is a request.
fn note(alloc: Global, message: &Message, operations: &mut Vec<Vec<u8>>) -> Result<(), AllocError> {
    if let Content::Request(request) = &message.content {
        operations.push(Vec::from_slice(alloc, request.operation)?)?;
    }
    Ok(())
}

/// What a capture holds, fragments joined; or its first fault.
pub fn read_capture(alloc: Global, limits: Limits, octets: &[u8]) -> Result<Capture, StreamFault>
    ensures { IfOk result (λ c. c.messages ≡ length (messages_of limits octets.now)) }
{
    let mut assembler = Assembler::new(alloc, limits);
    let mut messages = 0;
    let mut operations = Vec::new(alloc);
    let mut taken = 0;
    while taken < octets.len() {
        taken += assembler.feed(&octets[taken..])?;
        if let Some(message) = assembler.message() {
            messages += 1;
            note(alloc, &message, &mut operations)?;
        }
    }
    Ok(Capture {
        messages,
        operations,
    })
}
