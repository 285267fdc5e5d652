//! What all writers share: the beginning and the end of a message, and which parts are too long.

ghost use Rattle.std.specs.Prelude.{◌≡◌, ◌≤◌, ◌+◌, ◌++◌, length, drop, take, replicate, MatchResult, OnErr, OnOk};
ghost use Rattle.cdr_core.specs.Private.{Keeps};
ghost use Rattle.cdr_core.specs.Spelling.{IsClean};
ghost use Rattle.cdr_core.specs.Value as value;
ghost use Rattle.cdr_core.specs.View.{values_of};
ghost use Rattle.cdr_core.specs.Writing.{place_in, AreWritable};
ghost use Rattle.giop_core.specs.Private.{Adds, Checks};
ghost use Rattle.giop_core.specs.Written.{aligned_octets, body_octets, with_body};

use crate::error::WriteError;
use crate::header::{Header, MessageKind, Version};
use cdr_core::{Order, Val, Writer};
use std::alloc::AllocError;

/// Octets reserved for a message, so that a short one grows the output once.
const SHORT: usize = 64;

/// The greatest length that an unsigned long can count.
pub(crate) const LONGEST: usize = 0xffff_ffff;

/// That octets are short enough for a sequence.
#[tactic(auto, using(crate::proofs::Longs::octets_long))]
pub(crate) fn check_octets(octets: &[u8]) -> Result<(), WriteError>
    ensures { Checks (value.octets octets.now) result }
{
    if octets.len() > LONGEST {
        return Err(WriteError::TooLong);
    }
    Ok(())
}

/// That a text is short enough for a string, whose length counts the NUL after it.
#[tactic(auto, using(crate::proofs::Longs::text_long))]
pub(crate) fn check_text(text: &[u8]) -> Result<(), WriteError>
    requires { IsClean text.now }
    ensures { Checks (value.string text.now) result }
{
    if text.len() >= LONGEST {
        return Err(WriteError::TooLong);
    }
    Ok(())
}

/// Begins a message: appends zeros in place of its header, and makes a writer of what follows.
pub(crate) fn begin(order: Order, out: &mut Vec<u8>) -> Result<Writer, AllocError>
    ensures { MatchResult result
        (λ w. (out.new.items ≡ out.old.items ++ replicate 12 0) × (w ≡ record { order = order; at = 12; start = length out.new.items }))
        (λ _. out.new.items ≡ out.old.items) }
{
    out.reserve(SHORT)?;
    out.extend_from_slice(&[0; Header::LEN])?;
    Ok(Writer::new(order, Header::LEN as u64, out))
}

/// What came of appending octets from `start` on: where that failed they are cut back.
#[inline(always)]
pub(crate) fn cut_back<E: Drop>(
    appended: Result<(), E>,
    start: usize,
    out: &mut Vec<u8>,
) -> Result<(), E>
    ensures same { result ≡ appended }
    ensures ok { OnOk result (out.new.items ≡ out.old.items) }
    ensures err { OnErr result (out.new.items ≡ take start out.old.items) }
{
    if appended.is_err() {
        out.truncate(start);
    }
    appended
}

/// Appends a body of a Request or Reply of 1.2. Padding stands before its octets alone.
fn put_aligned(writer: &Writer, body: &[Val], out: &mut Vec<u8>) -> Result<(), AllocError>
    requires start { writer.now.start ≤ length out.old.items }
    requires writable { AreWritable (values_of body.now) }
    ensures { MatchResult result
        (λ _. out.new.items ≡ out.old.items ++ aligned_octets writer.now.order (values_of body.now) (place_in writer.now out.old.items))
        (λ _. Keeps out.old.items out.new.items) }
{
    let before = out.len();
    writer.align(8, out)?;
    let aligned = out.len();
    writer.values(body, out)?;
    if out.len() == aligned {
        out.truncate(before);
    }
    Ok(())
}

/// Appends a body.
fn put_body(
    version: Version,
    kind: MessageKind,
    writer: &Writer,
    body: &[Val],
    out: &mut Vec<u8>,
) -> Result<(), AllocError>
    requires start { writer.now.start ≤ length out.old.items }
    requires writable { AreWritable (values_of body.now) }
    ensures { MatchResult result
        (λ _. out.new.items ≡ out.old.items ++ body_octets version kind writer.now.order (values_of body.now) (place_in writer.now out.old.items))
        (λ _. Keeps out.old.items out.new.items) }
{
    match (version, kind) {
        (Version::V12, MessageKind::Request | MessageKind::Reply) => put_aligned(writer, body, out),
        _ => writer.values(body, out),
    }
}

/// Writes the header over the zeros in its place, which begin at `start`.
pub(crate) fn put_header(
    version: Version,
    kind: MessageKind,
    order: Order,
    start: usize,
    out: &mut Vec<u8>,
) -> Result<(), WriteError>
    requires { start + 12 ≤ length out.old.items }
    ensures { Adds version kind order (drop (start + 12) out.old.items) result (take start out.old.items) out.new.items }
{
    let Ok(size) = u32::try_from(out.len() - start - Header::LEN) else {
        return Err(WriteError::TooLong);
    };
    let header = Header {
        version,
        order,
        more: false,
        kind,
        size,
    };
    out[start..start + Header::LEN].copy_from_slice(&header.octets());
    Ok(())
}

/// Appends the body after the fields of a message that begins at `start`, and writes its header.
pub(crate) fn finish(
    version: Version,
    kind: MessageKind,
    start: usize,
    order: Order,
    writer: &Writer,
    body: &[Val],
    out: &mut Vec<u8>,
) -> Result<(), WriteError>
    requires header { start + 12 ≤ length out.old.items }
    requires is { writer.now ≡ record { order = order; at = 12; start = start + 12 } }
    requires writable { AreWritable (values_of body.now) }
    ensures { Adds version kind order (with_body version kind order (values_of body.now) (drop (start + 12) out.old.items)) result (take start out.old.items) out.new.items }
{
    put_body(version, kind, writer, body, out)?;
    put_header(version, kind, order, start, out)
}
