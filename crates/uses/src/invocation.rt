//! Write a request: with an FT_REQUEST context, and cut into fragments.

ghost use Rattle.std.specs.Prelude.{◌≡◌, ◌≤◌, ◌%◌, take, true, false, Ok, IfOk};
ghost use Rattle.cdr_core.specs.Spelling.{IsClean};
ghost use Rattle.giop_core.specs.declared.header.Header.{Header as GivenHeader};
ghost use Rattle.giop_core.specs.Headers.{header_of};
ghost use Rattle.giop_frames.specs.Cutting.{cut_octets, is_cuttable};
ghost use Rattle.uses.specs.Invocation.{add_octets};

use cdr_core::{Order, Val};
use giop_core::{FT_REQUEST, ReplyWish, Target, Version, WriteError, write_ft, write_request};
use giop_frames::{fragments, is_cuttable};
use std::alloc::{AllocError, Global};

/// What names a request over all its transmissions, and until when it may be sent again, in units of
/// 100 ns since 15 October 1582. The client's id has no NUL.
#[derive(Clone, Copy, Debug)]
pub struct Retry<'a> {
    pub client_id: &'a [u8],
    pub retention_id: i32,
    pub expiration: u64,
}

/// A Request of 1.2 for `long add(in long amount)` at the object of a key.
pub fn add_request(
    alloc: Global,
    request_id: u32,
    object_key: &[u8],
    amount: i32,
    retry: &Retry,
) -> Result<Vec<u8>, WriteError>
    requires { IsClean retry.now.client_id.now }
    ensures { IfOk result (λ message. message.items ≡ add_octets request_id object_key.now amount retry.now) }
{
    let mut context = Vec::new(alloc);
    write_ft(
        Order::Big,
        retry.client_id,
        retry.retention_id,
        retry.expiration,
        &mut context,
    )?;
    let mut out = Vec::new(alloc);
    write_request(
        Version::V12,
        Order::Big,
        request_id,
        ReplyWish::Full,
        &Target::Key(object_key),
        b"add",
        &[(FT_REQUEST, context.as_slice())],
        &[Val::Long(amount)],
        &mut out,
    )?;
    Ok(out)
}

/// A message in frames of at most `frame` octets. A message that cannot be cut, as one of 1.0, stays
/// whole.
pub fn cut(alloc: Global, message: &[u8], frame: u32) -> Result<Vec<u8>, AllocError>
    requires least { 24 ≤ frame }
    requires aligned { frame % 8 ≡ 0 }
    ensures whole { is_cuttable message.now ≡ false → IfOk result (λ out. out.items ≡ message.now) }
    ensures cut { (h : GivenHeader) → is_cuttable message.now ≡ true → header_of (take 12 message.now) ≡ Ok h → IfOk result (λ out. out.items ≡ cut_octets frame h message.now) }
{
    if !is_cuttable(message) {
        return Vec::from_slice(alloc, message);
    }
    let mut out = Vec::new(alloc);
    fragments(message, frame, &mut out)?;
    Ok(out)
}
