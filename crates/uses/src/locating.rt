//! Answer a LocateRequest.

ghost use Rattle.std.specs.Prelude.{◌≡◌, ◌⊎◌, IfOk, IsTrue, OnErr};

use giop_core::{Content, LocateStatus, Message, WriteError, write_locate_reply};

/// Appends the LocateReply to a LocateRequest: whether the object of its target is the one of this key.
/// False where the message is no LocateRequest; nothing is written then.
pub fn answer_locate(
    message: &Message,
    object_key: &[u8],
    out: &mut Vec<u8>,
) -> Result<bool, WriteError>
    ensures other { IfOk result (λ is_written. IsTrue is_written ⊎ (out.new.items ≡ out.old.items)) }
    ensures err { OnErr result (out.new.items ≡ out.old.items) }
{
    let Content::LocateRequest(request) = &message.content else {
        return Ok(false);
    };
    let status = if request.target.object_key() == Some(object_key) {
        LocateStatus::ObjectHere
    } else {
        LocateStatus::UnknownObject
    };
    write_locate_reply(
        message.version,
        message.order,
        request.request_id,
        status.number(),
        &[],
        out,
    )?;
    Ok(true)
}
