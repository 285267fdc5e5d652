//! Hand a call on: a gateway sends it as it came, with the code sets that go with its strings.

ghost use Rattle.std.specs.Prelude.{◌≡◌, ◌++◌, IfErr, IfOk, OnErr, OnOk, pos, suc};
ghost use Rattle.cdr_core.specs.Spelling.{IsClean};
ghost use Rattle.giop_core.specs.Lent.{rest_of};
ghost use Rattle.ft_client.specs.Calling.{IsRawCallError};
ghost use Rattle.ft_client.specs.Clients.{Called, Client, after, says};
ghost use Rattle.ft_client.specs.Directions.{stream};
ghost use Rattle.ft_client.specs.Messages.{octets_said};
ghost use Rattle.ft_client.specs.Standing.{FtStands, down};
ghost use Rattle.uses.specs.Handing.{handed_on};

use ft_client::{FtClient, RawCall, RawCallError};
use giop_core::{Body, ReplyWish, Version};

/// The id of the service context CodeSets (GIOP 9.8.1): in which code sets the strings of a request are written.
const CODE_SETS: u32 = 1;

/// How long a call that is handed on is sent again: 10 seconds, in units of 100 ns.
const PATIENCE: u64 = 100_000_000;

/// Sends a call as it came on a client's connection, and returns its number. Nothing reads its body.
pub fn hand_on(
    client: &mut FtClient,
    now: u64,
    object_key: &[u8],
    operation: &[u8],
    code_sets: &[u8],
    body: Body<'_>,
    out: &mut Vec<u8>,
) -> Result<i32, RawCallError>
    requires { IsClean operation.now }
    ensures number { IfOk result (λ id. (m : Client) → FtStands client.old m → id ≡ pos (suc m.last)) }
    ensures stands { OnOk result ((m : Client) → FtStands client.old m → FtStands client.new (after (down m.limits) (Called now (handed_on now object_key.now operation.now code_sets.now (rest_of body.entry))) m)) }
    ensures out { OnOk result ((m : Client) → FtStands client.old m → out.new.items ≡ out.old.items ++ stream octets_said (says (Called now (handed_on now object_key.now operation.now code_sets.now (rest_of body.entry))) m)) }
    ensures err { IfErr result (λ e. (m : Client) → FtStands client.old m → IsRawCallError now (handed_on now object_key.now operation.now code_sets.now (rest_of body.entry)) m e) }
    ensures same { OnErr result ((m : Client) → FtStands client.old m → FtStands client.new m) }
    ensures unwritten { OnErr result (out.new.items ≡ out.old.items) }
{
    let call = RawCall {
        object_key,
        operation,
        contexts: &[(CODE_SETS, code_sets)],
        body,
        wish: ReplyWish::Full,
        version: Version::V12,
        expiration: now.saturating_add(PATIENCE),
    };
    client.call_raw(now, &call, out)
}
