//! What is between a client and the server, and the steps that touch it.

ghost use Rattle.std.specs.Prelude.{◌≡◌, ◌+◌, ◌<◌, ◌≤◌, ℕ, ℤ, List, [], ◌∷◌, Option, Some, None, IfOk, OnErr, OnOk, map, false, is_some, length, suc, take, true};
ghost use Rattle.cdr_core.specs.Spelling.{IsClean};
ghost use Rattle.cdr_core.specs.View.{values_of};
ghost use Rattle.cdr_core.specs.Writing.{AreWritable};
ghost use Rattle.ft_client.specs.declared.error.CallError.TheVariants.{Memory};
ghost use Rattle.ft_client.specs.Calling.{IsCallError};
ghost use Rattle.ft_client.specs.Clients.{Called, Client, Joined, Parted, Recalled, Resent, Resumed, after, made, says};
ghost use Rattle.ft_client.specs.Standing.{FtStands, down};
ghost use Rattle.ft_orb.specs.ExactlyOnce.{OneExpiration};
ghost use Rattle.ft_orb.specs.History as history;
ghost use Rattle.ft_orb.specs.History.{arrivals};
ghost use Rattle.ft_orb.specs.Outputs.{Made};
ghost use Rattle.ft_orb.specs.Standing.{Stands};
ghost use Rattle.ft_ends.specs.Laws.{sides_of};
ghost use Rattle.ft_ends.specs.Playing.{call_as};
ghost use Rattle.ft_ends.specs.Private.{Holds, IsUnused, IsWire, IsWireFor, noted, numbered_call, tells};
ghost use Rattle.ft_orb.specs.Tellings.{Telling};
ghost use Rattle.ft_ends.specs.World as world;
ghost use Rattle.ft_ends.specs.World.{Member, coming_down, extended, fed_with, going_up};

use crate::outcomes::{after_call, after_opening, after_recall, after_serving};
use crate::steps::Call;
use crate::way::Way;
use ft_client::FtClient;
use ft_objects::Servant;
use ft_orb::Server;
use std::alloc::{AllocError, Global};

/// The number of a client's connection, if there is one, and the octets that are on their way up and down.
#[derive(Drop)]
pub(crate) struct Wire {
    pub number: Option<u64>,
    pub up: Way,
    pub down: Way,
}

impl Wire {
    /// No connection.
    pub(crate) fn new(alloc: Global) -> Wire
        ensures { IsUnused result }
    {
        Wire {
            number: None,
            up: Way::new(alloc),
            down: Way::new(alloc),
        }
    }

    /// The connection is gone, and with it what was on its way.
    fn leave(&mut self)
        ensures { IsUnused self.new }
    {
        self.number = None;
        self.up.clear();
        self.down.clear();
    }
}

/// A client calls: the number of its call. One that is refused does nothing, and is no error.
pub(crate) fn called(
    client: &mut FtClient,
    wire: &mut Wire,
    now: u64,
    call: &Call,
) -> Result<Option<i32>, AllocError>
    requires clean { IsClean call.now.operation.items }
    requires writable { AreWritable (values_of call.now.arguments.items) }
    ensures ok { OnOk result ((tells : ℕ → List Telling) (c : Client) (o : Option world.Wire) → FtStands client.old c → is_some c.link ≡ is_some o → IsWireFor tells wire.old o
        → FtStands client.new (after (down c.limits) (Called now (call_as call.now)) c) × IsWireFor tells wire.new (extended (says (Called now (call_as call.now)) c) o)) }
    ensures number { IfOk result (λ number. (c : Client) → FtStands client.old c → noted number (call_as call.now) ≡ map numbered_call (made (Called now (call_as call.now)) c)) }
    ensures err { OnErr result ((c : Client) → FtStands client.old c → IsCallError now (call_as call.now) c Memory) }
{
    after_call(client.call(
        now,
        &call.object_key,
        &call.operation,
        &call.arguments,
        call.expiration,
        &mut wire.up.octets,
    ))
}

/// A client takes a call of before up again: its number. One that is refused does nothing, and is no error.
pub(crate) fn recalled(
    client: &mut FtClient,
    wire: &mut Wire,
    number: u32,
    now: u64,
    call: &Call,
) -> Result<Option<i32>, AllocError>
    requires clean { IsClean call.now.operation.items }
    requires writable { AreWritable (values_of call.now.arguments.items) }
    ensures ok { OnOk result ((tells : ℕ → List Telling) (c : Client) (o : Option world.Wire) → FtStands client.old c → is_some c.link ≡ is_some o → IsWireFor tells wire.old o
        → FtStands client.new (after (down c.limits) (Resumed now number (call_as call.now)) c) × IsWireFor tells wire.new (extended (says (Resumed now number (call_as call.now)) c) o)) }
    ensures number { IfOk result (λ given. (c : Client) → FtStands client.old c → noted given (call_as call.now) ≡ map numbered_call (made (Resumed now number (call_as call.now)) c)) }
{
    let outcome = client.recall(
        number,
        now,
        &call.object_key,
        &call.operation,
        &call.arguments,
        call.expiration,
        &mut wire.up.octets,
    );
    let is_taken = after_recall(outcome)?;
    if !is_taken {
        return Ok(None);
    }
    Ok(i32::try_from(number).ok())
}

/// A client cancels a call.
pub(crate) fn cancelled(client: &mut FtClient, wire: &mut Wire, id: i32) -> Result<(), AllocError>
    ensures { OnOk result ((tells : ℕ → List Telling) (c : Client) (o : Option world.Wire) → FtStands client.old c → is_some c.link ≡ is_some o → IsWireFor tells wire.old o
        → FtStands client.new (after (down c.limits) (Recalled id) c) × IsWireFor tells wire.new (extended (says (Recalled id) c) o)) }
{
    client.cancel(id, &mut wire.up.octets)?;
    Ok(())
}

/// A client sends what is due on its connection.
pub(crate) fn resent(client: &mut FtClient, wire: &mut Wire, now: u64) -> Result<(), AllocError>
    ensures { OnOk result ((tells : ℕ → List Telling) (c : Client) (o : Option world.Wire) → FtStands client.old c → is_some c.link ≡ is_some o → IsWireFor tells wire.old o
        → FtStands client.new (after (down c.limits) (Resent now) c) × IsWireFor tells wire.new (extended (says (Resent now) c) o)) }
{
    client.resend(now, &mut wire.up.octets)?;
    Ok(())
}

/// A client connects, if it is not connected. Connections have the numbers 1, 2, .. in order of opening.
pub(crate) fn connected<S: Servant + Drop>(
    server: &mut Server<S>,
    opened: &mut u64,
    client: &mut FtClient,
    wire: &mut Wire,
    now: u64,
) -> Result<(), AllocError>
    requires { opened.old < 18446744073709551615 }
    ensures joined { OnOk result ((made : Made S) (past : List history.Event) (c : Client) → Stands S.meaning made server.old past → FtStands client.old c → is_some c.link ≡ false → IsUnused wire.old
        → tells S.meaning made past (suc opened.old) ≡ []
        → Stands S.meaning made server.new (history.Opened (suc opened.old) ∷ past)
        × FtStands client.new (after (down c.limits) (Joined now) c)
        × IsWire (tells S.meaning made (history.Opened (suc opened.old) ∷ past)) wire.new (record { number = suc opened.old; said = says (Joined now) c; went = 0; came = 0 })
        × (opened.new ≡ suc opened.old)) }
    ensures idle { OnOk result ((c : Client) → FtStands client.old c → is_some c.link ≡ true → (server.new ≡ server.old) × (opened.new ≡ opened.old) × (client.new ≡ client.old) × (wire.new ≡ wire.old)) }
    ensures opened { opened.new ≤ opened.old + 1 }
{
    if client.is_connected() {
        return Ok(());
    }
    let number = *opened + 1;
    after_opening(server.connect(number))?;
    client.connected(now, &mut wire.up.octets)?;
    wire.number = Some(number);
    *opened = number;
    Ok(())
}

/// The next octets that a client wrote come to the server, at most so many.
pub(crate) fn come_up<S: Servant + Drop>(
    server: &mut Server<S>,
    wire: &mut Wire,
    count: u32,
    now: u64,
) -> Result<(), AllocError>
    ensures fed { OnOk result ((made : Made S) (past : List history.Event) (x : world.Wire) → Stands S.meaning made server.old past → IsWire (tells S.meaning made past) wire.old x
        → OneExpiration (arrivals made.limits (history.Piece x.number now (take count (going_up (sides_of S.meaning made down) x)) ∷ past))
        → Stands S.meaning made server.new (history.Piece x.number now (take count (going_up (sides_of S.meaning made down) x)) ∷ past)
        × IsWire (tells S.meaning made (history.Piece x.number now (take count (going_up (sides_of S.meaning made down) x)) ∷ past)) wire.new (record x { went = x.went + length (take count (going_up (sides_of S.meaning made down) x)) })) }
    ensures idle { OnOk result (wire.old.number ≡ None → (server.new ≡ server.old) × (wire.new ≡ wire.old)) }
{
    crate::laws::tellings_are_written::<S>();
    let Some(number) = wire.number else {
        return Ok(());
    };
    let piece = wire.up.front(count);
    after_serving(server.feed(number, now, piece, &mut wire.down.octets))?;
    wire.up.pass(count);
    Ok(())
}

/// The server closes a connection.
pub(crate) fn closed<S: Servant + Drop>(
    server: &mut Server<S>,
    wire: &mut Wire,
) -> Result<(), AllocError>
    ensures shut { OnOk result ((made : Made S) (past : List history.Event) (x : world.Wire) → Stands S.meaning made server.old past → IsWire (tells S.meaning made past) wire.old x
        → Stands S.meaning made server.new (history.Close x.number ∷ past) × IsWire (tells S.meaning made (history.Close x.number ∷ past)) wire.new x) }
    ensures idle { OnOk result (wire.old.number ≡ None → (server.new ≡ server.old) × (wire.new ≡ wire.old)) }
{
    crate::laws::tellings_are_written::<S>();
    let Some(number) = wire.number else {
        return Ok(());
    };
    after_serving(server.close(number, &mut wire.down.octets))
}

/// A connection is cut.
pub(crate) fn cut<S: Servant + Drop>(server: &mut Server<S>, client: &mut FtClient, wire: &mut Wire)
    ensures cut { (made : Made S) (past : List history.Event) (c : Client) (x : world.Wire) → Stands S.meaning made server.old past → FtStands client.old c → IsWire (tells S.meaning made past) wire.old x
        → Stands S.meaning made server.new (history.Lost x.number ∷ past) × FtStands client.new (after (down c.limits) Parted c) × IsUnused wire.new }
    ensures idle { wire.old.number ≡ None → (server.new ≡ server.old) × (client.new ≡ client.old) × (wire.new ≡ wire.old) }
{
    let Some(number) = wire.number else {
        return;
    };
    server.lost(number);
    client.lost();
    wire.leave();
}

/// The next octets that the server wrote come to a client, at most so many. Where they end its connection, the
/// server loses it.
pub(crate) fn come_down<S: Servant + Drop>(
    server: &mut Server<S>,
    client: &mut FtClient,
    wire: &mut Wire,
    count: u32,
) -> Result<(), AllocError>
    ensures fed { OnOk result ((made : Made S) (past : List history.Event) (opened : ℕ) (m : Member) (x : world.Wire) → Stands S.meaning made server.old past → FtStands client.old m.life.client → IsWire (tells S.meaning made past) wire.old x
        → Holds S.meaning made server.new client.new wire.new (fed_with (sides_of S.meaning made down) past opened m.life x (take count (coming_down (sides_of S.meaning made down) past x)))) }
    ensures idle { OnOk result (wire.old.number ≡ None → (server.new ≡ server.old) × (client.new ≡ client.old) × (wire.new ≡ wire.old)) }
{
    let Some(number) = wire.number else {
        return Ok(());
    };
    client.feed(wire.down.front(count))?;
    if client.is_connected() {
        wire.down.pass(count);
    } else {
        server.lost(number);
        wire.leave();
    }
    Ok(())
}
