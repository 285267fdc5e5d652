//! A host of connections, and one of them as it is served over a wire.

ghost use Rattle.std.specs.Prelude.{◌≡◌, ◌<◌, ◌≤◌, [], ◌∷◌, ◌++◌, ℕ, true, not, List, None, IfErr, OnErr, OnOk, Option, Result, length};
ghost use Rattle.ft_log.specs.Holding.{Holding};
ghost use Rattle.ft_log.specs.Performed.{Performed};
ghost use Rattle.ft_log.specs.declared.system_exception.SystemName.{SystemName};
ghost use Rattle.giop_link.specs.Linking.{close_connection};
ghost use Rattle.ft_orb.specs.Answers.{Answer};
ghost use Rattle.ft_orb.specs.Engines.{Awaited};
ghost use Rattle.ft_orb.specs.Handovers.{AreFromWire, AreOn, octets_in};
ghost use Rattle.ft_orb.specs.History as history;
ghost use Rattle.ft_orb.specs.History.{line};
ghost use Rattle.ft_orb.specs.Outputs.{after, is_going};
ghost use Rattle.ft_orb.specs.Owners.{Owner};
ghost use Rattle.ft_orb.specs.Parking.{Settings, goes_on};
ghost use Rattle.ft_orb.specs.Requests.{Call};
ghost use Rattle.ft_orb.specs.Sessions.{AreSoFar, Attended, Attends, AttendsLate, EndsSo, GrowsBy, HasParted, HasRead, IsCut, IsEnded, IsGivenUp, IsServed, IsVisited, LeavesLate, LosesLate, PartsSo, ServesRead, ServesOf, StayParked, StayWaiting, TookAll, TookFront};
ghost use Rattle.ft_orb.specs.Wires.{Act, DidSo, HasCause, IsFarewell};
ghost use Rattle.ft_orb.specs.declared.events.Note.{Note};
ghost use Rattle.ft_orb.specs.declared.parked.Waiter.{Waiter};

use crate::wire::{Clock, StreamEnd, Wire, WireError};
use std::alloc::Global;

/// The most octets of one read.
const PIECE: usize = 4096;

/// What serves connections: a server, or an engine, whose owner `O` performs.
pub(crate) trait Host<O> {
    /// What it was made for.
    ghost World: { Type 0 };

    /// Who performs, as the owner of an engine.
    ghost as_owner: { World → Owner };

    /// The answers to what an event completes.
    ghost says: { World → List history.Event → history.Event → List (Result Performed SystemName) };

    /// That it stands for a past, where these calls are answered.
    ghost Holds: { World → List Call → Self → List history.Event → Type 0 };

    /// That it stays while requests are parked, where so much is known of calls, and these wait.
    ghost HoldsLate: { Settings → (ℕ → Holding) → List Call → Self → List history.Event → (ℕ → List Waiter) → Type 0 };

    /// That no request waits.
    ghost IsIdle: { Self → Type 0 };

    /// What is parked under a number.
    ghost parked_under: { Self → ℕ → Option Awaited };

    /// The outcome that is told of it.
    ghost told_under: { Self → ℕ → Option Performed };

    /// Who waits for it on connections that go on, other than one.
    ghost waiting_under: { Self → (connection : ℕ) → ℕ → List Waiter };

    /// What its owner has answered, if that is known.
    ghost answered: { O → Option (List Answer) };

    /// Feeds a piece to its end, and has what it asks for performed.
    fn feed_whole(
        &mut self,
        owner: &mut O,
        alloc: Global,
        connection: u64,
        moment: u64,
        piece: &[u8],
        out: &mut Vec<u8>,
    ) -> Result<(), StreamEnd>
        requires idle { IsIdle self.old }
        requires some { 0 < length piece.now }
        ensures idle { IsIdle self.new }
        ensures parked { StayParked parked_under told_under self.old self.new }
        ensures waiting { StayWaiting waiting_under connection self.old self.new }
        ensures late { AttendsLate HoldsLate connection (ServesOf connection piece.now result) (answered owner.old) (answered owner.new) self.old self.new }
        ensures cut { IfErr result IsCut }
        ensures table { Attends as_owner (answered owner.old) (answered owner.new) (λ w calls past. Holds w calls self.old past × (is_going (as_owner w).limits (line past connection) ≡ true))
            (λ w calls past. (note : Note) × IsEnded result note × EndsSo (as_owner w) (says w) past (Holds w calls self.new) (history.Piece connection moment piece.now) note out.old.items out.new.items) };

    /// Whether nothing that comes on a connection counts any more.
    fn has_ended(&self, connection: u64) -> bool
        ensures late { (s : Settings) (held : ℕ → Holding) (calls : List Call) (past : List history.Event) (waiting : ℕ → List Waiter) → HoldsLate s held calls self.now past waiting → result ≡ not (goes_on s.limits past connection) }
        ensures table { (w : World) (calls : List Call) (past : List history.Event) → Holds w calls self.now past → result ≡ not (is_going (as_owner w).limits (line past connection)) };

    /// Appends CloseConnection, and closes the connection; or says how that ended.
    fn part(&mut self, connection: u64, out: &mut Vec<u8>) -> Result<(), StreamEnd>
        requires idle { IsIdle self.old }
        ensures idle { IsIdle self.new }
        ensures parked { StayParked parked_under told_under self.old self.new }
        ensures waiting { StayWaiting waiting_under connection self.old self.new }
        ensures late { Attended HoldsLate connection (PartsSo connection result) [] self.old self.new }
        ensures cut { IfErr result IsCut }
        ensures table { (w : World) (calls : List Call) (past : List history.Event) → Holds w calls self.old past → is_going (as_owner w).limits (line past connection) ≡ true → (note : Note)
            × IsEnded result note
            × OnOk result (out.new.items ≡ out.old.items ++ close_connection)
            × Holds w calls self.new (after (as_owner w).limits past (history.Close connection) note) };

    /// Forgets a connection.
    fn forget(&mut self, connection: u64)
        requires idle { IsIdle self.old }
        ensures idle { IsIdle self.new }
        ensures parked { StayParked parked_under told_under self.old self.new }
        ensures waiting { StayWaiting waiting_under connection self.old self.new }
        ensures late { LosesLate HoldsLate connection self.old self.new }
        ensures table { (w : World) (calls : List Call) (past : List history.Event) → Holds w calls self.old past → Holds w calls self.new (history.Lost connection ∷ past) }
        // one that was closed, too
        ensures closed { (w : World) (calls : List Call) (past : List history.Event) (note : Note) → Holds w calls self.old (after (as_owner w).limits past (history.Close connection) note)
            → Holds w calls self.new (history.Lost connection ∷ past) };
}

/// Writes octets until the wire has taken them all.
fn write_all<W: Wire>(wire: &mut W, octets: &[u8]) -> Result<(), WireError>
    ensures ok { OnOk result (TookAll octets.now (W.traffic wire.old) (W.traffic wire.new)) }
    ensures err { OnErr result (TookFront octets.now (W.traffic wire.old) (W.traffic wire.new)) }
{
    let mut taken = 0;
    while taken < octets.len() {
        let (_, left) = octets.split_at(taken);
        let n = wire.write(left)?;
        if n == 0 {
            return Err(WireError);
        }
        taken += n;
    }
    Ok(())
}

/// Makes one read, and serves the piece that it gives. `None` where the connection goes on.
fn serve_piece<O, H: Host<O>, W: Wire, C: Clock>(
    alloc: Global,
    host: &mut H,
    owner: &mut O,
    connection: u64,
    wire: &mut W,
    clock: &mut C,
    room: &mut [u8],
    answers: &mut Vec<u8>,
) -> Option<StreamEnd>
    requires idle { H.IsIdle host.old }
    requires some { 0 < length room.old }
    requires small { length room.old ≤ 4096 }
    ensures idle { H.IsIdle host.new }
    ensures parked { StayParked H.parked_under H.told_under host.old host.new }
    ensures waiting { StayWaiting H.waiting_under connection host.old host.new }
    ensures cause { DidSo (HasRead 1 result) (W.traffic wire.old) (W.traffic wire.new) }
    ensures late { AttendsLate H.HoldsLate connection (λ limits past events. AreSoFar limits past connection result events × ServesRead result (octets_in events) (W.traffic wire.old) (W.traffic wire.new)) (H.answered owner.old) (H.answered owner.new) host.old host.new }
    ensures table { Attends H.as_owner (H.answered owner.old) (H.answered owner.new) (λ w calls past. H.Holds w calls host.old past × (is_going (H.as_owner w).limits (line past connection) ≡ true))
        (λ w calls past. IsVisited (H.as_owner w) (H.says w) past connection (W.traffic wire.old) (C.given clock.old) (H.Holds w calls host.new) (W.traffic wire.new) (C.given clock.new) 1 result) }
{
    let n = match wire.read(room) {
        Ok(0) => return Some(StreamEnd::PeerEnded),
        Ok(n) => n,
        Err(WireError) => return Some(StreamEnd::ReadFault),
    };
    let moment = clock.now();
    let (piece, _) = room.split_at(n);
    answers.clear();
    if let Err(end) = host.feed_whole(owner, alloc, connection, moment, piece, answers) {
        return Some(end);
    }
    if write_all(wire, answers).is_err() {
        return Some(StreamEnd::WriteFault);
    }
    if host.has_ended(connection) {
        return Some(StreamEnd::LinkClosed);
    }
    None
}

/// Serves the pieces of at most so many reads. `None` where the connection would go on.
fn serve_pieces<O, H: Host<O>, W: Wire, C: Clock>(
    alloc: Global,
    host: &mut H,
    owner: &mut O,
    connection: u64,
    wire: &mut W,
    clock: &mut C,
    max_reads: u32,
    answers: &mut Vec<u8>,
) -> Option<StreamEnd>
    requires idle { H.IsIdle host.old }
    ensures idle { H.IsIdle host.new }
    ensures parked { StayParked H.parked_under H.told_under host.old host.new }
    ensures waiting { StayWaiting H.waiting_under connection host.old host.new }
    ensures cause { DidSo (HasRead max_reads result) (W.traffic wire.old) (W.traffic wire.new) }
    ensures late { AttendsLate H.HoldsLate connection (λ limits past events. AreSoFar limits past connection result events × ServesRead result (octets_in events) (W.traffic wire.old) (W.traffic wire.new)) (H.answered owner.old) (H.answered owner.new) host.old host.new }
    ensures table { Attends H.as_owner (H.answered owner.old) (H.answered owner.new) (λ w calls past. H.Holds w calls host.old past × (is_going (H.as_owner w).limits (line past connection) ≡ true))
        (λ w calls past. IsVisited (H.as_owner w) (H.says w) past connection (W.traffic wire.old) (C.given clock.old) (H.Holds w calls host.new) (W.traffic wire.new) (C.given clock.new) max_reads result) }
{
    let mut room = [0; PIECE];
    let mut reads = 0;
    while reads < max_reads {
        if let Some(end) = serve_piece(
            alloc, host, owner, connection, wire, clock, &mut room, answers,
        ) {
            return Some(end);
        }
        reads += 1;
    }
    None
}

/// Sends CloseConnection.
fn say_farewell<O, H: Host<O>, W: Wire>(
    host: &mut H,
    connection: u64,
    wire: &mut W,
    out: &mut Vec<u8>,
) -> StreamEnd
    requires idle { H.IsIdle host.old }
    ensures idle { H.IsIdle host.new }
    ensures parked { StayParked H.parked_under H.told_under host.old host.new }
    ensures waiting { StayWaiting H.waiting_under connection host.old host.new }
    ensures wire { ServesRead None [] (W.traffic wire.old) (W.traffic wire.new) }
    ensures cause { DidSo (HasParted result) (W.traffic wire.old) (W.traffic wire.new) }
    ensures late { Attended H.HoldsLate connection (λ limits past events. AreOn limits past connection result events × (octets_in events ≡ [])) [] host.old host.new }
    ensures table { (w : H.World) (calls : List Call) (past : List history.Event) → H.Holds w calls host.old past → is_going (H.as_owner w).limits (line past connection) ≡ true → (acts : List Act) × (note : Note)
        × IsFarewell result acts × IsGivenUp result note × GrowsBy acts (W.traffic wire.old) (W.traffic wire.new)
        × H.Holds w calls host.new (after (H.as_owner w).limits past (history.Close connection) note) }
{
    out.clear();
    if let Err(end) = host.part(connection, out) {
        return end;
    }
    match write_all(wire, out) {
        Ok(()) => StreamEnd::ReadsUsed,
        Err(WireError) => StreamEnd::WriteFault,
    }
}

/// Serves a connection over a wire to its end, which `serve_stream` and `serve_engine` say.
pub(crate) fn serve_host<O, H: Host<O>, W: Wire, C: Clock>(
    alloc: Global,
    host: &mut H,
    owner: &mut O,
    connection: u64,
    wire: &mut W,
    clock: &mut C,
    max_reads: u32,
) -> StreamEnd
    requires idle { H.IsIdle host.old }
    ensures idle { H.IsIdle host.new }
    ensures parked { StayParked H.parked_under H.told_under host.old host.new }
    ensures waiting { StayWaiting H.waiting_under connection host.old host.new }
    ensures cause { DidSo (HasCause max_reads result) (W.traffic wire.old) (W.traffic wire.new) }
    ensures late { LeavesLate H.HoldsLate connection (λ limits past events. AreOn limits past connection result events × AreFromWire result (octets_in events) (W.traffic wire.old) (W.traffic wire.new)) (H.answered owner.old) (H.answered owner.new) host.old host.new }
    ensures table { Attends H.as_owner (H.answered owner.old) (H.answered owner.new) (λ w calls past. H.Holds w calls host.old past × (is_going (H.as_owner w).limits (line past connection) ≡ true))
        (λ w calls past. IsServed (H.as_owner w) (H.says w) past connection (W.traffic wire.old) (C.given clock.old) (H.Holds w calls host.new) (W.traffic wire.new) (C.given clock.new) max_reads result) }
{
    let mut out = Vec::new(alloc);
    let end = match serve_pieces(
        alloc, host, owner, connection, wire, clock, max_reads, &mut out,
    ) {
        Some(end) => end,
        None => say_farewell(host, connection, wire, &mut out),
    };
    host.forget(connection);
    end
}
