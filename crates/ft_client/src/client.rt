//! The client.

ghost use Rattle.std.specs.Prelude.{◌≡◌, ◌≢◌, ◌<◌, ◌≤◌, ◌+◌, ◌++◌, [], ℕ, length, map, take, true, false, vec_len, is_some, ◌^◌, ◌&&◌, nat_lt, IfOk, IfErr, IfSome, OnOk, OnErr, pos, suc};
ghost use Rattle.std.specs.Option.{option_to_list};
ghost use Rattle.std.specs.VecDeque.{deque_capacity, deque_len};
ghost use Rattle.cdr_core.specs.Spelling.{IsClean};
ghost use Rattle.cdr_core.specs.View.{values_of};
ghost use Rattle.ft_client.specs.facts.Texts.{clean_prop};
ghost use Rattle.cdr_core.specs.Writing.{AreWritable};

mod connecting;
mod making;
mod raw;
mod redirecting;

use crate::ended::Ended;
use crate::ending::{complete, end_sent, give_up, place_of, withdraw};
use crate::error::{CallError, RecallError};
use crate::feeding::feed_on;
use crate::pending::{Asked, Pending};
use crate::requests::{transmit, written};
use crate::sending::{forget_sent, send_again};
use cdr_core::Val;
use giop_core::Version;
use giop_frames::Limits;
use giop_link::ClientLink;
use std::alloc::{AllocError, Global};
use std::collections::VecDeque;

/// How many calls may be pending.
const MOST: usize = 64;

/// The greatest number of a call, the greatest long.
const LAST: u32 = 2_147_483_647;

/// A client that sends its calls again on each new connection, until each is answered, expires or is cancelled,
/// and gives each completion once.
///
/// A contract sees the client that it stands for (`FtStands`).
#[derive(Drop)]
pub struct FtClient {
    alloc: Global,
    client_id: Vec<u8>,
    version: Version,
    limits: Limits,
    last: u32,
    pending: Vec<Pending>,
    completions: VecDeque<(i32, Ended)>,
    link: Option<ClientLink>,
    keeps_transient: bool,
    keeps_forwards: bool,
    ghost clean: { IsClean client_id.items } by { clean_prop client_id.items },
    ghost named: { vec_len client_id ≤ 256 },
    ghost numbered: { last ≤ 2147483647 },
    ghost few: { vec_len pending ≤ 64 },
    ghost room: { deque_len completions + vec_len pending ≤ deque_capacity completions },
}

impl FtClient {
    ghost use Rattle.ft_client.specs.Calling.{IsCallError, IsRecallError, call_of};
    ghost use Rattle.ft_client.specs.Clients.{Called, Client, Fed, Joined, Linked, Parted, Recalled, Resumed, Skipped, Taken, Ticked, after, begun, find_pending, gives, is_resumed, is_taken, new_client, parted, placed, resent_on, says, says_again, says_placed, sent_off};
    ghost use Rattle.ft_client.specs.Directions.{stream};
    ghost use Rattle.ft_client.specs.Ends.{completion_of, numbered};
    ghost use Rattle.ft_client.specs.Keeping.{kept_by, kept_of};
    ghost use Rattle.ft_client.specs.Messages.{Call, octets_said};
    ghost use Rattle.ft_client.specs.Standing.{FieldsStand, FtStands, IsFedShort, IsLinked, down};

    /// A client that has made no call and is not connected. Its id, of 1 to 256 octets without a NUL, names it to
    /// each server. It writes the Requests of typed calls, and CancelRequests, in this version, and its links keep to the
    /// limits.
    pub fn new(
        alloc: Global,
        client_id: &[u8],
        version: Version,
        limits: Limits,
    ) -> Result<FtClient, AllocError>
        requires least { 1 ≤ length client_id.now }
        requires most { length client_id.now ≤ 256 }
        requires clean { IsClean client_id.now }
        ensures stands { IfOk result (λ c. FtStands c (new_client client_id.now version limits)) }
        ensures link { IfOk result (λ c. is_some c.link ≡ false) }
    {
        let client_id = Vec::from_slice(alloc, client_id)?;
        Ok(FtClient {
            alloc,
            client_id,
            version,
            limits,
            last: 0,
            pending: Vec::new(alloc),
            completions: VecDeque::new(alloc),
            link: None,
            keeps_transient: false,
            keeps_forwards: false,
        })
    }

    /// Tells whether the client is connected.
    pub fn is_connected(&self) -> bool
        ensures stands { (m : Client) → FtStands self.now m → result ≡ is_some m.link }
        ensures link { result ≡ is_some self.now.link }
    {
        self.link.is_some()
    }

    /// The next completion: the number of a call, and how it ended.
    pub fn take_completion(&mut self) -> Option<(i32, Ended)>
        // it is the next that is given, if there is one
        ensures given { (m : Client) → FtStands self.old m → map completion_of (option_to_list result) ≡ map numbered (gives Taken m) }
        ensures stands { (m : Client) → FtStands self.old m → FtStands self.new (after (down m.limits) Taken m) }
        ensures fewer { IfSome result (λ x. deque_len self.new.completions < deque_len self.old.completions) }
    {
        self.completions.pop_front()
    }

    /// The connection is lost: what is pending stays so.
    pub fn lost(&mut self)
        ensures stands { (m : Client) → FtStands self.old m → FtStands self.new (after (down m.limits) Parted m) }
        ensures link { is_some self.new.link ≡ false }
    {
        self.part();
    }

    /// The client without its link, whatever has become of that.
    fn part(&mut self)
        ensures stands { (m : Client) → FieldsStand self.old m → FtStands self.new (parted m) }
        ensures link { is_some self.new.link ≡ false }
    {
        self.link = None;
        forget_sent(&mut self.pending);
    }

    /// Takes octets that came on the connection, and completes each call whose reply they bring, but for those that TRANSIENT
    /// or a forward leaves pending. Where there is none nothing happens.
    ///
    /// After a fault of the stream, a CloseConnection or a MessageError (GIOP 9.4) the client is not
    /// connected, what has not ended is pending still, and what follows in the piece counts for nothing. So it is where
    /// an allocation fails: the replies in a front of the piece, not in all of it, were taken then.
    pub fn feed(&mut self, piece: &[u8]) -> Result<(), AllocError>
        ensures stands { OnOk result ((m : Client) → FtStands self.old m → FtStands self.new (after (down m.limits) (Fed piece.now) m)) }
        ensures err { OnErr result ((m : Client) → FtStands self.old m → IsFedShort piece.now m self.new) }
        ensures link { OnErr result ((is_some self.old.link ≡ true) × (is_some self.new.link ≡ false)) }
    {
        let Some(link) = &mut self.link else {
            return Ok(());
        };
        let fed = feed_on(
            self.alloc,
            link,
            self.keeps_transient,
            self.keeps_forwards,
            &mut self.pending,
            &mut self.completions,
            piece,
        );
        match fed {
            Ok(false) => Ok(()),
            Ok(true) => {
                self.part();
                Ok(())
            }
            Err(error) => {
                self.part();
                Err(error)
            }
        }
    }

    /// Takes a call, and returns its number: 1, 2, .. in the order of calls. Where the client is connected the call is
    /// sent, and its Request is appended.
    ///
    /// Moments and the expiration are numbers of 100 ns since 15 October 1582, 00:00 UTC. The operation has no NUL.
    /// On an error the client and `out` are as they were.
    pub fn call(
        &mut self,
        now: u64,
        object_key: &[u8],
        operation: &[u8],
        arguments: &[Val],
        expiration: u64,
        out: &mut Vec<u8>,
    ) -> Result<i32, CallError>
        requires clean { IsClean operation.now }
        requires writable { AreWritable (values_of arguments.now) }
        ensures number { IfOk result (λ id. (m : Client) → FtStands self.old m → id ≡ pos (suc m.last)) }
        // no refusal holds ..
        ensures taken { OnOk result ((m : Client) → FtStands self.old m → is_taken now (call_of object_key.now operation.now arguments.now expiration) m ≡ true) }
        ensures stands { OnOk result ((m : Client) → FtStands self.old m → FtStands self.new (after (down m.limits) (Called now (call_of object_key.now operation.now arguments.now expiration)) m)) }
        ensures out { OnOk result ((m : Client) → FtStands self.old m → out.new.items ≡ out.old.items ++ stream octets_said (says (Called now (call_of object_key.now operation.now arguments.now expiration)) m)) }
        // .. or it is the first that holds
        ensures err { IfErr result (λ e. (m : Client) → FtStands self.old m → IsCallError now (call_of object_key.now operation.now arguments.now expiration) m e) }
        ensures same { OnErr result ((m : Client) → FtStands self.old m → FtStands self.new m) }
        ensures unwritten { OnErr result (out.new.items ≡ out.old.items) }
    {
        let number = self.next_number(now, expiration)?;
        let asked = Asked {
            object_key,
            operation,
            arguments,
            expiration,
        };
        let client_id = self.client_id.as_slice();
        let call = written(self.alloc, self.version, client_id, number, &asked)?;
        self.place(number, call, out)?;
        Ok(number as i32)
    }

    /// Takes a call of before up again, under its own number: one that was made before this client was, by a client of
    /// the same id. A server that knows the number gives the call's first outcome. Where the client is connected the
    /// call is sent, and its Request is appended.
    ///
    /// Calls of before are taken up in the order of their numbers, each with the expiration that it had: a server takes
    /// both for one call by its number alone. The next call gets the number after this one; where greater numbers
    /// were given before, `skip_to` says so. On an error the client and `out` are as they were.
    #[expect(clippy::too_many_arguments)]
    pub fn recall(
        &mut self,
        number: u32,
        now: u64,
        object_key: &[u8],
        operation: &[u8],
        arguments: &[Val],
        expiration: u64,
        out: &mut Vec<u8>,
    ) -> Result<(), RecallError>
        requires clean { IsClean operation.now }
        requires writable { AreWritable (values_of arguments.now) }
        // no refusal holds ..
        ensures taken { OnOk result ((m : Client) → FtStands self.old m → is_resumed now number (call_of object_key.now operation.now arguments.now expiration) m ≡ true) }
        ensures stands { OnOk result ((m : Client) → FtStands self.old m → FtStands self.new (after (down m.limits) (Resumed now number (call_of object_key.now operation.now arguments.now expiration)) m)) }
        ensures out { OnOk result ((m : Client) → FtStands self.old m → out.new.items ≡ out.old.items ++ stream octets_said (says (Resumed now number (call_of object_key.now operation.now arguments.now expiration)) m)) }
        // .. or it is the first that holds
        ensures err { IfErr result (λ e. (m : Client) → FtStands self.old m → IsRecallError now number (call_of object_key.now operation.now arguments.now expiration) m e) }
        ensures same { OnErr result ((m : Client) → FtStands self.old m → FtStands self.new m) }
        ensures unwritten { OnErr result (out.new.items ≡ out.old.items) }
    {
        self.check_recall(number, now, expiration)?;
        let asked = Asked {
            object_key,
            operation,
            arguments,
            expiration,
        };
        let client_id = self.client_id.as_slice();
        let call = written(self.alloc, self.version, client_id, number, &asked)?;
        self.place(number, call, out)?;
        Ok(())
    }

    /// Numbers up to this one were given to calls before this client was made: the next call gets a greater one. Where
    /// it is not greater than each that this client has given or taken up, or is past 2,147,483,647, nothing changes.
    pub fn skip_to(&mut self, number: u32)
        ensures { (m : Client) → FtStands self.old m → FtStands self.new (after (down m.limits) (Skipped number) m) }
    {
        if self.is_free(number) {
            self.last = number;
        }
    }

    /// Whether a number is a long that is greater than each that was given or taken up.
    fn is_free(&self, number: u32) -> bool
        ensures { result ≡ (nat_lt self.now.last number && nat_lt number 2147483648) }
    {
        self.last < number && number <= LAST
    }

    /// The number of the next call, or why there is none.
    fn next_number(&self, now: u64, expiration: u64) -> Result<u32, CallError>
        ensures ok { IfOk result (λ n. (n ≡ suc self.now.last) × (now ≤ expiration) × (n < 2 ^ 31) × (vec_len self.now.pending < 64)) }
        ensures err { IfErr result (λ e. (m : Client) (call : Call) → FtStands self.now m → call.expiration ≡ expiration → IsCallError now call m e) }
    {
        if expiration < now {
            return Err(CallError::Expired);
        }
        if self.last == LAST {
            return Err(CallError::IdsUsed);
        }
        if self.pending.len() == MOST {
            return Err(CallError::TooManyCalls);
        }
        Ok(self.last + 1)
    }

    /// Why a call of before can't be taken up again under its number, but for its Request.
    fn check_recall(&self, number: u32, now: u64, expiration: u64) -> Result<(), RecallError>
        ensures free { OnOk result ((nat_lt self.now.last number && nat_lt number 2147483648) ≡ true) }
        ensures in_time { OnOk result (now ≤ expiration) }
        ensures few { OnOk result (vec_len self.now.pending < 64) }
        ensures err { IfErr result (λ e. (m : Client) (call : Call) → FtStands self.now m → call.expiration ≡ expiration → IsRecallError now number call m e) }
    {
        if !self.is_free(number) {
            return Err(RecallError::NumberUsed);
        }
        if expiration < now {
            return Err(RecallError::Expired);
        }
        if self.pending.len() == MOST {
            return Err(RecallError::TooManyCalls);
        }
        Ok(())
    }

    /// A call that is kept gets its place under a number: it is sent where the client is connected, and is pending unless
    /// it was sent and wishes for no reply. There is a place for it.
    fn place(&mut self, number: u32, mut kept: Pending, out: &mut Vec<u8>) -> Result<(), AllocError>
        requires few { vec_len self.old.pending < 64 }
        requires greater { self.old.last < number }
        requires long { number < 2 ^ 31 }
        requires unsent { kept.sent ≡ None }
        ensures stands { OnOk result ((m : Client) (call : Call) → FtStands self.old m → kept_by kept ≡ kept_of m.version m.client_id (begun number call None)
            → FtStands self.new (placed number call m m.link)) }
        ensures out { OnOk result ((m : Client) (call : Call) → FtStands self.old m → kept_by kept ≡ kept_of m.version m.client_id (begun number call None)
            → out.new.items ≡ out.old.items ++ stream octets_said (says_placed number call m m.link)) }
        ensures same { OnErr result ((m : Client) → FtStands self.old m → FtStands self.new m) }
        ensures unwritten { OnErr result (out.new.items ≡ out.old.items) }
    {
        self.pending.reserve(1)?;
        self.completions.reserve(self.pending.len() + 1)?;
        let Some(link) = &mut self.link else {
            self.pending.push_reserved(kept);
            self.last = number;
            return Ok(());
        };
        let request_id = transmit(link, &kept, out)?;
        self.last = number;
        if kept.is_oneway() {
            self.completions
                .push_back_reserved((number as i32, Ended::Sent));
            return Ok(());
        }
        kept.sent = Some(request_id);
        self.pending.push_reserved(kept);
        Ok(())
    }

    /// A call is no longer wanted: where it is pending, it is completed as cancelled, and where it was sent on this
    /// connection, a CancelRequest is appended. False: it is not pending. The CancelRequest is in the client's version, also
    /// that of a raw call whose Request is in another.
    ///
    /// Where an allocation fails the client and `out` are as they were. It fails only where a CancelRequest is to be
    /// appended.
    pub fn cancel(&mut self, id: i32, out: &mut Vec<u8>) -> Result<bool, AllocError>
        ensures pending { IfOk result (λ was. (m : Client) → FtStands self.old m → was ≡ is_some (find_pending id m.pending)) }
        ensures stands { OnOk result ((m : Client) → FtStands self.old m → FtStands self.new (after (down m.limits) (Recalled id) m)) }
        ensures out { OnOk result ((m : Client) → FtStands self.old m → out.new.items ≡ out.old.items ++ stream octets_said (says (Recalled id) m)) }
        ensures same { OnErr result ((m : Client) → FtStands self.old m → FtStands self.new m) }
        ensures needed { OnErr result ((m : Client) → FtStands self.old m → says (Recalled id) m ≢ []) }
        ensures unwritten { OnErr result (out.new.items ≡ out.old.items) }
    {
        let Some(place) = place_of(self.pending.as_slice(), id) else {
            return Ok(false);
        };
        let sent = self.pending[place].sent;
        withdraw(&mut self.link, sent, out)?;
        complete(
            &mut self.pending,
            &mut self.completions,
            place,
            Ended::Cancelled,
        );
        Ok(true)
    }

    /// A moment has come: each pending call whose expiration is before it is completed as expired, in the order of the
    /// numbers. Its request id is given up on the link, so that a reply to it completes nothing. It takes no memory.
    pub fn tick(&mut self, now: u64)
        ensures { (m : Client) → FtStands self.old m → FtStands self.new (after (down m.limits) (Ticked now) m) }
    {
        let mut place = 0;
        while place < self.pending.len() {
            if now <= self.pending[place].expiration {
                place += 1;
                continue;
            }
            let sent = self.pending[place].sent;
            give_up(&mut self.link, sent);
            complete(
                &mut self.pending,
                &mut self.completions,
                place,
                Ended::Expired,
            );
        }
    }
}
