//! What stands beside a client: its wire, and the calls that it took.

ghost use Rattle.std.specs.Prelude.{◌≡◌, ◌++◌, ℕ, List, Option, is_some, map, option_map, OnOk};
ghost use Rattle.std.specs.List.{find};
ghost use Rattle.std.specs.Ordering.{int_eq};
ghost use Rattle.cdr_core.specs.Spelling.{IsClean};
ghost use Rattle.cdr_core.specs.View.{values_of};
ghost use Rattle.cdr_core.specs.Writing.{AreWritable};
ghost use Rattle.ft_client.specs.Clients.{Called, Client, Redirected, Resumed, after, made, says};
ghost use Rattle.ft_client.specs.Messages.{Call as Asked};
ghost use Rattle.ft_client.specs.Standing.{FtStands, down};
ghost use Rattle.ft_orb.specs.Tellings.{Telling};
ghost use Rattle.ft_ends.specs.Playing.{call_as};
ghost use Rattle.ft_ends.specs.Private.{AreCalled, AreTaken, IsBare, IsWireFor, noted, taken_of};
ghost use Rattle.ft_ends.specs.World as world;
ghost use Rattle.ft_ends.specs.World.{extended};

use crate::outcomes::after_redirect;
use crate::steps::Call;
use crate::taken::Taken;
use crate::wire::{Wire, called, recalled};
use ft_client::FtClient;
use std::alloc::{AllocError, Global};

/// What stands beside a client: its wire, and the calls that it took, the first first. It keeps no call itself, but octets.
#[derive(Drop)]
pub(crate) struct Post<'a> {
    pub wire: Wire,
    pub taken: Vec<Taken<'a>>,
}

impl<'a> Post<'a> {
    /// No connection, and no call.
    pub(crate) fn new(alloc: Global) -> Post<'a>
        ensures { IsBare result }
    {
        Post {
            wire: Wire::new(alloc),
            taken: Vec::new(alloc),
        }
    }

    /// Notes a call under the number that it was given, if it was given one.
    pub(crate) fn note(&mut self, number: Option<i32>, call: &'a Call) -> Result<(), AllocError>
        requires clean { IsClean call.now.operation.items }
        requires writable { AreWritable (values_of call.now.arguments.items) }
        ensures taken { OnOk result (map taken_of self.new.taken.items ≡ map taken_of self.old.taken.items ++ noted number (call_as call.now)) }
        ensures wire { self.new.wire ≡ self.old.wire }
    {
        if let Some(number) = number {
            self.taken.push(Taken { number, call })?;
        }
        Ok(())
    }

    /// The call of a number, if one was taken under it.
    pub(crate) fn find(&self, number: i32) -> Option<&Taken<'a>>
        ensures { option_map (λ t. t.now) result ≡ find (λ t. int_eq t.number number) self.now.taken.items }
    {
        self.taken.iter().find(|one| one.number == number)
    }
}

/// A client calls, and its call is noted. One that is refused does nothing, and is no error.
pub(crate) fn call_noted<'a>(
    client: &mut FtClient,
    post: &mut Post<'a>,
    now: u64,
    call: &'a Call,
) -> Result<(), AllocError>
    requires clean { IsClean call.now.operation.items }
    requires writable { AreWritable (values_of call.now.arguments.items) }
    ensures ok { OnOk result ((tells : ℕ → List Telling) (c : Client) (o : Option world.Wire) → FtStands client.old c → is_some c.link ≡ is_some o → IsWireFor tells post.old.wire o
        → FtStands client.new (after (down c.limits) (Called now (call_as call.now)) c) × IsWireFor tells post.new.wire (extended (says (Called now (call_as call.now)) c) o)) }
    ensures taken { OnOk result ((c : Client) (calls : List (ℕ × Asked)) → FtStands client.old c → AreTaken post.old.taken.items calls → AreTaken post.new.taken.items (calls ++ made (Called now (call_as call.now)) c)) }
{
    let number = called(client, &mut post.wire, now, call)?;
    post.note(number, call)
}

/// A client takes a call of before up again, and it is noted. One that is refused does nothing, and is no error.
pub(crate) fn recall_noted<'a>(
    client: &mut FtClient,
    post: &mut Post<'a>,
    number: u32,
    now: u64,
    call: &'a Call,
) -> Result<(), AllocError>
    requires clean { IsClean call.now.operation.items }
    requires writable { AreWritable (values_of call.now.arguments.items) }
    ensures ok { OnOk result ((tells : ℕ → List Telling) (c : Client) (o : Option world.Wire) → FtStands client.old c → is_some c.link ≡ is_some o → IsWireFor tells post.old.wire o
        → FtStands client.new (after (down c.limits) (Resumed now number (call_as call.now)) c) × IsWireFor tells post.new.wire (extended (says (Resumed now number (call_as call.now)) c) o)) }
    ensures taken { OnOk result ((c : Client) (calls : List (ℕ × Asked)) → FtStands client.old c → AreTaken post.old.taken.items calls → AreTaken post.new.taken.items (calls ++ made (Resumed now number (call_as call.now)) c)) }
{
    let number = recalled(client, &mut post.wire, number, now, call)?;
    post.note(number, call)
}

/// The call of a number, which is led elsewhere, is asked for under another object key from now on. One that is not led
/// elsewhere stays as it is, and is no error.
pub(crate) fn redirected(
    client: &mut FtClient,
    post: &Post<'_>,
    id: i32,
    object_key: &[u8],
) -> Result<(), AllocError>
    ensures { OnOk result ((c : Client) (calls : List (ℕ × Asked)) → FtStands client.old c → AreTaken post.now.taken.items calls → AreCalled calls c.pending
        → FtStands client.new (after (down c.limits) (Redirected id object_key.now) c)) }
{
    let Some(one) = post.find(id) else {
        return Ok(());
    };
    after_redirect(client.redirect(id, object_key, &one.call.operation, &one.call.arguments))
}
