//! Schedules, taken step by step.

ghost use Rattle.std.specs.Prelude.{◌≡◌, ◌+◌, ◌++◌, ◌<◌, ◌≤◌, ℕ, ℤ, List, [], ◌∷◌, IfOk, OnErr, OnOk, length, map, take};
ghost use Rattle.std.specs.List.{AllByRecursion};
ghost use Rattle.ft_client.specs.Clients as ending;
ghost use Rattle.ft_client.specs.Clients.{Client};
ghost use Rattle.ft_client.specs.Messages.{Call as Asked};
ghost use Rattle.ft_client.specs.Standing.{FtStands, down};
ghost use Rattle.ft_orb.specs.History as history;
ghost use Rattle.ft_orb.specs.Outputs.{Made};
ghost use Rattle.ft_orb.specs.Standing.{Stands, events_played};
ghost use Rattle.ft_ends.specs.Both.{ActsOnce};
ghost use Rattle.ft_ends.specs.Laws.{IsFineStep, sides_of};
ghost use Rattle.ft_ends.specs.Playing.{AreBeginning, AreClientsOf, IsCallable, given_of, numbered, step_as};
ghost use Rattle.ft_ends.specs.Private.{AreBare, AreSet, AreTaken, Holds, IsReady, IsSettled, Runs, calls_after};
ghost use Rattle.ft_ends.specs.World as world;
ghost use Rattle.ft_ends.specs.World.{Member, Newcomer, World, moved, moved_to, with_client};

use crate::octets::are_fine;
use crate::post::{Post, call_noted, recall_noted, redirected};
use crate::steps::Step;
use crate::wire::{cancelled, closed, come_down, come_up, connected, cut, resent};
use ft_client::{Ended, FtClient};
use ft_objects::Servant;
use ft_orb::{PlayError, Server};
use std::alloc::{AllocError, Global};

/// Takes a step with the client whose step it is.
fn take_step<'a, S: Servant + Drop>(
    server: &mut Server<S>,
    opened: &mut u64,
    client: &mut FtClient,
    post: &mut Post<'a>,
    step: &'a Step,
) -> Result<(), AllocError>
    requires few { opened.old < 18446744073709551615 }
    requires callable { IsCallable step.now }
    ensures moved { OnOk result ((made : Made S) (past : List history.Event) (m : Member) → Holds S.meaning made server.old client.old post.old.wire (moved_to past opened.old m) → IsSettled S.meaning made past opened.old m (step_as step.now)
        → AreTaken post.old.taken.items m.life.calls
        → Holds S.meaning made server.new client.new post.new.wire (moved (sides_of S.meaning made down) past opened.old (step_as step.now) m)
        × (opened.new ≡ (moved (sides_of S.meaning made down) past opened.old (step_as step.now) m).opened)) }
    ensures taken { OnOk result ((c : Client) (calls : List (ℕ × Asked)) → FtStands client.old c → AreTaken post.old.taken.items calls → AreTaken post.new.taken.items (calls_after (step_as step.now) c calls)) }
    ensures opened { opened.new ≤ opened.old + 1 }
{
    match step {
        Step::Call { now, call, .. } => call_noted(client, post, *now, call),
        Step::Recall {
            number,
            now,
            call,
            ..
        } => recall_noted(client, post, *number, *now, call),
        Step::Skip { number, .. } => {
            client.skip_to(*number);
            Ok(())
        }
        Step::Keep { keeps, .. } => {
            client.keep_on_transient(*keeps);
            Ok(())
        }
        Step::KeepForwards { keeps, .. } => {
            client.keep_on_forward(*keeps);
            Ok(())
        }
        Step::Redirect { id, object_key, .. } => redirected(client, post, *id, object_key),
        Step::Connect { now, .. } => connected(server, opened, client, &mut post.wire, *now),
        Step::Resend { now, .. } => resent(client, &mut post.wire, *now),
        Step::Up { count, now, .. } => come_up(server, &mut post.wire, *count, *now),
        Step::Down { count, .. } => come_down(server, client, &mut post.wire, *count),
        Step::Cut { .. } => {
            cut(server, client, &mut post.wire);
            Ok(())
        }
        Step::Shut { .. } => closed(server, &mut post.wire),
        Step::Cancel { id, .. } => cancelled(client, &mut post.wire, *id),
        Step::Tick { now, .. } => {
            client.tick(*now);
            Ok(())
        }
    }
}

/// Appends the completions of the client at a place, and takes them from it. Where an allocation fails none is
/// appended.
fn give_out(
    client: &mut FtClient,
    place: u32,
    out: &mut Vec<(u32, i32, Ended)>,
) -> Result<(), AllocError>
    ensures given { OnOk result ((c : Client) → FtStands client.old c → map given_of out.new.items ≡ map given_of out.old.items ++ map numbered (with_client place c.completions)) }
    ensures stands { OnOk result ((c : Client) → FtStands client.old c → FtStands client.new (record c { completions = [] })) }
    ensures err { OnErr result (out.new.items ≡ out.old.items) }
{
    let start = out.len();
    while let Some((id, ended)) = client.take_completion() {
        if out.reserve(1).is_err() {
            out.truncate(start);
            return Err(AllocError);
        }
        out.push_reserved((place, id, ended));
    }
    Ok(())
}

/// Takes a step, and appends what it completes. A step of no client does nothing.
fn step_among<'a, S: Servant + Drop>(
    server: &mut Server<S>,
    opened: &mut u64,
    clients: &mut [FtClient],
    posts: &mut [Post<'a>],
    step: &'a Step,
    out: &mut Vec<(u32, i32, Ended)>,
) -> Result<(), AllocError>
    requires few { opened.old < 18446744073709551615 }
    requires callable { IsCallable step.now }
    ensures stepped { OnOk result ((made : Made S) (before : List (ℕ × ℤ × ending.Ended)) (w : World) → Runs S.meaning made server.old opened.old clients.old posts.old before out.old.items w → IsReady S.meaning made w (step_as step.now)
        → Runs S.meaning made server.new opened.new clients.new posts.new before out.new.items (world.step (sides_of S.meaning made down) w (step_as step.now))) }
    ensures err { OnErr result (out.new.items ≡ out.old.items) }
    ensures opened { opened.new ≤ opened.old + 1 }
{
    let client = step.client();
    let place = client as usize;
    if clients.len() <= place || posts.len() <= place {
        return Ok(());
    }
    take_step(server, opened, &mut clients[place], &mut posts[place], step)?;
    give_out(&mut clients[place], client, out)
}

/// What stands beside so many clients that have no connection and have called nothing.
fn bare<'a>(alloc: Global, count: usize) -> Result<Vec<Post<'a>>, AllocError>
    ensures { IfOk result (λ posts. AreBare count posts.items) }
{
    let mut posts = Vec::new(alloc);
    for _ in 0..count {
        posts.push(Post::new(alloc))?;
    }
    Ok(posts)
}

/// Takes steps in order, from new clients and a new server on.
fn run<'a, S: Servant + Drop>(
    server: &mut Server<S>,
    clients: &mut [FtClient],
    posts: &mut [Post<'a>],
    steps: &'a [Step],
    out: &mut Vec<(u32, i32, Ended)>,
) -> Result<(), PlayError>
    requires callable { AllByRecursion IsCallable steps.now }
    requires fine { AllByRecursion IsFineStep (map step_as steps.now) }
    ensures given { (made : Made S) (newcomers : List Newcomer) → AreSet S.meaning made newcomers server.old clients.old posts.old
        → map given_of out.new.items ≡ map given_of out.old.items ++ map numbered (world.world (sides_of S.meaning made down) newcomers (map step_as (take (events_played (length steps.now) result) steps.now))).completions }
    ensures stands { OnOk result ((made : Made S) (newcomers : List Newcomer) → AreSet S.meaning made newcomers server.old clients.old posts.old
        → Stands S.meaning made server.new (world.world (sides_of S.meaning made down) newcomers (map step_as steps.now)).past) }
    ensures clients { OnOk result ((made : Made S) (newcomers : List Newcomer) → AreSet S.meaning made newcomers server.old clients.old posts.old
        → AreClientsOf (world.world (sides_of S.meaning made down) newcomers (map step_as steps.now)).members clients.new) }
    ensures err { OnErr result (events_played (length steps.now) result < length steps.now) }
{
    giop_link::laws::streams_are_heard::<giop_link::Server>();
    crate::laws::clients_keep_their_laws();
    crate::laws::answers_are_short::<S>();
    crate::laws::directions_are_faithful();
    let mut opened = 0;
    for (i, step) in steps.iter().enumerate() {
        if step_among(server, &mut opened, clients, posts, step, out).is_err() {
            return Err(PlayError::Memory { events: i as u64 });
        }
    }
    Ok(())
}

/// Takes steps in order, from clients that are new and unconnected and a server to which nothing has happened, and
/// appends what completes: the client's place in the list, the number of its call, and how it ended.
///
/// Where an allocation fails in a step, the steps before it were done and their completions are appended, and none
/// after. What the two sides hold then is not said.
pub fn both_ends<S: Servant + Drop>(
    alloc: Global,
    server: &mut Server<S>,
    clients: &mut Vec<FtClient>,
    steps: &[Step],
    out: &mut Vec<(u32, i32, Ended)>,
) -> Result<(), PlayError>
    // each operation that is called has no NUL, and its arguments can be written
    requires { AllByRecursion IsCallable steps.now }
    // what completes is what completes in the world of the steps ..
    ensures given { (made : Made S) (newcomers : List Newcomer) → AreBeginning S.meaning made newcomers server.old clients.old.items
        → map given_of out.new.items ≡ map given_of out.old.items ++ map numbered (world.world (sides_of S.meaning made down) newcomers (map step_as (take (events_played (length steps.now) result) steps.now))).completions }
    // .. the server stands for its past ..
    ensures server { OnOk result ((made : Made S) (newcomers : List Newcomer) → AreBeginning S.meaning made newcomers server.old clients.old.items
        → Stands S.meaning made server.new (world.world (sides_of S.meaning made down) newcomers (map step_as steps.now)).past) }
    // .. and each client for the one at its place
    ensures clients { OnOk result ((made : Made S) (newcomers : List Newcomer) → AreBeginning S.meaning made newcomers server.old clients.old.items
        → AreClientsOf (world.world (sides_of S.meaning made down) newcomers (map step_as steps.now)).members clients.new.items) }
    // both ends act as one there
    ensures once { (made : Made S) (newcomers : List Newcomer) → AreBeginning S.meaning made newcomers server.old clients.old.items
        → ActsOnce S.meaning made newcomers (world.world (sides_of S.meaning made down) newcomers (map step_as (take (events_played (length steps.now) result) steps.now))) }
    ensures err { OnErr result (events_played (length steps.now) result < length steps.now) }
{
    crate::laws::both_ends_act_once::<S>();
    are_fine(steps);
    server.servant().known();
    if steps.is_empty() {
        return Ok(());
    }
    let Ok(mut posts) = bare(alloc, clients.len()) else {
        return Err(PlayError::Memory { events: 0 });
    };
    run(server, clients, &mut posts, steps, out)
}
