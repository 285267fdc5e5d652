//! Which service contexts a Reply can carry.

ghost use Rattle.std.specs.Prelude.{◌≡◌, ◌↔◌, ◌+◌, ◌<◌, ◌≤◌, IsTrue, MatchOption, Some, length, map};
ghost use Rattle.cdr_core.specs.Numbers.{padding};
ghost use Rattle.cdr_core.specs.Writing.{octets_of};
ghost use Rattle.cdr_core.specs.declared.order.Order.TheVariants.{Big};
ghost use Rattle.giop_core.specs.Items.{item_at, list_value};
ghost use Rattle.ft_log.specs.View.{performed_in};
ghost use Rattle.ft_objects.specs.Replies.{body_of, order_of, status_of};
ghost use Rattle.ft_orb.specs.Carrying.{AreShort, FitsBehind, FitsTold, contexts_limit};
ghost use Rattle.ft_orb.specs.Tellings.{Replied};

use crate::answering::{Asker, order_of_results};
use ft_log::Outcome;
use giop_core::{ReplyWish, Version};

/// The place where the fields of a Reply begin (GIOP 9.4.1).
const FIELDS: u64 = 12;

/// The most octets that service contexts take.
const MOST: u64 = 1_048_576;

/// The first place from this on that is divisible by 4.
fn aligned(place: u64) -> u64
    requires { place < 2147483648 }
    ensures { result ≡ place + padding place 4 }
{
    place + (4 - place % 4) % 4
}

/// The place where service contexts end that begin a Reply, or none where they take too many octets.
#[tactic(auto, using(crate::proofs::Listed::takes_on, crate::proofs::Listed::all_takes))]
fn end_of_contexts(contexts: &[(u32, &[u8])]) -> Option<u64>
    ensures { MatchOption result
        (contexts_limit < length (octets_of Big (list_value (map item_at contexts.now)) 12))
        (λ end. (length (octets_of Big (list_value (map item_at contexts.now)) 12) ≤ contexts_limit) × (end ≡ 12 + length (octets_of Big (list_value (map item_at contexts.now)) 12))) }
{
    let mut end = FIELDS + 4;
    for one in contexts {
        end = aligned(end) + 8 + one.1.len() as u64;
        if end > FIELDS + MOST {
            return None;
        }
    }
    Some(end)
}

/// Whether service contexts take at most 1,048,576 octets.
fn are_short(contexts: &[(u32, &[u8])]) -> bool
    ensures { IsTrue result ↔ AreShort (map item_at contexts.now) }
{
    end_of_contexts(contexts).is_some()
}

/// Whether a Reply with its body can carry these service contexts: they take at most 1,048,576 octets, and octets of a raw
/// outcome stand behind them at a place divisible by 8, as in 1.2 they always do.
#[tactic(auto, using(crate::proofs::Listed::placed_is))]
fn fits_whole(contexts: &[(u32, &[u8])], asker: Asker, outcome: &Outcome) -> bool
    ensures { IsTrue result ↔ FitsTold (map item_at contexts.now) (performed_in outcome.now)
        (Some (Replied asker.version (order_of (performed_in outcome.now)) asker.request_id (status_of (performed_in outcome.now)) (body_of (performed_in outcome.now)))) }
{
    let Some(end) = end_of_contexts(contexts) else {
        return false;
    };
    match (asker.version, outcome) {
        (Version::V10 | Version::V11, Outcome::Raw(_, _, body)) => {
            body.is_empty() || aligned(end) % 8 == 0
        }
        _ => true,
    }
}

/// Whether what tells who asks an outcome can carry these service contexts, as a Reply can that has its body (`fits_whole`), and
/// any that are short one without its results. Where no Reply is wished for none goes out.
pub(crate) fn can_carry(contexts: &[(u32, &[u8])], asker: Asker, outcome: &Outcome) -> bool
    ensures { IsTrue result ↔ FitsBehind (map item_at contexts.now) asker (performed_in outcome.now) }
{
    match asker.wish {
        ReplyWish::None => true,
        ReplyWish::Full => fits_whole(contexts, asker, outcome),
        ReplyWish::Empty => match order_of_results(outcome) {
            Some(_) => are_short(contexts),
            None => fits_whole(contexts, asker, outcome),
        },
    }
}
