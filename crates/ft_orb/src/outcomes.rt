//! Which outcomes can be sent, and which may be handed in for an operation.

ghost use Rattle.std.specs.Prelude.{◌≡◌, ◌↔◌, ◌+◌, ◌≤◌, IfSome, IsSome, IsTrue, Some, length, map};
ghost use Rattle.std.specs.List.{AllByRecursion};
ghost use Rattle.cdr_core.specs.Fitting.{AreValid, FitsMembers};
ghost use Rattle.cdr_core.specs.View.{forms_of, values_of};
ghost use Rattle.cdr_core.specs.Writing.{AreWritable, octets_of_all};
ghost use Rattle.cdr_core.specs.declared.order.Order.TheVariants.{Big};
ghost use Rattle.giop_core.specs.Written.{exception_body};
ghost use Rattle.ft_log.specs.Performed.{system};
ghost use Rattle.ft_log.specs.View.{performed_in};
ghost use Rattle.ft_objects.specs.Interfaces.{IsAnswerOf, IsRaised, IsValidInterface, interface_of, raise_of};
ghost use Rattle.ft_objects.specs.Replies.{IsRenderable, body_limit, body_of, order_of};

use cdr_core::{Ty, Val, are_writable, end_of_list, fits, has_no_nul};
use ft_log::{Completion, Outcome, SystemName};
use ft_objects::{Catalogue, Lookup};
use std::slice;

/// The place where the body of a Reply begins (GIOP 9.4.1, GIOP 9.4.3).
pub(crate) const BODY: u64 = 24;

/// The most octets that a body takes.
const MOST: u64 = 1_048_576;

/// Whether the octets of values that are written from a place on end within the longest body.
fn ends_in_time(place: u64, values: &[Val]) -> bool
    ensures { IsTrue result ↔ (place + length (octets_of_all Big (values_of values.now) place) ≤ 1048600) }
{
    match end_of_list(place, values) {
        Some(end) => end <= BODY + MOST,
        None => false,
    }
}

/// Whether the body that results are can be sent.
fn can_return(results: &[Val]) -> bool
    ensures { IsTrue result ↔ (AreWritable (values_of results.now) × (length (octets_of_all Big (values_of results.now) 24) ≤ body_limit)) }
{
    are_writable(results) && ends_in_time(BODY, results)
}

/// Whether the body of an exception can be sent: its repository id, and then its members.
fn can_raise(id: &[u8], members: &[Val]) -> bool
    ensures { IsTrue result ↔ (AreWritable (exception_body id.now (values_of members.now)) × (length (octets_of_all Big (exception_body id.now (values_of members.now)) 24) ≤ body_limit)) }
{
    let size = id.len() as u64;
    size <= MOST
        && has_no_nul(id)
        && are_writable(members)
        && ends_in_time(BODY + 5 + size, members)
}

/// Whether the body of a system exception can be sent.
fn can_refuse(name: SystemName, minor: u32, completion: Completion) -> bool
    ensures { IsTrue result ↔ IsRenderable (system name minor completion) }
{
    let members = [Val::ULong(minor), Val::Enum(completion.number())];
    can_raise(name.repository_id(), &members)
}

/// Whether an outcome can be sent: the body of its Reply can be written, and takes at most 1,048,576 octets.
pub(crate) fn is_renderable(outcome: &Outcome) -> bool
    ensures { IsTrue result ↔ IsRenderable (performed_in outcome.now) }
{
    giop_core::laws::octets_bodies();
    match outcome {
        Outcome::Returned(results) => can_return(results),
        Outcome::One(result) => can_return(slice::from_ref(result)),
        Outcome::Raised(id, members) => can_raise(id, members),
        Outcome::System(name, minor, completion) => can_refuse(*name, *minor, *completion),
        Outcome::Raw(_, _, body) => body.len() as u64 <= MOST,
    }
}

/// How many octets the body of an exception takes: its repository id, and then its members.
fn raised_len(id: &[u8], members: &[Val]) -> Option<u64>
    ensures { (length (octets_of_all Big (exception_body id.now (values_of members.now)) 24) ≤ body_limit) → result ≡ Some (length (octets_of_all Big (exception_body id.now (values_of members.now)) 24)) }
{
    let begin = BODY + 5 + (id.len() as u64).min(MOST);
    Some(end_of_list(begin, members)? - BODY)
}

/// How many octets the body of a system exception takes.
fn refused_len(name: SystemName, minor: u32, completion: Completion) -> Option<u64>
    ensures { IsRenderable (system name minor completion) → result ≡ Some (length (octets_of_all Big (body_of (system name minor completion)) 24)) }
{
    let members = [Val::ULong(minor), Val::Enum(completion.number())];
    raised_len(name.repository_id(), &members)
}

/// How many octets the body of a Reply takes that tells an outcome, from the place 24 on (GIOP 9.4.3), in the byte order in
/// which it is written: that of a raw body, else big-endian. None where the outcome can't be sent.
pub fn outcome_len(outcome: &Outcome) -> Option<u64>
    ensures some { IfSome result (λ n. n ≡ length (octets_of_all (order_of (performed_in outcome.now)) (body_of (performed_in outcome.now)) 24)) }
    ensures can { IsSome result ↔ IsRenderable (performed_in outcome.now) }
{
    giop_core::laws::octets_bodies();
    if !is_renderable(outcome) {
        return None;
    }
    match outcome {
        Outcome::Returned(results) => Some(end_of_list(BODY, results)? - BODY),
        Outcome::One(result) => Some(end_of_list(BODY, slice::from_ref(result))? - BODY),
        Outcome::Raised(id, members) => raised_len(id, members),
        Outcome::System(name, minor, completion) => refused_len(*name, *minor, *completion),
        Outcome::Raw(_, _, body) => Some(body.len() as u64),
    }
}

/// Whether there are as many values as types, each of its type.
#[tactic(auto, using(crate::proofs::Calls::members_count))]
fn are_of(types: &[Ty], values: &[Val]) -> bool
    requires { AreValid (forms_of types.now) }
    ensures { IsTrue result ↔ FitsMembers (forms_of types.now) (values_of values.now) }
{
    if types.len() != values.len() {
        return false;
    }
    for i in 0..types.len() {
        if !fits(&types[i], &values[i]) {
            return false;
        }
    }
    true
}

/// Whether one of these exceptions has the repository id, and members of these types.
fn is_raised(raises: &[(Vec<u8>, Vec<Ty>)], id: &[u8], members: &[Val]) -> bool
    requires { AllByRecursion (λ r. AreValid r.1) (map raise_of raises.now) }
    ensures { IsTrue result ↔ IsRaised (map raise_of raises.now) id.now (values_of members.now) }
{
    for (own, types) in raises {
        if own.as_slice() == id && are_of(types, members) {
            return true;
        }
    }
    false
}

/// Whether an outcome may be handed in for an operation: results of its types, or an exception that it declares; and,
/// whatever is on offer, a system exception or the octets of a raw outcome, which were written before.
pub(crate) fn is_answer_of(lookup: Lookup<'_>, outcome: &Outcome) -> bool
    requires { IsValidInterface (interface_of lookup) }
    ensures { IsTrue result ↔ IsAnswerOf (interface_of lookup.entry) (performed_in outcome.now) }
{
    match (lookup, outcome) {
        (_, Outcome::System(..)) => true,
        (_, Outcome::Raw(..)) => true,
        (Lookup::Operation(types), Outcome::Returned(results)) => are_of(&types.results, results),
        (Lookup::Operation(types), Outcome::One(result)) => {
            are_of(&types.results, slice::from_ref(result))
        }
        (Lookup::Operation(types), Outcome::Raised(id, members)) => {
            has_no_nul(id) && is_raised(&types.raises, id, members)
        }
        _ => false,
    }
}

/// Whether an outcome can be sent, and may be handed in for an operation, by what a catalogue has on offer. The operation is
/// looked up only where its types judge values.
pub(crate) fn may_answer<C: Catalogue>(
    catalogue: &C,
    key: &[u8],
    operation: &[u8],
    outcome: &Outcome,
) -> bool
    ensures { IsTrue result ↔ (IsRenderable (performed_in outcome.now) × IsAnswerOf ((C.offers catalogue.now).interface key.now operation.now) (performed_in outcome.now)) }
{
    if !is_renderable(outcome) {
        return false;
    }
    match outcome {
        Outcome::System(..) | Outcome::Raw(..) => true,
        Outcome::Returned(_) | Outcome::One(_) | Outcome::Raised(..) => {
            is_answer_of(catalogue.interface(key, operation), outcome)
        }
    }
}
