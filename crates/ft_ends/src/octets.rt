//! That calls are written as octets: each octet of a value is one.

ghost use Rattle.std.specs.Prelude.{map};
ghost use Rattle.std.specs.List.{AllByRecursion};
ghost use Rattle.cdr_core.specs.Octets.{HoldAll, HoldsOctets};
ghost use Rattle.cdr_core.specs.View.{value_of, values_of};
ghost use Rattle.ft_ends.specs.Laws.{IsFineStep};
ghost use Rattle.ft_ends.specs.Playing.{IsCallable, step_as};

use crate::steps::Step;
use cdr_core::Val;
use cdr_core::laws::{are_octets, written_is_octets};

/// The texts and the octets in a value are octets.
#[cycle(octets)]
fn holds_octets(value: &Val)
    ensures { HoldsOctets (value_of value.now) }
{
    match value {
        Val::Str(text) => are_octets(text),
        Val::Octets(all) => are_octets(all),
        Val::Seq(all) | Val::Array(all) | Val::Struct(all) => hold_octets(all),
        Val::Union(discriminator, None) => holds_octets(discriminator),
        Val::Union(discriminator, Some(member)) => {
            holds_octets(discriminator);
            holds_octets(member);
        }
        _ => {}
    }
}

/// Those in each of the values are.
#[cycle(octets)]
fn hold_octets(all: &[Val])
    ensures { HoldAll (values_of all.now) }
{
    for value in all {
        holds_octets(value);
    }
}

/// What a step calls can be written as octets.
fn is_fine(step: &Step)
    requires { IsCallable step.now }
    ensures { IsFineStep (step_as step.now) }
{
    written_is_octets();
    match step {
        Step::Call { call, .. } => hold_octets(&call.arguments),
        Step::Recall { call, .. } => hold_octets(&call.arguments),
        _ => {}
    }
}

/// What each step calls can be written as octets.
pub(crate) fn are_fine(steps: &[Step])
    requires { AllByRecursion IsCallable steps.now }
    ensures { AllByRecursion IsFineStep (map step_as steps.now) }
{
    for step in steps {
        is_fine(step);
    }
}
