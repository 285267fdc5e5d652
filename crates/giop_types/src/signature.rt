//! Types in order, and the values of a body.

ghost use Rattle.std.specs.Prelude.{◌≡◌, ◌<◌, ◌^◌, IfOk, IfSome};
ghost use Rattle.cdr_core.specs.Fitting.{AreValid};
ghost use Rattle.cdr_core.specs.Validity.{are_valid_prop};
ghost use Rattle.cdr_core.specs.View as view;
ghost use Rattle.giop_types.specs.Reading.{Has};

use crate::forms::forms_of;
use crate::shape::Member;
use cdr_core::{CdrError, Order, Ty, Val, are_valid, read_list};
use std::alloc::{AllocError, Global};

/// Members that stand one after another in a body: their names and types.
#[derive(Drop)]
pub struct Signature {
    members: Vec<Member>,
    forms: Vec<Ty>,
    ghost valid: { AreValid (view.forms_of forms.items) } by { are_valid_prop (view.forms_of forms.items) },
}

impl Signature {
    /// That of members. None: a type of them is not valid.
    pub fn new(alloc: Global, members: Vec<Member>) -> Result<Option<Signature>, AllocError>
        ensures { IfOk result (λ s. IfSome s (λ s. s.members ≡ members)) }
    {
        let forms = forms_of(alloc, &members)?;
        if !are_valid(&forms) {
            return Ok(None);
        }
        Ok(Some(Signature { members, forms }))
    }

    /// The members.
    pub fn members(&self) -> &[Member]
        ensures { result.now ≡ self.now.members.items }
    {
        &self.members
    }

    /// The values of the members in octets, the first of which stands at the place `at`. None: they are not the octets
    /// of such values from the first to the last.
    pub fn values_in(
        &self,
        alloc: Global,
        order: Order,
        at: u64,
        octets: &[u8],
    ) -> Result<Option<Vec<Val>>, AllocError>
        requires { at < 2 ^ 32 }
        ensures { IfOk result (λ values. Has (view.forms_of self.now.forms.items) order at octets.now values) }
    {
        match read_list(alloc, &self.forms, order, at, octets) {
            Ok((values, count)) if count == octets.len() => Ok(Some(values)),
            Ok(_) => Ok(None),
            Err(CdrError::Bad(_)) => Ok(None),
            Err(CdrError::Memory) => Err(AllocError),
        }
    }
}
