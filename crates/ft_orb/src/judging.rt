//! What a request asks of an owner.

ghost use Rattle.std.specs.Prelude.{◌≡◌, ◌<◌, ◌^◌, false, OnOk, IfErr, None, Some};
ghost use Rattle.cdr_core.specs.View.{values_of};
ghost use Rattle.giop_core.specs.Keys.{key_of_addressed};
ghost use Rattle.giop_core.specs.Lent.{addressed_by};
ghost use Rattle.ft_objects.specs.Interfaces.{AreArgumentsOf, raw_operation};
ghost use Rattle.ft_orb.specs.Private.{IsDeclined, question_by};
ghost use Rattle.ft_orb.specs.Requests.{call_first, call_for, raw_call};
ghost use Rattle.ft_orb.specs.Waits.{Spells, asker_of, call_of};
ghost use Rattle.ft_orb.specs.declared.arguments.Declined.TheVariants.{Memory};

use crate::answering::Asker;
use crate::arguments::{Declined, arguments_by, raw_body};
use crate::keeper::Waiting;
use crate::offering::Offering;
use crate::spare::put;
use ft_log::SystemName;
use ft_objects::Catalogue;
use giop_core::{Request, Version};
use std::alloc::Global;

/// Puts the call that a request asks for into a slot, to be performed and not kept.
#[inline(always)]
pub(crate) fn asked<C: Catalogue>(
    alloc: Global,
    slot: &mut Waiting,
    catalogue: &C,
    version: Version,
    request: &Request<'_>,
) -> Result<(), Declined>
    requires near { request.now.body.at < 2 ^ 32 }
    ensures ok { OnOk result (Spells false (C.offers catalogue.now).interface (question_by version request.now) slot.new) }
    ensures free { OnOk result (slot.new.retained ≡ None) }
    ensures err { IfErr result (λ why. IsDeclined why (call_for (C.offers catalogue.now).interface (question_by version request.now) (key_of_addressed (addressed_by request.now.target)))) }
{
    let Some(object_key) = request.target.object_key() else {
        return Err(Declined::Refused(SystemName::ObjectNotExist));
    };
    let lookup = catalogue.interface(object_key, request.operation);
    slot.arguments = arguments_by(
        alloc,
        &mut slot.arguments,
        lookup,
        version,
        request,
        object_key,
    )?;
    if put(&mut slot.object_key, object_key).is_err() {
        return Err(Declined::Memory);
    }
    if put(&mut slot.operation, request.operation).is_err() {
        return Err(Declined::Memory);
    }
    slot.asker = Asker::of(version, request);
    slot.retained = None;
    slot.refused = None;
    Ok(())
}

/// Puts the call that stands for a request which this would refuse into a slot: its body as it came.
fn asked_raw(
    alloc: Global,
    slot: &mut Waiting,
    version: Version,
    request: &Request<'_>,
    name: SystemName,
) -> Result<(), Declined>
    requires near { request.now.body.at < 2 ^ 32 }
    ensures call { OnOk result (call_of slot.new ≡ raw_call (question_by version request.now)) }
    ensures refused { OnOk result (slot.new.refused ≡ Some name) }
    ensures fit { OnOk result (AreArgumentsOf raw_operation (values_of slot.new.arguments.items)) }
    ensures asker { OnOk result (slot.new.asker ≡ asker_of (question_by version request.now)) }
    ensures free { OnOk result (slot.new.retained ≡ None) }
    ensures err { IfErr result (λ why. why ≡ Memory) }
{
    let object_key = request.target.object_key().unwrap_or(&[]);
    slot.arguments = raw_body(alloc, &mut slot.arguments, &request.body)?;
    if put(&mut slot.object_key, object_key).is_err() {
        return Err(Declined::Memory);
    }
    if put(&mut slot.operation, request.operation).is_err() {
        return Err(Declined::Memory);
    }
    slot.asker = Asker::of(version, request);
    slot.retained = None;
    slot.refused = Some(name);
    Ok(())
}

/// Puts the call that a request with a key asks for into a slot, or, where its owner is asked first, the one that stands for it.
#[inline(always)]
pub(crate) fn asked_keyed<C: Catalogue + Drop>(
    alloc: Global,
    slot: &mut Waiting,
    offering: &Offering<C>,
    version: Version,
    request: &Request<'_>,
) -> Result<(), Declined>
    requires near { request.now.body.at < 2 ^ 32 }
    ensures ok { OnOk result (Spells offering.now.first (C.offers offering.now.catalogue).interface (question_by version request.now) slot.new) }
    ensures free { OnOk result (slot.new.retained ≡ None) }
    ensures err { IfErr result (λ why. IsDeclined why (call_first offering.now.first (raw_call (question_by version request.now)) (call_for (C.offers offering.now.catalogue).interface (question_by version request.now) (key_of_addressed (addressed_by request.now.target))))) }
{
    match asked(alloc, slot, &offering.catalogue, version, request) {
        Ok(()) => Ok(()),
        Err(Declined::Refused(name)) => {
            if offering.first {
                return asked_raw(alloc, slot, version, request, name);
            }
            Err(Declined::Refused(name))
        }
        Err(Declined::Memory) => Err(Declined::Memory),
    }
}
