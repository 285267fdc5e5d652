//! Maps whose keys are octets.

ghost use Rattle.std.specs.Prelude.{◌≡◌, Some, None, IfErr, OnErr, OnOk, is_some};
ghost use Rattle.ft_objects.specs.Adding.{IsWhyNotPut};
ghost use Rattle.ft_objects.specs.Filling.{at, changed};

use crate::error::InterfacesError;
use std::alloc::Global;
use std::collections::BTreeMap;

/// Puts a value under a key that is not taken.
pub(crate) fn put<T: Drop>(
    alloc: Global,
    map: &mut BTreeMap<Vec<u8>, T>,
    key: &[u8],
    value: T,
) -> Result<(), InterfacesError>
    ensures free { OnOk result (at map.old key.now ≡ None) }
    ensures ok { OnOk result (at map.new ≡ changed key.now (Some value) (at map.old)) }
    ensures why { IfErr result (λ e. IsWhyNotPut (at map.old key.now) e) }
    ensures err { OnErr result (at map.new ≡ at map.old) }
{
    if map.contains_key(key) {
        return Err(InterfacesError::Taken);
    }
    let Ok(own) = Vec::from_slice(alloc, key) else {
        return Err(InterfacesError::Memory);
    };
    match map.insert(own, value) {
        Ok(_) => Ok(()),
        Err(_) => Err(InterfacesError::Memory),
    }
}

/// Takes away what is under a key, and says whether something was.
pub(crate) fn take<T: Drop>(map: &mut BTreeMap<Vec<u8>, T>, key: &[u8]) -> bool
    ensures was { result ≡ is_some (at map.old key.now) }
    ensures gone { at map.new ≡ changed key.now None (at map.old) }
{
    map.remove(key).is_some()
}
