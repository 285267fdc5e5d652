//! A catalogue in which many keys lead to one object: families, and a default object.

ghost use Rattle.std.specs.Prelude.{◌≡◌};

use crate::catalogue::Catalogue;
use crate::interfaces::Interfaces;
use crate::signature::Lookup;

/// Objects with keys of their own, and families: objects that each key leads to which begins with their prefix.
///
/// A prefix is octets: with the family `acct/` ten thousand keys as `acct/1` and `acct/2` are added at once. A key
/// that an object has as its own leads to that object. Each other key leads to the family with the longest prefix, in
/// octets, that it begins with; where it begins with none, to no object. Each key begins with the empty prefix, whose
/// family is the default object.
///
/// Both catalogues are filled in call by call, before an engine is made with them. A look-up of a key without an object of
/// its own goes over all families, and compares each prefix with it at most once.
#[derive(Drop)]
pub struct Families {
    /// The objects with keys of their own.
    pub objects: Interfaces,
    /// The families, under their prefixes.
    pub families: Interfaces,
}

impl Families {
    ghost use Rattle.std.specs.Option.{option_map_or};
    ghost use Rattle.ft_objects.specs.Families.{families_ids, family};
    ghost use Rattle.ft_objects.specs.Filling.{names_id, offer_of};
    ghost use Rattle.ft_objects.specs.Interfaces.{interface_of, no_object};

    /// Whether the object that the key leads to, its own or its family, names the repository id (`Interfaces::is_a`).
    pub fn is_a(&self, key: &[u8], id: &[u8]) -> bool
        ensures { result ≡ names_id (families_ids self.now key.now) id.now }
    {
        if self.objects.has_object(key) {
            return self.objects.is_a(key, id);
        }
        match self.families.family_of(key) {
            Some(prefix) => self.families.is_a(prefix, id),
            None => false,
        }
    }

    /// The types of an operation of the family that the key begins with, if there is one.
    fn of_family(&self, key: &[u8], operation: &[u8]) -> Lookup<'_>
        ensures { interface_of result ≡ option_map_or (offer_of self.now.families).interface (family (offer_of self.now.families).knows key.now) (λ name. no_object) operation.now }
    {
        match self.families.family_of(key) {
            Some(prefix) => self.families.interface(prefix, operation),
            None => Lookup::NoObject,
        }
    }
}

impl Catalogue for Families {
    ghost use Rattle.ft_objects.specs.Families.{families_offer};
    ghost use Rattle.ft_objects.specs.facts.Promises.{families_offer-is};

    ghost offers = { families_offer };

    ghost promises = { families_offer-is };

    fn interface(&self, object_key: &[u8], operation: &[u8]) -> Lookup<'_> {
        match self.objects.interface(object_key, operation) {
            Lookup::NoObject => self.of_family(object_key, operation),
            found => found,
        }
    }

    fn has_object(&self, object_key: &[u8]) -> bool {
        self.objects.has_object(object_key) || self.families.family_of(object_key).is_some()
    }
}
