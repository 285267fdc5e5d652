//! The calls on two objects, a server and a catalogue or two catalogues, if they are.

ghost use Rattle.std.specs.Prelude.{Some};
ghost use Rattle.lemonrudder.specs.Families.{OnFamilies};
ghost use Rattle.lemonrudder.specs.Pairs.{OnCatalogues, OnServerAndCatalogue};
ghost use Rattle.lemonrudder.specs.Swapping.{OnSwap};

use crate::object::Object;
use crate::refusal::{Refusal, number_of};

/// Exchanges what is on offer and a catalogue.
pub fn swap(object: &mut Object, other: &mut Object) -> i64
    ensures { OnServerAndCatalogue OnSwap (Some object.old) (Some object.new) (Some other.old) (Some other.new) result }
{
    let Object::Server(server) = object else {
        return Refusal::Empty.number();
    };
    let Object::Catalogue(catalogue) = other else {
        return Refusal::Empty.number();
    };
    number_of(server.swap(catalogue))
}

/// Takes the objects of another catalogue as families.
pub fn families(object: &mut Object, other: &mut Object) -> i64
    ensures { OnCatalogues OnFamilies (Some object.old) (Some object.new) (Some other.old) (Some other.new) result }
{
    let Object::Catalogue(catalogue) = object else {
        return Refusal::Empty.number();
    };
    let Object::Catalogue(families) = other else {
        return Refusal::Empty.number();
    };
    number_of(catalogue.take_families(families))
}
