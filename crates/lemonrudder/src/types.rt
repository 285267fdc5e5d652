//! Types that are spelled by codes, and values that are octets of them.

ghost use Rattle.std.specs.Prelude.{◌≡◌, ◌↔◌, ◌<◌, ◌≤◌, ◌⊎◌, [], ◌∷◌, IfErr, IfOk, IfSome, IsNone, IsTrue};
ghost use Rattle.cdr_core.specs.Fitting.{AreValid};
ghost use Rattle.cdr_core.specs.Spelling.{SpellsMembers};
ghost use Rattle.cdr_core.specs.Value.{Values};
ghost use Rattle.cdr_core.specs.View.{form_of, forms_of, values_of};
ghost use Rattle.lemonrudder.specs.Codes.{AreTypes, IsCode};
ghost use Rattle.lemonrudder.specs.Spelled.{AreThose, AreValues, IsWhyUnread};

use crate::refusal::Refusal;
use cdr_core::{Order, Ty, Val, are_valid, pass_list, read_list};
use std::alloc::Global;

/// A code that is followed by a number.
#[derive(Clone, Copy, Debug, Drop)]
enum Counted {
    /// An enumeration of so many names.
    Enum,
    /// A struct of so many members.
    Struct,
}

/// Types of which so many codes are read.
#[derive(Drop)]
struct Spelling {
    alloc: Global,
    types: Vec<Ty>,
    waits: Option<Counted>,
}

/// The basic type of a code, if it has one.
fn basic(code: u8) -> Option<Ty>
    ensures some { IfSome result (λ ty. IsCode (form_of ty) (code ∷ [])) }
    ensures none { IsNone result → (code ≡ 0) ⊎ (11 < code) }
{
    match code {
        1 => Some(Ty::Boolean),
        2 => Some(Ty::Char),
        3 => Some(Ty::Octet),
        4 => Some(Ty::Short),
        5 => Some(Ty::UShort),
        6 => Some(Ty::Long),
        7 => Some(Ty::ULong),
        8 => Some(Ty::LongLong),
        9 => Some(Ty::ULongLong),
        10 => Some(Ty::Str(u32::MAX)),
        11 => Some(Ty::Octets(u32::MAX)),
        _ => None,
    }
}

impl Spelling {
    ghost use Rattle.std.specs.Prelude.{◌≡◌, None};
    ghost use Rattle.lemonrudder.specs.Decoding.{ReadsMore, waiting};

    /// The last types, as members of a struct.
    fn join(&mut self, count: u8) -> Result<(), Refusal>
        ensures { self.old.waits ≡ None → ReadsMore count (waiting Counted.Struct self.old) self.new result }
    {
        let count = usize::from(count);
        let Some(at) = self.types.len().checked_sub(count) else {
            return Err(Refusal::Types);
        };
        let members = self.types.split_off(at)?;
        self.types.push(Ty::Struct(members))?;
        Ok(())
    }

    /// Takes the number after a code.
    fn count(&mut self, counted: Counted, number: u8) -> Result<(), Refusal>
        ensures { self.old.waits ≡ None → ReadsMore number (waiting counted self.old) self.new result }
    {
        match counted {
            Counted::Enum => {
                self.types.push(Ty::Enum(u32::from(number)))?;
                Ok(())
            }
            Counted::Struct => self.join(number),
        }
    }

    /// The last type, as the element of a sequence.
    fn sequence(&mut self) -> Result<(), Refusal>
        ensures { self.old.waits ≡ None → ReadsMore 12 self.old self.new result }
    {
        let Some(element) = self.types.pop() else {
            return Err(Refusal::Types);
        };
        let element = Box::new(self.alloc, element)?;
        self.types.push(Ty::Seq(u32::MAX, element))?;
        Ok(())
    }

    /// A type of one part.
    fn basic(&mut self, code: u8) -> Result<(), Refusal>
        requires { (code ≤ 11) ⊎ (14 < code) }
        ensures { self.old.waits ≡ None → ReadsMore code self.old self.new result }
    {
        let Some(ty) = basic(code) else {
            return Err(Refusal::Types);
        };
        self.types.push(ty)?;
        Ok(())
    }

    /// Takes a code.
    fn code(&mut self, code: u8) -> Result<(), Refusal>
        ensures { self.old.waits ≡ None → ReadsMore code self.old self.new result }
    {
        match code {
            12 => self.sequence(),
            13 => {
                self.waits = Some(Counted::Enum);
                Ok(())
            }
            14 => {
                self.waits = Some(Counted::Struct);
                Ok(())
            }
            _ => self.basic(code),
        }
    }

    /// Takes a code, or the number after one.
    fn take(&mut self, code: u8) -> Result<(), Refusal>
        ensures { ReadsMore code self.old self.new result }
    {
        match self.waits.take() {
            Some(counted) => self.count(counted, code),
            None => self.code(code),
        }
    }
}

/// The types that codes spell, which are valid.
pub fn types_of(alloc: Global, codes: &[u8]) -> Result<Vec<Ty>, Refusal>
    ensures { AreTypes codes.now result }
{
    let mut spelling = Spelling {
        alloc,
        types: Vec::new(alloc),
        waits: None,
    };
    for code in codes {
        spelling.take(*code)?;
    }
    if spelling.waits.is_some() || !are_valid(&spelling.types) {
        return Err(Refusal::Types);
    }
    Ok(spelling.types)
}

/// The values of types whose octets these are, all of them, aligned from place 0.
pub fn values_of(
    alloc: Global,
    types: &[Ty],
    order: Order,
    octets: &[u8],
) -> Result<Vec<Val>, Refusal>
    ensures spelled { IfOk result (λ v. SpellsMembers (forms_of types.now) order (values_of v.items) 0 octets.now) }
    ensures only { AreValid (forms_of types.now) → (vs : Values) → SpellsMembers (forms_of types.now) order vs 0 octets.now → AreThose vs result }
    ensures why { AreValid (forms_of types.now) → IfErr result (λ e. IsWhyUnread (forms_of types.now) order octets.now e) }
{
    if !are_valid(types) {
        return Err(Refusal::Types);
    }
    let (values, taken) = read_list(alloc, types, order, 0, octets)?;
    if taken != octets.len() {
        return Err(Refusal::Value);
    }
    Ok(values)
}

/// Whether octets are values of types, all of them, aligned from place 0: no value is made.
pub fn are_values(types: &[Ty], order: Order, octets: &[u8]) -> bool
    requires valid { AreValid (forms_of types.now) }
    ensures { IsTrue result ↔ AreValues (forms_of types.now) order octets.now }
{
    match pass_list(types, order, 0, octets) {
        Ok(passed) => passed == octets.len(),
        Err(_) => false,
    }
}
