//! Types in words.

use crate::copies::copied;
use crate::fault::{Refusal, Why};
use crate::plain::plain_of;
use crate::shape::{Member, Plain, Shape};
use std::alloc::Global;
use std::collections::BTreeMap;

/// How deep types may be nested.
const MOST_DEEP: u32 = 64;

/// How many parts the types of a table may have.
pub(crate) const MOST_PARTS: u64 = 262_144;

/// A type, how many parts it has, and how deep they are nested.
#[derive(Drop)]
pub(crate) struct Typed {
    pub shape: Shape,
    pub size: Size,
}

/// How many parts a type has, and how deep they are nested.
#[derive(Clone, Copy)]
pub(crate) struct Size {
    pub parts: u64,
    pub depth: u32,
}

impl Size {
    /// Of a type with nothing in it.
    pub const ONE: Size = Size { parts: 1, depth: 1 };

    /// Of a type that holds one of another size too.
    pub fn with(self, held: Size) -> Size {
        Size {
            parts: self.parts.saturating_add(held.parts),
            depth: self.depth.max(held.depth.saturating_add(1)),
        }
    }

    /// Whether types may be so large.
    pub fn check(self) -> Result<(), Refusal> {
        if self.depth > MOST_DEEP {
            return Err(Refusal::Bad(Why::Deep));
        }
        if self.parts > MOST_PARTS {
            return Err(Refusal::Bad(Why::Large));
        }
        Ok(())
    }
}

/// The types that were declared, by their repository ids.
pub(crate) type Declared = BTreeMap<String, Typed>;

/// Whether a word has decimal digits alone.
fn are_digits(word: &str) -> bool {
    for digit in word.bytes() {
        if !digit.is_ascii_digit() {
            return false;
        }
    }
    true
}

/// A number in decimal digits that is not 0.
fn number_in(word: &str) -> Result<u32, Refusal> {
    if !are_digits(word) {
        return Err(Refusal::Bad(Why::Number));
    }
    match word.parse::<u32>() {
        Ok(0) | Err(_) => Err(Refusal::Bad(Why::Number)),
        Ok(number) => Ok(number),
    }
}

/// A label in decimal digits.
pub(crate) fn label_in(word: &str) -> Result<i128, Refusal> {
    let digits = word.strip_prefix('-').unwrap_or(word);
    match word.parse::<i128>() {
        Ok(label) if are_digits(digits) => Ok(label),
        _ => Err(Refusal::Bad(Why::Number)),
    }
}

/// The bound behind a word, if one stands there: `None` where the word is another.
fn bound_in(word: &str, name: &str) -> Result<Option<u32>, Refusal> {
    if word == name {
        return Ok(Some(u32::MAX));
    }
    match word.split_once(':') {
        Some((first, bound)) if first == name => Ok(Some(number_in(bound)?)),
        _ => Ok(None),
    }
}

/// A member of a name and a type.
fn member(alloc: Global, name: &str, shape: Shape) -> Result<Member, Refusal> {
    Ok(Member {
        name: String::from_str(alloc, name)?,
        shape,
    })
}

/// A profile of a reference (IOP 7.6.2).
fn profile(alloc: Global) -> Result<Shape, Refusal> {
    let mut members = Vec::new(alloc);
    members.push(member(alloc, "tag", Shape::Plain(Plain::ULong))?)?;
    members.push(member(alloc, "profile_data", Shape::Octets(u32::MAX))?)?;
    Ok(Shape::Struct(members))
}

/// A reference (IOP 7.6.2).
fn reference(alloc: Global) -> Result<Typed, Refusal> {
    let profiles = Shape::Sequence(u32::MAX, Box::new(alloc, profile(alloc)?)?);
    let mut members = Vec::new(alloc);
    members.push(member(alloc, "type_id", Shape::Text(u32::MAX))?)?;
    members.push(member(alloc, "profiles", profiles)?)?;
    Ok(Typed {
        shape: Shape::Struct(members),
        size: Size { parts: 6, depth: 4 },
    })
}

/// The type that a word names.
fn named_by(alloc: Global, declared: &Declared, word: &str) -> Result<Typed, Refusal> {
    if let Some(plain) = plain_of(word) {
        return Ok(Typed {
            shape: Shape::Plain(plain),
            size: Size::ONE,
        });
    }
    if let Some(bound) = bound_in(word, "string")? {
        return Ok(Typed {
            shape: Shape::Text(bound),
            size: Size::ONE,
        });
    }
    if word == "object" {
        return reference(alloc);
    }
    let id = word.strip_prefix('@').ok_or(Refusal::Bad(Why::Type))?;
    let typed = declared.get(id).ok_or(Refusal::Bad(Why::Type))?;
    Ok(Typed {
        shape: copied(alloc, &typed.shape)?,
        size: typed.size,
    })
}

/// What a word makes of the type before it.
fn made_of(alloc: Global, typed: Typed, word: &str) -> Result<Typed, Refusal> {
    let size = Size::ONE.with(typed.size);
    size.check()?;
    if let Some(bound) = bound_in(word, "sequence")? {
        let shape = match typed.shape {
            Shape::Plain(Plain::Octet) => Shape::Octets(bound),
            element => Shape::Sequence(bound, Box::new(alloc, element)?),
        };
        return Ok(Typed { shape, size });
    }
    match word.split_once(':') {
        Some(("array", count)) => {
            let count = number_in(count)?;
            let shape = Shape::Array(count, Box::new(alloc, typed.shape)?);
            Ok(Typed { shape, size })
        }
        _ => Err(Refusal::Bad(Why::Type)),
    }
}

/// The type in words.
pub(crate) fn typed_in(alloc: Global, declared: &Declared, words: &str) -> Result<Typed, Refusal> {
    let (first, mut rest) = words.split_once(' ').unwrap_or((words, ""));
    let mut typed = named_by(alloc, declared, first)?;
    for _ in 0..MOST_DEEP {
        if rest.is_empty() {
            return Ok(typed);
        }
        let (word, others) = rest.split_once(' ').unwrap_or((rest, ""));
        typed = made_of(alloc, typed, word)?;
        rest = others;
    }
    Err(Refusal::Bad(Why::Deep))
}
