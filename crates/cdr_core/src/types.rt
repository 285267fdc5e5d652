//! The types that an IDL interface may use.

/// An IDL type whose values CDR spells (CDR 9.3.1 and CDR 9.3.2). There are no floats, wide
/// characters, fixed-point numbers, `any`s, TypeCodes, value types or object references.
///
/// Bounds count octets or elements. An unbounded string or sequence has the bound 4,294,967,295, the
/// greatest length that CDR can spell.
#[cycle(types)]
#[derive(Debug, Drop)]
pub enum Ty {
    Boolean,
    Char,
    Octet,
    Short,
    UShort,
    Long,
    ULong,
    LongLong,
    ULongLong,
    /// A string of at most so many octets; the NUL doesn't count.
    Str(u32),
    /// A sequence of at most so many octets. `Seq` of `Octet` has the same octets.
    Octets(u32),
    /// A sequence of at most so many elements.
    Seq(u32, Box<Ty>),
    /// An array of exactly so many elements.
    Array(u32, Box<Ty>),
    /// An enumeration of so many names. The first has the ordinal 0.
    Enum(u32),
    /// A struct with members of these types, in order.
    Struct(Vec<Ty>),
    /// A union: the type of its discriminator, its cases, and the type of its default member, if it has
    /// one.
    Union(Box<Ty>, Vec<Case>, Option<Box<Ty>>),
}

/// A case of a union: at this discriminator the union holds a member of this type.
///
/// The label of a boolean is 0 or 1, of a character its octet, of an enumeration its ordinal. A member
/// with several labels is several cases.
#[cycle(types)]
#[derive(Debug, Drop)]
pub struct Case {
    pub label: i128,
    pub member: Ty,
}
