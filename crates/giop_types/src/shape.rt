//! The types of a table, with the names of what they hold.

/// A type of IDL that is not made of others.
#[derive(Clone, Copy)]
pub enum Plain {
    Boolean,
    Char,
    Octet,
    Short,
    UShort,
    Long,
    ULong,
    LongLong,
    ULongLong,
    Float,
    Double,
}

/// A type of IDL.
#[cycle(shapes)]
#[derive(Drop)]
pub enum Shape {
    Plain(Plain),
    /// A string of at most so many octets.
    Text(u32),
    /// A sequence of at most so many octets.
    Octets(u32),
    /// A sequence of at most so many elements.
    Sequence(u32, Box<Shape>),
    Array(u32, Box<Shape>),
    /// An enumeration of these names.
    Enum(Vec<String>),
    Struct(Vec<Member>),
    /// A union: the type of its discriminator, its cases, and the member that any other discriminator selects.
    Union(Box<Shape>, Vec<Case>, Option<Box<Member>>),
}

/// A member of a struct or a union, or a parameter.
#[cycle(shapes)]
#[derive(Drop)]
pub struct Member {
    pub name: String,
    pub shape: Shape,
}

/// The member of a union at a discriminator.
#[cycle(shapes)]
#[derive(Drop)]
pub struct Case {
    pub label: i128,
    pub member: Member,
}
