//! What a table declares, as its lines come: structs, exceptions, enums and unions.

use crate::fault::{Refusal, Why};
use crate::forms::form_of;
use crate::shape::{Case, Member, Shape};
use crate::typed::{Size, Typed};
use std::alloc::Global;

/// A struct or an exception of this repository id.
#[derive(Drop)]
pub(crate) struct Fields {
    pub id: String,
    pub members: Vec<Member>,
    size: Size,
}

impl Fields {
    /// One in which nothing is.
    pub fn new(alloc: Global, id: &str) -> Result<Fields, Refusal> {
        Ok(Fields {
            id: String::from_str(alloc, id)?,
            members: Vec::new(alloc),
            size: Size::ONE,
        })
    }

    /// Takes the next member.
    pub fn take(&mut self, name: String, typed: Typed) -> Result<(), Refusal> {
        self.size = self.size.with(typed.size);
        self.size.check()?;
        self.members.push(Member {
            name,
            shape: typed.shape,
        })?;
        Ok(())
    }

    /// The struct, and its repository id.
    pub fn end(self) -> Result<(String, Typed), Refusal> {
        if self.members.is_empty() {
            return Err(Refusal::Bad(Why::Empty));
        }
        let typed = Typed {
            shape: Shape::Struct(self.members),
            size: self.size,
        };
        Ok((self.id, typed))
    }
}

/// An enumeration of this repository id.
#[derive(Drop)]
pub(crate) struct Names {
    pub id: String,
    pub names: Vec<String>,
}

impl Names {
    /// One without names.
    pub fn new(alloc: Global, id: &str) -> Result<Names, Refusal> {
        Ok(Names {
            id: String::from_str(alloc, id)?,
            names: Vec::new(alloc),
        })
    }

    /// The enumeration, and its repository id.
    pub fn end(self) -> Result<(String, Typed), Refusal> {
        if self.names.is_empty() {
            return Err(Refusal::Bad(Why::Empty));
        }
        let size = Size {
            parts: self.names.len() as u64,
            depth: 1,
        };
        size.check()?;
        let shape = Shape::Enum(self.names);
        Ok((self.id, Typed { shape, size }))
    }
}

/// A union of this repository id.
#[derive(Drop)]
pub(crate) struct Cases {
    alloc: Global,
    pub id: String,
    switch: Shape,
    cases: Vec<Case>,
    default: Option<Box<Member>>,
    size: Size,
}

impl Cases {
    /// One without members.
    pub fn new(alloc: Global, id: &str, switch: Typed) -> Result<Cases, Refusal> {
        Ok(Cases {
            alloc,
            id: String::from_str(alloc, id)?,
            switch: switch.shape,
            cases: Vec::new(alloc),
            default: None,
            size: Size::ONE.with(switch.size),
        })
    }

    /// Takes the next member, at a label, or at all that no label is of.
    pub fn take(&mut self, label: Option<i128>, name: String, typed: Typed) -> Result<(), Refusal> {
        self.size = self.size.with(typed.size);
        self.size.check()?;
        let member = Member {
            name,
            shape: typed.shape,
        };
        match label {
            Some(label) => self.cases.push(Case { label, member })?,
            None if self.default.is_some() => return Err(Refusal::Bad(Why::Labels)),
            None => self.default = Some(Box::new(self.alloc, member)?),
        }
        Ok(())
    }

    /// The union, and its repository id.
    pub fn end(self) -> Result<(String, Typed), Refusal> {
        if self.cases.is_empty() && self.default.is_none() {
            return Err(Refusal::Bad(Why::Empty));
        }
        let switch = Box::new(self.alloc, self.switch)?;
        let shape = Shape::Union(switch, self.cases, self.default);
        if !form_of(self.alloc, &shape)?.is_valid() {
            return Err(Refusal::Bad(Why::Labels));
        }
        let size = self.size;
        Ok((self.id, Typed { shape, size }))
    }
}
