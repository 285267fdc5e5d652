//! How many octets lists of types pass over, and where they stop.

use cdr_core::Kind::{BadBoolean, BadEnum, InteriorNul, NoTerminator, OverBound, Short};
use cdr_core::Order::{Big, Little};
use cdr_core::{Case, Fault, Kind, Order, Ty, are_valid, pass_list};
use std::alloc::{AllocError, Global};
use std::process::Abort;

/// A list of types.
#[derive(Clone, Copy)]
enum List {
    /// Two booleans.
    Flags,
    /// An octet and an unsigned long.
    Numbers,
    /// A string of at most 3 octets.
    Name,
    /// At most 2 octets.
    Raw,
    /// At most 2 unsigned shorts.
    Shorts,
    /// Two longs.
    Pair,
    /// A struct of an octet and a short.
    Point,
    /// One of 3 names.
    Name3,
    /// By a boolean: at 1 an unsigned long, at 0 nothing.
    Perhaps,
    /// By a short: at 1 an unsigned long, else an octet.
    Either,
}

use List::{Either, Flags, Name, Name3, Numbers, Pair, Perhaps, Point, Raw, Shorts};

/// A case that holds an unsigned long at 1.
fn cases(alloc: Global) -> Result<Vec<Case>, AllocError> {
    let case = Case {
        label: 1,
        member: Ty::ULong,
    };
    Ok(vec![in alloc; case]?)
}

/// A union that holds an octet at each label but 1.
fn either(alloc: Global) -> Result<Ty, AllocError> {
    let other = Box::new(alloc, Ty::Octet)?;
    Ok(Ty::Union(Box::new(alloc, Ty::Short)?, cases(alloc)?, Some(other)))
}

/// The types of a list.
fn types(alloc: Global, list: List) -> Result<Vec<Ty>, AllocError> {
    let one = match list {
        Flags => return Ok(vec![in alloc; Ty::Boolean, Ty::Boolean]?),
        Numbers => return Ok(vec![in alloc; Ty::Octet, Ty::ULong]?),
        Name => Ty::Str(3),
        Raw => Ty::Octets(2),
        Shorts => Ty::Seq(2, Box::new(alloc, Ty::UShort)?),
        Pair => Ty::Array(2, Box::new(alloc, Ty::Long)?),
        Point => Ty::Struct(vec![in alloc; Ty::Octet, Ty::Short]?),
        Name3 => Ty::Enum(3),
        Perhaps => Ty::Union(Box::new(alloc, Ty::Boolean)?, cases(alloc)?, None),
        Either => either(alloc)?,
    };
    Ok(vec![in alloc; one]?)
}

/// The types, the order of numbers, the place of the first octet, the octets, and how many of them are passed over, or the
/// fault and its place.
type Row = (List, Order, u32, &'static [u8], Result<usize, (Kind, u64)>);

static ROWS: &[Row] = &[
    (Flags, Big, 0, &[1, 0, 9], Ok(2)),
    (Flags, Big, 0, &[1, 2], Err((BadBoolean, 1))),
    (Flags, Big, 6, &[1], Err((Short, 7))),
    (Numbers, Big, 0, &[5, 0, 0, 0, 0, 0, 0, 7], Ok(8)),
    (Numbers, Big, 3, &[5, 0, 0, 0, 7], Ok(5)),
    (Numbers, Big, 0, &[5], Err((Short, 4))),
    (Numbers, Big, 0, &[5, 0, 0, 0, 0, 0, 7], Err((Short, 4))),
    (Name, Big, 0, &[0, 0, 0, 3, 104, 105, 0], Ok(7)),
    (Name, Little, 0, &[4, 0, 0, 0, 104, 105, 106, 0], Ok(8)),
    (
        Name,
        Big,
        0,
        &[0, 0, 0, 5, 104, 105, 106, 107, 0],
        Err((OverBound, 0)),
    ),
    (
        Name,
        Big,
        0,
        &[0, 0, 0, 3, 104, 0, 0],
        Err((InteriorNul, 5)),
    ),
    (
        Name,
        Big,
        0,
        &[0, 0, 0, 2, 104, 105],
        Err((NoTerminator, 5)),
    ),
    (Name, Big, 0, &[0, 0, 0, 3, 104, 105], Err((Short, 4))),
    (Raw, Big, 1, &[9, 9, 9, 0, 0, 0, 2, 8, 9], Ok(9)),
    (
        Raw,
        Big,
        1,
        &[9, 9, 9, 0, 0, 0, 3, 8, 9, 9],
        Err((OverBound, 4)),
    ),
    (Shorts, Big, 0, &[0, 0, 0, 2, 0, 1, 0, 2, 9], Ok(8)),
    (Shorts, Big, 0, &[0, 0, 0, 0, 9], Ok(4)),
    (
        Shorts,
        Big,
        0,
        &[0, 0, 0, 3, 0, 1, 0, 2, 0, 3],
        Err((OverBound, 0)),
    ),
    (Shorts, Big, 0, &[0, 0, 0, 2, 0, 1, 0], Err((Short, 6))),
    (Pair, Little, 2, &[9, 9, 1, 0, 0, 0, 2, 0, 0, 0], Ok(10)),
    (Pair, Little, 0, &[1, 0, 0, 0, 2, 0, 0], Err((Short, 4))),
    (Point, Big, 0, &[1, 9, 0, 2], Ok(4)),
    (Point, Big, 1, &[1, 0, 2], Ok(3)),
    (Name3, Big, 0, &[0, 0, 0, 2], Ok(4)),
    (Name3, Big, 0, &[0, 0, 0, 3], Err((BadEnum, 0))),
    (Perhaps, Big, 0, &[1, 9, 9, 9, 0, 0, 0, 9], Ok(8)),
    (Perhaps, Big, 0, &[0, 9], Ok(1)),
    (Perhaps, Big, 0, &[2], Err((BadBoolean, 0))),
    (Either, Big, 0, &[0, 1, 9, 9, 0, 0, 0, 9], Ok(8)),
    (Either, Big, 0, &[0, 7, 5, 9], Ok(3)),
    (Either, Little, 0, &[0, 1, 5, 9], Ok(3)),
    (Either, Big, 0, &[0, 7], Err((Short, 2))),
];

/// How many octets the types pass over, or the fault; nothing where the types are not valid.
fn passed(types: &[Ty], order: Order, at: u32, octets: &[u8]) -> Option<Result<usize, Fault>> {
    if !are_valid(types) {
        return None;
    }
    Some(pass_list(types, order, u64::from(at), octets))
}

/// Whether what a row says is so.
fn is_so(types: &[Ty], row: &Row) -> bool {
    let (_, order, at, octets, wanted) = row;
    match (passed(types, *order, *at, octets), *wanted) {
        (Some(Ok(found)), Ok(count)) => found == count,
        (Some(Err(fault)), Err((kind, at))) => fault == Fault { kind, at },
        _ => false,
    }
}

#[test]
fn lists_are_passed_over(rt: HostRuntime) {
    for (index, row) in ROWS.iter().enumerate() {
        let types = types(rt.alloc(), row.0).expect(&rt, "types");
        assert!(rt; is_so(&types, row), "row {index}");
    }
}
