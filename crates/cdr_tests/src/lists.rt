//! Lists that are read into the room of a vector.

use cdr_core::Order::Big;
use cdr_core::{CdrError, Ty, Val, read_list_into};
use std::alloc::Global;
use std::process::Abort;

/// Reads an unsigned long and a boolean into the room of four values, two of which an earlier list left, and gives how
/// many values and how much room there are then.
fn read_into(alloc: Global) -> Result<(usize, usize), CdrError> {
    let mut room = Vec::with_capacity(alloc, 4)?;
    room.push(Val::Octet(9))?;
    room.push(Val::Octet(8))?;
    let types = [Ty::ULong, Ty::Boolean];
    let (values, _) = read_list_into(alloc, &types, Big, 0, &[0, 0, 0, 7, 1], room)?;
    Ok((values.len(), values.capacity()))
}

#[test]
fn a_list_takes_the_room_of_an_earlier_one(rt: HostRuntime) {
    let read = read_into(rt.alloc()).expect(&rt, "a list");
    assert_eq!(rt; read, (2, 4));
}
