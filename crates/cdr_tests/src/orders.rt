//! Orders: four octets as a number, and their texts.

use cdr_core::Order;
use cdr_core::Order::{Big, Little};
use std::process::Abort;
use trials::misprinted;

#[test]
fn four_octets_are_a_number(rt: HostRuntime) {
    let octets = [1, 2, 3, 4, 0xff];
    assert!(rt; Big.ulong_of(&octets) == 0x0102_0304);
    assert!(rt; Little.ulong_of(&octets) == 0x0403_0201);
}

#[test]
fn a_number_is_four_octets(rt: HostRuntime) {
    let mut octets = [9; 5];
    Big.put_ulong(0x0102_0304, &mut octets);
    assert!(rt; octets == [1, 2, 3, 4, 9]);
    Little.put_ulong(0x0102_0304, &mut octets);
    assert!(rt; octets == [4, 3, 2, 1, 9]);
}

static TEXTS: [(Order, &str); 2] = [(Big, "big"), (Little, "little")];

#[test]
fn orders_are_printed(rt: HostRuntime) {
    assert_eq!(rt; misprinted(&TEXTS), None);
}
