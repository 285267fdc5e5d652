//! Why a reference or a profile was not read.

use cdr_core::Fault;
use cdr_core::Kind::InteriorNul;
use ior_core::IorError;
use ior_core::IorError::{BadDigit, BadMajor, Cdr, Memory, NoPrefix, OddDigits};
use trials::misprinted;

/// A fault in the octets.
const FAULT: Fault = Fault {
    kind: InteriorNul,
    at: 9,
};

static REASONS: [(IorError, &str); 6] = [
    (NoPrefix, "no prefix"),
    (OddDigits, "odd digits"),
    (BadDigit(12), "bad digit at 12"),
    (Cdr(FAULT), "interior nul at 9"),
    (BadMajor, "bad major"),
    (Memory, "memory"),
];

#[test]
fn reasons_are_printed(rt: HostRuntime) {
    assert_eq!(rt; misprinted(&REASONS), None);
}
