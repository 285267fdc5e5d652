//! The octets that the calls read and write, and what they are to give, written out from the rules
//! of the representation.

use cdr_core::{Fault, Kind, Order};
use trials::{Gives, Sample, Shape};

/// "abc".
const STRING: Sample = Sample {
    name: "string",
    shape: Some(Shape::Str),
    order: Order::Big,
    at: 0,
    octets: &[0, 0, 0, 4, b'a', b'b', b'c', 0],
    gives: Gives::Value("Str([97, 98, 99])"),
};

/// Three octets after a gap of three.
const OCTETS: Sample = Sample {
    name: "octets",
    shape: Some(Shape::Octets),
    order: Order::Little,
    at: 1,
    octets: &[0, 0, 0, 3, 0, 0, 0, 7, 8, 9],
    gives: Gives::Value("Octets([7, 8, 9])"),
};

/// Six longs after a gap of two, so that their vector grows twice.
const LONGS: Sample = Sample {
    name: "longs",
    shape: Some(Shape::Longs),
    order: Order::Big,
    at: 2,
    octets: &[
        0, 0, 0, 0, 0, 6, 0, 0, 0, 1, 0xff, 0xff, 0xff, 0xfe, 0, 0, 0, 3, 0, 0, 0, 4, 0, 0, 0, 5,
        0, 0, 0, 6,
    ],
    gives: Gives::Value("Seq([Long(1), Long(-2), Long(3), Long(4), Long(5), Long(6)])"),
};

/// "a" and "bc".
const STRINGS: Sample = Sample {
    name: "strings",
    shape: Some(Shape::Strings),
    order: Order::Little,
    at: 0,
    octets: &[
        2, 0, 0, 0, 2, 0, 0, 0, b'a', 0, 0, 0, 3, 0, 0, 0, b'b', b'c', 0,
    ],
    gives: Gives::Value("Seq([Str([97]), Str([98, 99])])"),
};

/// "a" and the empty string.
const ARRAY: Sample = Sample {
    name: "array",
    shape: Some(Shape::Array),
    order: Order::Big,
    at: 4,
    octets: &[0, 0, 0, 2, b'a', 0, 0, 0, 0, 0, 0, 1, 0],
    gives: Gives::Value("Array([Str([97]), Str([])])"),
};

/// "a", -2 and a sequence of "bc".
const STRUCT: Sample = Sample {
    name: "struct",
    shape: Some(Shape::Struct),
    order: Order::Big,
    at: 0,
    octets: &[
        0, 0, 0, 2, b'a', 0, 0xff, 0xfe, 0, 0, 0, 1, 0, 0, 0, 3, b'b', b'c', 0,
    ],
    gives: Gives::Value("Struct([Str([97]), Short(-2), Seq([Str([98, 99])])])"),
};

/// At 2 "a".
const UNION_LABEL: Sample = Sample {
    name: "union_label",
    shape: Some(Shape::Labelled),
    order: Order::Little,
    at: 0,
    octets: &[2, 0, 0, 0, 2, 0, 0, 0, b'a', 0],
    gives: Gives::Value("Union(Long(2), Some(Str([97])))"),
};

/// At false one octet.
const UNION_DEFAULT: Sample = Sample {
    name: "union_default",
    shape: Some(Shape::Defaulted),
    order: Order::Big,
    at: 3,
    octets: &[0, 0, 0, 0, 1, 7],
    gives: Gives::Value("Union(Boolean(false), Some(Octets([7])))"),
};

/// At 3 nothing.
const UNION_EMPTY: Sample = Sample {
    name: "union_empty",
    shape: Some(Shape::Labelled),
    order: Order::Little,
    at: 0,
    octets: &[3, 0, 0, 0],
    gives: Gives::Value("Union(Long(3), None)"),
};

/// A sequence of one struct of 'x' and "a", and at 1 the octets 7 and the octets 8 and 9.
const NESTED: Sample = Sample {
    name: "nested",
    shape: Some(Shape::Nested),
    order: Order::Big,
    at: 0,
    octets: &[
        0, 0, 0, 1, b'x', 0, 0, 0, 0, 0, 0, 2, b'a', 0, 0, 1, 0, 0, 0, 1, 7, 0, 0, 0, 0, 0, 0, 2,
        8, 9,
    ],
    gives: Gives::Value(
        "Struct([Seq([Struct([Char(120), Str([97])])]), Union(UShort(1), Some(Array([Octets([7]), Octets([8, 9])])))])",
    ),
};

/// A value of each kind of type for which memory is taken.
pub static VALUES: [Sample; 10] = [
    STRING,
    OCTETS,
    LONGS,
    STRINGS,
    ARRAY,
    STRUCT,
    UNION_LABEL,
    UNION_DEFAULT,
    UNION_EMPTY,
    NESTED,
];

/// The structs, whose members are lists of values.
pub static LISTS: [Sample; 2] = [STRUCT, NESTED];

/// The second string has no NUL at its end.
const STRINGS_FAULT: Sample = Sample {
    name: "strings",
    shape: Some(Shape::Strings),
    order: Order::Little,
    at: 0,
    octets: &[
        2, 0, 0, 0, 2, 0, 0, 0, b'a', 0, 0, 0, 3, 0, 0, 0, b'b', b'c', b'd',
    ],
    gives: Gives::Fault(Fault {
        kind: Kind::NoTerminator,
        at: 18,
    }),
};

/// The second string has a NUL inside.
const ARRAY_FAULT: Sample = Sample {
    name: "array",
    shape: Some(Shape::Array),
    order: Order::Big,
    at: 4,
    octets: &[0, 0, 0, 2, b'a', 0, 0, 0, 0, 0, 0, 3, b'b', 0, 0],
    gives: Gives::Fault(Fault {
        kind: Kind::InteriorNul,
        at: 17,
    }),
};

/// The sequence has more strings than its bound.
const STRUCT_FAULT: Sample = Sample {
    name: "struct",
    shape: Some(Shape::Struct),
    order: Order::Big,
    at: 0,
    octets: &[0, 0, 0, 2, b'a', 0, 0xff, 0xfe, 0, 0, 0, 9],
    gives: Gives::Fault(Fault {
        kind: Kind::OverBound,
        at: 8,
    }),
};

/// The last octets are fewer than their length.
const NESTED_FAULT: Sample = Sample {
    name: "nested",
    shape: Some(Shape::Nested),
    order: Order::Big,
    at: 0,
    octets: &[
        0, 0, 0, 1, b'x', 0, 0, 0, 0, 0, 0, 2, b'a', 0, 0, 1, 0, 0, 0, 1, 7, 0, 0, 0, 0, 0, 0, 3,
        8, 9,
    ],
    gives: Gives::Fault(Fault {
        kind: Kind::Short,
        at: 28,
    }),
};

/// Octets that are faulty after a part for which memory is taken.
pub static FAULTS: [Sample; 4] = [STRINGS_FAULT, ARRAY_FAULT, STRUCT_FAULT, NESTED_FAULT];

/// "X", and the octet 0 with the tag 1.
const REFERENCE: Sample = Sample {
    name: "one_profile",
    shape: None,
    order: Order::Big,
    at: 0,
    octets: &[
        0, 0, 0, 2, b'X', 0, 0, 0, 0, 0, 0, 1, 0, 0, 0, 1, 0, 0, 0, 1, 0,
    ],
    gives: Gives::Value("Ior { type_id: [88], profiles: [Tagged { tag: 1, octets: [0] }] }"),
};

/// "X", no octets with the tag 5, and the octet 7 with the tag 1, after a gap of two.
const TWO_PROFILES: Sample = Sample {
    name: "two_profiles",
    shape: None,
    order: Order::Little,
    at: 2,
    octets: &[
        0, 0, 2, 0, 0, 0, b'X', 0, 0, 0, 2, 0, 0, 0, 5, 0, 0, 0, 0, 0, 0, 0, 1, 0, 0, 0, 1, 0, 0,
        0, 7,
    ],
    gives: Gives::Value(
        "Ior { type_id: [88], profiles: [Tagged { tag: 5, octets: [] }, Tagged { tag: 1, octets: [7] }] }",
    ),
};

/// References.
pub static REFERENCES: [Sample; 2] = [REFERENCE, TWO_PROFILES];

/// The tag of the second profile has three octets.
const REFERENCE_FAULT: Sample = Sample {
    name: "second_profile",
    shape: None,
    order: Order::Big,
    at: 0,
    octets: &[
        0, 0, 0, 2, b'X', 0, 0, 0, 0, 0, 0, 2, 0, 0, 0, 1, 0, 0, 0, 1, 0, 0, 0, 0, 0, 0, 0,
    ],
    gives: Gives::Fault(Fault {
        kind: Kind::Short,
        at: 24,
    }),
};

/// Octets that are faulty after a part of a reference.
pub static REFERENCE_FAULTS: [Sample; 1] = [REFERENCE_FAULT];

/// "X", and the octet 0 with the tag 1.
const TEXT: Sample = Sample {
    name: "one_profile",
    shape: None,
    order: Order::Big,
    at: 0,
    octets: b"IOR:00000000000000025800000000000001000000010000000100",
    gives: Gives::Value("Ior { type_id: [88], profiles: [Tagged { tag: 1, octets: [0] }] }"),
};

/// Texts of references.
pub static TEXTS: [Sample; 1] = [TEXT];

/// The count of the profiles is missing after "A".
const TEXT_FAULT: Sample = Sample {
    name: "count",
    shape: None,
    order: Order::Big,
    at: 0,
    octets: b"IOR:0000000000000002410000",
    gives: Gives::Fault(Fault {
        kind: Kind::Short,
        at: 12,
    }),
};

/// Texts of octets that are faulty after a part of a reference.
pub static TEXT_FAULTS: [Sample; 1] = [TEXT_FAULT];

/// A profile of 1.0: the host "h", the port 1 and the key "c".
const PROFILE_1_0: Sample = Sample {
    name: "without_components",
    shape: None,
    order: Order::Big,
    at: 0,
    octets: &[0, 1, 0, 0, 0, 0, 0, 2, b'h', 0, 0, 1, 0, 0, 0, 1, b'c'],
    gives: Gives::Value(
        "IiopProfile { minor: 0, host: [104], port: 1, object_key: [99], components: [] }",
    ),
};

/// A profile of 1.1 with the octet 0 as a component.
const PROFILE_1_1: Sample = Sample {
    name: "one_component",
    shape: None,
    order: Order::Big,
    at: 0,
    octets: &[
        0, 1, 1, 0, 0, 0, 0, 2, b'h', 0, 0, 1, 0, 0, 0, 1, b'c', 0, 0, 0, 0, 0, 0, 1, 0, 0, 0, 1,
        0, 0, 0, 1, 0,
    ],
    gives: Gives::Value(
        "IiopProfile { minor: 1, host: [104], port: 1, object_key: [99], components: [Tagged { tag: 1, octets: [0] }] }",
    ),
};

/// IIOP profiles.
pub static PROFILES: [Sample; 2] = [PROFILE_1_0, PROFILE_1_1];

/// The second component is missing.
const PROFILE_FAULT: Sample = Sample {
    name: "second_component",
    shape: None,
    order: Order::Big,
    at: 0,
    octets: &[
        0, 1, 1, 0, 0, 0, 0, 2, b'h', 0, 0, 1, 0, 0, 0, 1, b'c', 0, 0, 0, 0, 0, 0, 2, 0, 0, 0, 1,
        0, 0, 0, 1, 0,
    ],
    gives: Gives::Fault(Fault {
        kind: Kind::Short,
        at: 36,
    }),
};

/// Octets that are faulty after a component of a profile.
pub static PROFILE_FAULTS: [Sample; 1] = [PROFILE_FAULT];
