//! Messages of GIOP 1.2, and a reference.

/// A Request without contexts: `add` with 7, of the object with the key `c`.
pub(crate) const ADD: [u8; 52] = [
    0x47, 0x49, 0x4f, 0x50, 1, 2, 0, 0, 0, 0, 0, 0x28, 0, 0, 0, 5, 3, 0, 0, 0, 0, 0, 0, 0, 0, 0, 0,
    1, 0x63, 0, 0, 0, 0, 0, 0, 4, 0x61, 0x64, 0x64, 0, 0, 0, 0, 0, 0, 0, 0, 0, 0, 0, 0, 7,
];

/// The same with an FT_REQUEST context.
pub(crate) const REQUEST: [u8; 84] = [
    0x47, 0x49, 0x4f, 0x50, 1, 2, 0, 0, 0, 0, 0, 0x48, 0, 0, 0, 5, 3, 0, 0, 0, 0, 0, 0, 0, 0, 0, 0,
    1, 0x63, 0, 0, 0, 0, 0, 0, 4, 0x61, 0x64, 0x64, 0, 0, 0, 0, 1, 0, 0, 0, 0x0d, 0, 0, 0, 0x18, 0,
    0, 0, 0, 0, 0, 0, 2, 0x41, 0, 0, 0, 0, 0, 0, 1, 0, 0, 0, 0, 0, 0, 0, 0x64, 0, 0, 0, 0, 0, 0, 0,
    7,
];

/// The same of a client whose id has 32 octets.
pub(crate) const CLIENT_REQUEST: [u8; 116] = [
    0x47, 0x49, 0x4f, 0x50, 1, 2, 0, 0, 0, 0, 0, 0x68, 0, 0, 0, 5, 3, 0, 0, 0, 0, 0, 0, 0, 0, 0, 0,
    1, 0x63, 0, 0, 0, 0, 0, 0, 4, 0x61, 0x64, 0x64, 0, 0, 0, 0, 1, 0, 0, 0, 0x0d, 0, 0, 0, 0x38, 0,
    0, 0, 0, 0, 0, 0, 0x21, 0x40, 0x40, 0x40, 0x40, 0x40, 0x40, 0x40, 0x40, 0x2d, 0x63, 0x6c, 0x69,
    0x65, 0x6e, 0x74, 0x2d, 0x6f, 0x66, 0x2d, 0x74, 0x68, 0x65, 0x2d, 0x62, 0x65, 0x6e, 0x63, 0x68,
    0x6d, 0x61, 0x72, 0x6b, 0, 0, 0, 0, 0, 0, 0, 1, 0, 0, 0, 0, 0, 0, 0, 0x64, 0, 0, 0, 0, 0, 0, 0,
    7,
];

/// A Reply whose body is 7.
pub(crate) const REPLY: [u8; 28] = [
    0x47, 0x49, 0x4f, 0x50, 1, 2, 0, 1, 0, 0, 0, 0x10, 0, 0, 0, 5, 0, 0, 0, 0, 0, 0, 0, 0, 0, 0, 0,
    7,
];

/// A LocateRequest of the same key.
pub(crate) const LOCATE: [u8; 25] = [
    0x47, 0x49, 0x4f, 0x50, 1, 2, 0, 3, 0, 0, 0, 0x0d, 0, 0, 0, 1, 0, 0, 0, 0, 0, 0, 0, 1, 0x63,
];

/// A reference with one profile and one component.
pub(crate) const REFERENCE: &str =
    "IOR:000000000000001049444c3a436f756e7465723a312e300000000001000000000000002c000102000000000a3132372e302e302e31000af900000000016300000000000001000000010000000400000007";
