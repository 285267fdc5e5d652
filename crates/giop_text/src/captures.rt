//! Files of captured packets, which are no messages.

/// What they begin with: those of pcap in either order, with moments in microseconds or nanoseconds, and those of pcapng.
const CAPTURES: [[u8; 4]; 5] = [
    [0xa1, 0xb2, 0xc3, 0xd4],
    [0xd4, 0xc3, 0xb2, 0xa1],
    [0xa1, 0xb2, 0x3c, 0x4d],
    [0x4d, 0x3c, 0xb2, 0xa1],
    [0x0a, 0x0d, 0x0d, 0x0a],
];

/// Tells whether octets are those of a file of captured packets, by the first four.
pub fn is_capture(octets: &[u8]) -> bool {
    CAPTURES.iter().any(|magic| octets.starts_with(magic))
}
