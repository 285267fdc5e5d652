//! Frames written out by hand, and what is told of each as a stream.

use cdr_core::{Fault, Kind};
use giop_core::{HeaderFault, MessageFault};
use giop_frames::StreamFault;

/// What is told of a message: its fault, its request id where that is known, how many octets have come of it after its header, where its first frame begins,
/// and where it was cut.
#[derive(Clone, Copy)]
pub(crate) struct Told {
    pub fault: Option<StreamFault>,
    pub id: Option<u32>,
    pub octets: usize,
    pub begins: u64,
    pub cuts: &'static [u32],
}

/// Frames, what is told of them, and the fault by which the stream ends.
pub(crate) struct Row {
    pub frames: &'static [&'static [u8]],
    pub told: &'static [Told],
    pub fault: Option<StreamFault>,
}

pub(crate) static ROWS: [Row; 10] = [
    // A message at fault is no fault of others: a status that is none, and a first frame of four octets more than may be
    // cut there, whose Fragment is passed over.
    Row {
        frames: &[
            b"GIOP\x01\x02\x02\x01\x00\x00\x00\x0c\x00\x00\x00\x05\x00\x00\x00c\x00\x00\x00\x00",
            b"GIOP\x01\x02\x02\x01\x00\x00\x00\x0c\x00\x00\x00\x06\x00\x00\x00\x00\x00\x00\x00\x00",
            b"GIOP\x01\x02\x00\x07\x00\x00\x00\x08\x00\x00\x00\x05\x01\x02\x03\x04",
            b"GIOP\x01\x02\x00\x07\x00\x00\x00\x08\x00\x00\x00\x06\x01\x02\x03\x04",
            b"GIOP\x01\x02\x00\x01\x00\x00\x00\x0c\x00\x00\x00\x07\x00\x00\x00c\x00\x00\x00\x00",
            b"GIOP\x01\x02\x00\x01\x00\x00\x00\x0c\x00\x00\x00\x08\x00\x00\x00\x00\x00\x00\x00\x00",
            b"GIOP\x01\x02\x02\x01\x00\x00\x00\x10\x00\x00\x00\x09\x00\x00\x00\x00\x00\x00\x00\x00\x01\x01\x01\x01",
            b"GIOP\x01\x02\x00\x07\x00\x00\x00\x08\x00\x00\x00\x09\x01\x02\x03\x04",
            b"GIOP\x01\x02\x00\x01\x00\x00\x00\x0c\x00\x00\x00\x0a\x00\x00\x00\x00\x00\x00\x00\x00",
        ],
        told: &[
            Told {
                fault: Some(StreamFault::Body(MessageFault::Cdr(Fault {
                    kind: Kind::BadEnum,
                    at: 16,
                }))),
                id: Some(5),
                octets: 16,
                begins: 0,
                cuts: &[24],
            },
            Told {
                fault: None,
                id: Some(6),
                octets: 16,
                begins: 24,
                cuts: &[24],
            },
            Told {
                fault: Some(StreamFault::Body(MessageFault::Cdr(Fault {
                    kind: Kind::BadEnum,
                    at: 16,
                }))),
                id: Some(7),
                octets: 12,
                begins: 88,
                cuts: &[],
            },
            Told {
                fault: None,
                id: Some(8),
                octets: 12,
                begins: 112,
                cuts: &[],
            },
            Told {
                fault: Some(StreamFault::UnalignedFragment),
                id: Some(9),
                octets: 16,
                begins: 136,
                cuts: &[],
            },
            Told {
                fault: None,
                id: Some(10),
                octets: 12,
                begins: 184,
                cuts: &[],
            },
        ],
        fault: None,
    },
    // A message of 1.1 has its cuts.
    Row {
        frames: &[
            b"GIOP\x01\x01\x00\x01\x00\x00\x00\x0c\x00\x00\x00\x00\x00\x00\x00\x05\x00\x00\x00\x00",
            b"GIOP\x01\x01\x02\x01\x00\x00\x00\x0c\x00\x00\x00\x00\x00\x00\x00\x06\x00\x00\x00\x00",
            b"GIOP\x01\x01\x02\x07\x00\x00\x00\x05\x01\x01\x01\x01\x01",
            b"GIOP\x01\x01\x02\x07\x00\x00\x00\x03\x02\x02\x02",
            b"GIOP\x01\x01\x00\x07\x00\x00\x00\x00",
            b"GIOP\x01\x01\x02\x01\x00\x00\x00\x0c\x00\x00\x00\x00\x00\x00\x00\x07\x00\x00\x00\x00",
            b"GIOP\x01\x01\x00\x07\x00\x00\x00\x09\x03\x03\x03\x03\x03\x03\x03\x03\x03",
            b"GIOP\x01\x01\x00\x01\x00\x00\x00\x0c\x00\x00\x00\x00\x00\x00\x00\x08\x00\x00\x00\x00",
        ],
        told: &[
            Told {
                fault: None,
                id: Some(5),
                octets: 12,
                begins: 0,
                cuts: &[],
            },
            Told {
                fault: None,
                id: Some(6),
                octets: 20,
                begins: 24,
                cuts: &[24, 29, 32],
            },
            Told {
                fault: None,
                id: Some(7),
                octets: 21,
                begins: 92,
                cuts: &[24],
            },
            Told {
                fault: None,
                id: Some(8),
                octets: 12,
                begins: 137,
                cuts: &[],
            },
        ],
        fault: None,
    },
    // A fault of a message of 1.1: the order changes.
    Row {
        frames: &[
            b"GIOP\x01\x01\x02\x01\x00\x00\x00\x0c\x00\x00\x00\x00\x00\x00\x00\x05\x00\x00\x00\x00",
            b"GIOP\x01\x01\x03\x07\x00\x00\x00\x00",
            b"GIOP\x01\x01\x02\x07\x00\x00\x00\x04\x01\x01\x01\x01",
            b"GIOP\x01\x01\x00\x07\x00\x00\x00\x00",
            b"GIOP\x01\x01\x02\x01\x00\x00\x00\x0c\x00\x00\x00\x00\x00\x00\x00\x06\x00\x00\x00\x00",
            b"GIOP\x01\x01\x00\x07\x00\x00\x00\x00",
        ],
        told: &[
            Told {
                fault: Some(StreamFault::MixedOrder),
                id: Some(5),
                octets: 12,
                begins: 0,
                cuts: &[],
            },
            Told {
                fault: None,
                id: Some(6),
                octets: 12,
                begins: 64,
                cuts: &[24],
            },
        ],
        fault: None,
    },
    // One too many that is partial.
    Row {
        frames: &[
            b"GIOP\x01\x02\x02\x01\x00\x00\x00\x0c\x00\x00\x00\x01\x00\x00\x00\x00\x00\x00\x00\x00",
            b"GIOP\x01\x02\x02\x01\x00\x00\x00\x0c\x00\x00\x00\x02\x00\x00\x00\x00\x00\x00\x00\x00",
            b"GIOP\x01\x02\x02\x01\x00\x00\x00\x0c\x00\x00\x00\x03\x00\x00\x00\x00\x00\x00\x00\x00",
            b"GIOP\x01\x02\x00\x07\x00\x00\x00\x08\x00\x00\x00\x03\x01\x02\x03\x04",
            b"GIOP\x01\x02\x00\x07\x00\x00\x00\x08\x00\x00\x00\x01\x01\x02\x03\x04",
            b"GIOP\x01\x02\x00\x07\x00\x00\x00\x08\x00\x00\x00\x02\x01\x02\x03\x04",
        ],
        told: &[
            Told {
                fault: Some(StreamFault::TooManyPartial),
                id: Some(3),
                octets: 12,
                begins: 48,
                cuts: &[],
            },
            Told {
                fault: None,
                id: Some(1),
                octets: 16,
                begins: 0,
                cuts: &[24],
            },
            Told {
                fault: None,
                id: Some(2),
                octets: 16,
                begins: 24,
                cuts: &[24],
            },
        ],
        fault: None,
    },
    // What has no place, or does not read, and what follows it.
    Row {
        frames: &[
            b"GIOP\x01\x02\x00\x07\x00\x00\x00\x08\x00\x00\x00\x05\x01\x02\x03\x04",
            b"GIOP\x01\x00\x00\x01\x00\x00\x00\x04\x00\x00\x00\x01",
            b"GIOP\x01\x02\x00\x01\x00\x00\x00\x02\x00\x00",
            b"GIOP\x01\x02\x00\x07\x00\x00\x00\x02\x00\x00",
            b"GIOP\x01\x02\x00\x01\x00\x00\x00\x0c\x00\x00\x00\x06\x00\x00\x00\x00\x00\x00\x00\x00",
        ],
        told: &[
            Told {
                fault: Some(StreamFault::StrayFragment),
                id: Some(5),
                octets: 8,
                begins: 0,
                cuts: &[],
            },
            Told {
                fault: Some(StreamFault::Body(MessageFault::Cdr(Fault {
                    kind: Kind::Short,
                    at: 16,
                }))),
                id: None,
                octets: 4,
                begins: 20,
                cuts: &[],
            },
            Told {
                fault: Some(StreamFault::Body(MessageFault::Cdr(Fault {
                    kind: Kind::Short,
                    at: 12,
                }))),
                id: None,
                octets: 2,
                begins: 36,
                cuts: &[],
            },
            Told {
                fault: Some(StreamFault::Body(MessageFault::Cdr(Fault {
                    kind: Kind::Short,
                    at: 12,
                }))),
                id: None,
                octets: 2,
                begins: 50,
                cuts: &[],
            },
            Told {
                fault: None,
                id: Some(6),
                octets: 12,
                begins: 64,
                cuts: &[],
            },
        ],
        fault: None,
    },
    // A first frame begins its message anew; a CancelRequest drops what has come of one.
    Row {
        frames: &[
            b"GIOP\x01\x02\x02\x01\x00\x00\x00\x0c\x00\x00\x00\x05\x00\x00\x00c\x00\x00\x00\x00",
            b"GIOP\x01\x02\x02\x01\x00\x00\x00\x0c\x00\x00\x00\x05\x00\x00\x00\x00\x00\x00\x00\x00",
            b"GIOP\x01\x02\x00\x07\x00\x00\x00\x08\x00\x00\x00\x05\x01\x02\x03\x04",
            b"GIOP\x01\x02\x02\x01\x00\x00\x00\x0c\x00\x00\x00\x06\x00\x00\x00\x00\x00\x00\x00\x00",
            b"GIOP\x01\x02\x00\x02\x00\x00\x00\x04\x00\x00\x00\x06",
            b"GIOP\x01\x02\x00\x07\x00\x00\x00\x08\x00\x00\x00\x06\x01\x02\x03\x04",
            b"GIOP\x01\x01\x02\x01\x00\x00\x00\x0c\x00\x00\x00\x00\x00\x00\x00\x07\x00\x00\x00\x00",
            b"GIOP\x01\x01\x02\x01\x00\x00\x00\x0c\x00\x00\x00\x00\x00\x00\x00\x08\x00\x00\x00\x00",
            b"GIOP\x01\x01\x00\x07\x00\x00\x00\x00",
        ],
        told: &[
            Told {
                fault: None,
                id: Some(5),
                octets: 16,
                begins: 24,
                cuts: &[24],
            },
            Told {
                fault: None,
                id: Some(6),
                octets: 4,
                begins: 92,
                cuts: &[],
            },
            Told {
                fault: Some(StreamFault::StrayFragment),
                id: Some(6),
                octets: 8,
                begins: 108,
                cuts: &[],
            },
            Told {
                fault: None,
                id: Some(8),
                octets: 12,
                begins: 152,
                cuts: &[24],
            },
        ],
        fault: None,
    },
    // Fragments that are passed over end with the last.
    Row {
        frames: &[
            b"GIOP\x01\x02\x02\x01\x00\x00\x00\x10\x00\x00\x00\x09\x00\x00\x00\x00\x00\x00\x00\x00\x01\x01\x01\x01",
            b"GIOP\x01\x02\x02\x07\x00\x00\x00\x04\x00\x00\x00\x09",
            b"GIOP\x01\x02\x00\x07\x00\x00\x00\x08\x00\x00\x00\x09\x01\x02\x03\x04",
            b"GIOP\x01\x02\x00\x07\x00\x00\x00\x08\x00\x00\x00\x09\x01\x02\x03\x04",
        ],
        told: &[
            Told {
                fault: Some(StreamFault::UnalignedFragment),
                id: Some(9),
                octets: 16,
                begins: 0,
                cuts: &[],
            },
            Told {
                fault: Some(StreamFault::StrayFragment),
                id: Some(9),
                octets: 8,
                begins: 64,
                cuts: &[],
            },
        ],
        fault: None,
    },
    // A version that is none.
    Row {
        frames: &[
            b"GIOP\x01\x02\x00\x01\x00\x00\x00\x0c\x00\x00\x00\x05\x00\x00\x00\x00\x00\x00\x00\x00",
            b"GIOP\x01\x03\x00\x01\x00\x00\x00\x0c\x00\x00\x00\x00\x00\x00\x00\x00\x00\x00\x00\x00",
        ],
        told: &[Told {
            fault: None,
            id: Some(5),
            octets: 12,
            begins: 0,
            cuts: &[],
        }],
        fault: Some(StreamFault::Header(HeaderFault::BadVersion)),
    },
    // A type that is none.
    Row {
        frames: &[
            b"GIOP\x01\x02\x00\x09\x00\x00\x00\x0c\x00\x00\x00\x00\x00\x00\x00\x00\x00\x00\x00\x00",
        ],
        told: &[],
        fault: Some(StreamFault::Header(HeaderFault::BadType)),
    },
    // No GIOP.
    Row {
        frames: &[b"GIOQ\x01\x02\x00\x00\x00\x00\x00\x00"],
        told: &[],
        fault: Some(StreamFault::Header(HeaderFault::BadMagic)),
    },
];
