//! Messages that are longer than they may be, and those between.

use crate::passing::{LIMITS, feed_all};
use crate::rows::Told;
use giop_frames::StreamFault;
use giop_proxy::Frames;
use std::alloc::{AllocError, Global};
use std::process::Abort;
use std::test::Fail;

/// A Reply of 1.2 of id 6, whole.
const OTHER: &[u8] =
    b"GIOP\x01\x02\x00\x01\x00\x00\x00\x0c\x00\x00\x00\x06\x00\x00\x00\x00\x00\x00\x00\x00";

const OTHER_TOLD: Told = Told {
    fault: None,
    id: Some(6),
    octets: 12,
    begins: 0,
    cuts: &[],
};

/// How many octets a piece has.
static SIZES: [usize; 6] = [1, 7, 12, 4095, 4096, 65_536];

/// Appends the beginning of a frame, and as many octets as follow it.
fn put(stream: &mut Vec<u8>, head: &[u8], count: usize) -> Result<(), AllocError> {
    stream.extend_from_slice(head)?;
    for _ in 0..count {
        stream.push(3)?;
    }
    Ok(())
}

/// Asserts what is told of a stream in pieces of each size.
fn assert_told(rt: &(impl Abort + AllocGlobal), stream: &[u8], told: &[Told]) {
    for size in &SIZES {
        let (fault, tally) = feed_all(rt.alloc(), stream, told, *size);
        assert!(rt; fault.is_none() && tally.is_right, "in pieces of {size}");
        assert_eq!(rt; tally.count, told.len());
    }
}

/// A message of one frame of 4,097 octets, between others: of 1.2 in either order, of 1.1 and of 1.0.
fn one_frame(alloc: Global, head: &[u8]) -> Result<Vec<u8>, AllocError> {
    let mut stream = Vec::new(alloc);
    put(&mut stream, OTHER, 0)?;
    put(&mut stream, head, 4085)?;
    put(&mut stream, OTHER, 0)?;
    Ok(stream)
}

/// The header of a frame of 4,097 octets, and the request id that 3 in each octet after it gives: none where that says how many
/// service contexts there are.
static HEADS: [(&[u8], Option<u32>); 4] = [
    (b"GIOP\x01\x02\x00\x00\x00\x00\x0f\xf5", Some(0x0303_0303)),
    (b"GIOP\x01\x02\x01\x01\xf5\x0f\x00\x00", Some(0x0303_0303)),
    (b"GIOP\x01\x01\x00\x00\x00\x00\x0f\xf5", None),
    (b"GIOP\x01\x00\x01\x00\xf5\x0f\x00\x00", None),
];

#[test]
fn of_what_is_long_the_beginning_stays(rt: HostRuntime) -> Result<(), Fail> {
    for (head, id) in &HEADS {
        let told = [
            OTHER_TOLD,
            Told {
                fault: Some(StreamFault::TooLarge),
                id: *id,
                octets: 4084,
                begins: 24,
                cuts: &[],
            },
            Told {
                begins: 4121,
                ..OTHER_TOLD
            },
        ];
        let stream = one_frame(rt.alloc(), head)?;
        assert_told(&rt, stream.as_slice(), &told);
    }
    Ok(())
}

/// A message of 1.2 of id 5 whose first frame of 4,088 octets is within the limit and whose second is not, and two more
/// fragments, with others between.
fn fragments(alloc: Global) -> Result<Vec<u8>, AllocError> {
    let first =
        b"GIOP\x01\x02\x02\x01\x00\x00\x0f\xec\x00\x00\x00\x05\x00\x00\x00\x00\x00\x00\x00\x00";
    let next = b"GIOP\x01\x02\x02\x07\x00\x00\x00\x14\x00\x00\x00\x05";
    let last = b"GIOP\x01\x02\x00\x07\x00\x00\x00\x08\x00\x00\x00\x05";
    let mut stream = Vec::new(alloc);
    put(&mut stream, first, 4064)?;
    put(&mut stream, OTHER, 0)?;
    put(&mut stream, next, 16)?;
    put(&mut stream, OTHER, 0)?;
    put(&mut stream, next, 16)?;
    put(&mut stream, last, 4)?;
    put(&mut stream, OTHER, 0)?;
    Ok(stream)
}

#[test]
fn fragments_behind_those_that_fit_are_passed_over(rt: HostRuntime) -> Result<(), Fail> {
    let told = [
        Told {
            begins: 4088,
            ..OTHER_TOLD
        },
        Told {
            fault: Some(StreamFault::TooLarge),
            id: Some(5),
            octets: 4076,
            begins: 0,
            cuts: &[],
        },
        Told {
            begins: 4144,
            ..OTHER_TOLD
        },
        Told {
            begins: 4220,
            ..OTHER_TOLD
        },
    ];
    let stream = fragments(rt.alloc())?;
    assert_told(&rt, stream.as_slice(), &told);
    Ok(())
}

/// A first frame of 4,104 octets with the id 5, a Fragment, the last one, and another message.
fn first_frame(alloc: Global) -> Result<Vec<u8>, AllocError> {
    let first = b"GIOP\x01\x02\x02\x00\x00\x00\x0f\xfc\x00\x00\x00\x05";
    let next = b"GIOP\x01\x02\x02\x07\x00\x00\x00\x0c\x00\x00\x00\x05";
    let last = b"GIOP\x01\x02\x00\x07\x00\x00\x00\x05\x00\x00\x00\x05";
    let mut stream = Vec::new(alloc);
    put(&mut stream, first, 4088)?;
    put(&mut stream, next, 8)?;
    put(&mut stream, last, 1)?;
    put(&mut stream, OTHER, 0)?;
    Ok(stream)
}

#[test]
fn a_first_frame_that_is_too_long_has_no_fragments(rt: HostRuntime) -> Result<(), Fail> {
    let told = [
        Told {
            fault: Some(StreamFault::TooLarge),
            id: Some(5),
            octets: 4084,
            begins: 0,
            cuts: &[],
        },
        Told {
            begins: 4145,
            ..OTHER_TOLD
        },
    ];
    let stream = first_frame(rt.alloc())?;
    assert_told(&rt, stream.as_slice(), &told);
    Ok(())
}

#[test]
fn a_beginning_is_lent_before_the_rest_has_come(rt: HostRuntime) -> Result<(), Fail> {
    let mut stream = Vec::new(rt.alloc());
    put(&mut stream, b"GIOP\x01\x02\x00\x00\x00\x00\x0f\xf5", 4084)?;
    let mut frames = Frames::new(rt.alloc(), LIMITS);
    assert!(rt; frames.feed(stream.as_slice()) == Ok(4096));
    assert!(rt; frames.header().is_some() && frames.is_long() && frames.is_amid());
    assert!(rt; frames.octets().len() == 4084 && frames.held() == 4096);
    assert!(rt; frames.feed(b"\x03") == Ok(1));
    assert!(rt; frames.header().is_none() && !frames.is_amid() && frames.held() == 0);
    Ok(())
}
