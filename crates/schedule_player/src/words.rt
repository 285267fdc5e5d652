//! Words of a line.

use giop_core::Version;
use giop_frames::Limits;
use std::alloc::Global;
use trials::Stop;

/// The words of a line, with one space between them.
pub(crate) fn words_of(alloc: Global, line: &str) -> Result<Vec<&str>, Stop> {
    let mut words = Vec::new(alloc);
    for word in line.split(' ') {
        words.push(word)?;
    }
    Ok(words)
}

/// An unsigned long.
pub(crate) fn ulong(word: &str) -> Result<u32, Stop> {
    word.parse().map_err(|_| Stop::BadLine)
}

/// A long.
pub(crate) fn long(word: &str) -> Result<i32, Stop> {
    word.parse().map_err(|_| Stop::BadLine)
}

/// A long long.
pub(crate) fn longlong(word: &str) -> Result<i64, Stop> {
    word.parse().map_err(|_| Stop::BadLine)
}

/// A moment.
pub(crate) fn moment(word: &str) -> Result<u64, Stop> {
    word.parse().map_err(|_| Stop::BadLine)
}

/// A version of GIOP.
pub(crate) fn version(word: &str) -> Result<Version, Stop> {
    match word {
        "1.0" => Ok(Version::V10),
        "1.1" => Ok(Version::V11),
        "1.2" => Ok(Version::V12),
        _ => Err(Stop::BadLine),
    }
}

/// The limits of a connection: how long a message may be, and how many may be partial.
pub(crate) fn limits(message: &str, partials: &str) -> Result<Limits, Stop> {
    let partials = partials.parse::<u8>().map_err(|_| Stop::BadLine)?;
    Limits::new(ulong(message)?, partials).ok_or(Stop::BadLine)
}
