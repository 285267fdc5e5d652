//! Laws over the definitions: each is what a function with an empty body ensures.

ghost use Rattle.giop_proxy.specs.PassingLaws.{FramesAreTheOnes};

/// A stream that is frames (GIOP 9.4.1), one after the other, and then octets of which nothing can be judged yet, has these
/// frames and no others, and of each so much is kept as it may have.
pub fn streams_are_frames()
    ensures { FramesAreTheOnes }
{}
