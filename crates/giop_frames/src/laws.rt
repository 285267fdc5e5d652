//! Laws over the definitions: each is what a function with an empty body ensures.

ghost use Rattle.giop_core.specs.declared.header.Version.TheVariants.{V11, V12};
ghost use Rattle.giop_frames.specs.Laws.{ByPositionIsPartial, FaultsAreRefusals, FaultsEnd, FaultsStay, MessagesAreWhole, MessagesGrow, PartialByPosition, PartialsAreCounted, PlacesRise, RefusalsAreFaults, RefusedAreTheOnes, RestsHaveNoFrame, SplitsAreTheOnes, StreamsAreRefused, StreamsSplit};
ghost use Rattle.giop_frames.specs.ReadAgain.{CutIsReadAgain, NothingIsClear, SentAreReadAgain, SentAreReadUpToTheLimit, WrittenIsReadAgain, WrittenTooLarge};

/// A stream is its frames and a rest, or, where a header is refused, its frames and octets that begin with
/// that header, and no others.
pub fn streams_are_frames()
    ensures split { StreamsSplit }
    ensures only { SplitsAreTheOnes }
    ensures rest { RestsHaveNoFrame }
    ensures refused { StreamsAreRefused }
    ensures only_refused { RefusedAreTheOnes }
{}

/// A Fragment belongs to the last first frame of its key, the request id in 1.2, where no end and no cancel of
/// it stands between, and what has come of that message is that frame with the payloads of the Fragments since.
pub fn looking_back_is_by_positions()
    ensures found { PartialByPosition }
    ensures only { ByPositionIsPartial }
{}

/// More octets add messages to a stream and take none away; a fault stays, and no message completes after it.
pub fn streams_grow()
    ensures messages { MessagesGrow }
    ensures fault { FaultsStay }
    ensures end { FaultsEnd }
{}

/// Each message of a stream is valid, is whole and within the limit, and is no Fragment; the places where they
/// complete rise and lie within the stream.
pub fn messages_are_whole()
    ensures messages { MessagesAreWhole }
    ensures places { PlacesRise }
{}

/// The partial messages of a stream without a fault are as many as the keys that are started and not ended.
pub fn partials_are_counted()
    ensures { PartialsAreCounted }
{}

/// The fault of a stream is that of the first of its frames and headers that is refused.
pub fn faults_are_refusals()
    ensures refused { FaultsAreRefusals }
    ensures fault { RefusalsAreFaults }
{}

/// A whole message that is written is read again from a stream, alone and whole, where it is valid within the
/// limit and no message of its request id is partial, and none of 1.1; over the limit it is refused.
pub fn written_messages_are_read_again()
    ensures again { WrittenIsReadAgain }
    ensures large { WrittenTooLarge }
{
    giop_core::laws::headers_are_read_again();
}

/// Messages that are written one after another are read again, each whole and in its place, up to the first that
/// is over the limit, if one is.
pub fn lists_of_messages_are_read_again()
    ensures nothing { NothingIsClear }
    ensures again { SentAreReadAgain }
    ensures front { SentAreReadUpToTheLimit }
{
    giop_core::laws::headers_are_read_again();
}

/// A message that can be cut is read again from what `fragments`, or in 1.1 `fragments_11`, makes of it, alone
/// and whole, where no message of its request id is partial, none of 1.1, and one more may be, and it is valid
/// within the limit.
pub fn cut_messages_are_read_again()
    ensures in_1_2 { CutIsReadAgain V12 }
    ensures in_1_1 { CutIsReadAgain V11 }
{
    giop_core::laws::headers_are_read_again();
}
