//! Laws over the definitions: each is what a function with an empty body ensures. Those of what is heard stand once,
//! for each `Side`.

ghost use Rattle.giop_link.specs.Laws.{AnswersAreByKind, CancelsGoOut, CompletedIsHeard, EndingsStay, EndsAreSilent, FarewellsGoOut, HeardIsMeant, HearingGrows, LocateRepliesGoOut, MeaningsAreByKind, MessagesAreHeard, NothingElseIsHeard, NothingIsSilent, RepliesGoOut, RequestsGoOut, WrittenIsHeard};

use crate::listener::Side;

/// Where nothing has come, nothing is heard. More octets add messages to what is heard and take none away; the
/// end of a stream stays, and after it nothing is heard.
pub fn streams_are_heard<S: Side>()
    ensures nothing { NothingIsSilent S.meaning }
    ensures grows { HearingGrows S.meaning }
    ensures stays { EndingsStay S.meaning }
    ensures silent { EndsAreSilent S.meaning }
{
    giop_frames::laws::streams_grow();
}

/// What is heard of a stream, and how it ends, are given by the messages of the stream, one by one, and by
/// nothing else.
pub fn messages_are_heard<S: Side>()
    ensures heard { MessagesAreHeard S.meaning }
    ensures only { NothingElseIsHeard S.meaning }
{}

/// A message that completes alone, as one does that is written, is heard, or the stream ends by it.
pub fn completed_messages_are_heard<S: Side>()
    ensures { CompletedIsHeard S.meaning }
{}

/// Which messages can go out, in either byte order, and so are heard as what they say: of a client Requests with
/// FT_REQUEST as their one context, which they carry, and CancelRequests; of a server Replies without contexts,
/// LocateReplies without a body, CloseConnection and MessageError.
pub fn messages_go_out()
    ensures request { RequestsGoOut }
    ensures cancel { CancelsGoOut }
    ensures reply { RepliesGoOut }
    ensures locate_reply { LocateRepliesGoOut }
    ensures farewell { FarewellsGoOut }
{
    giop_core::laws::written_requests_carry_ft();
    giop_core::laws::written_sizes();
}

/// The kind of each message of a stream says whether a server hears it, or how the stream ends by it.
pub fn meanings_are_by_kind()
    ensures { MeaningsAreByKind }
{
    giop_frames::laws::messages_are_whole();
}

/// The kind of each message of a stream says whether a client hears it, or how the stream ends by it.
pub fn answers_are_by_kind()
    ensures { AnswersAreByKind }
{
    giop_frames::laws::messages_are_whole();
}

/// What is heard of messages that are written one after another is what they say, up to the first that ends the
/// stream or is over the reader's limit: a front of what was meant.
pub fn written_messages_are_heard<S: Side>()
    ensures heard { WrittenIsHeard S.meaning }
    ensures meant { HeardIsMeant S.meaning }
{
    giop_core::laws::written_is_read();
    giop_frames::laws::lists_of_messages_are_read_again();
}
