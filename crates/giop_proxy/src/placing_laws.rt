//! Laws over the definitions: each is what a function with an empty body ensures.

ghost use Rattle.giop_proxy.specs.Cuts.{CutIsReadAgain, CutsTakeHeaders};
ghost use Rattle.giop_proxy.specs.PlacingLaws.{PlacedRepliesAreRead, PlacedRepliesAreShort, PlacedRequestsAreRead, PlacedRequestsAreShort, RequestsHavePlaces};

/// A message that is written is read as the same message, and its body stands at its place.
pub fn placed_messages_are_read()
    ensures request { PlacedRequestsAreRead }
    ensures reply { PlacedRepliesAreRead }
{
    cdr_core::laws::spelled_is_read();
    cdr_core::laws::written_is_spelled();
    giop_core::laws::written_is_read();
}

/// In 1.0 and 1.1 the body of a Request may stand at every place.
pub fn requests_have_places()
    ensures { RequestsHavePlaces }
{}

/// No message with the body at its place is shorter, by the means by which it is moved.
pub fn placed_messages_are_short()
    ensures request { PlacedRequestsAreShort }
    ensures reply { PlacedRepliesAreShort }
{}

/// A message of 1.1 that is cut is read again, alone and whole.
pub fn cut_messages_are_read()
    ensures { CutIsReadAgain }
{
    giop_core::laws::headers_are_read_again();
}

/// Each cut adds the twelve octets of one header.
pub fn cuts_take_headers()
    ensures { CutsTakeHeaders }
{}
