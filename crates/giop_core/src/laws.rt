//! Laws over the definitions: each is what a function with an empty body ensures.

ghost use Rattle.giop_core.specs.Laws.{AbsentFtIsNowhere, BodiesAreBacks, CancelsHaveOneSize, HeadersAreReadAgain, LocateRepliesHaveOneSize, MessagesAreSpelled, OctetsBodiesAreAsLong, OctetsBodiesAreOctets, OctetsBodiesCanBeWritten, PresentFtIsSpelled, ReadMessagesAreReadAgain, ReadMessagesCanBeWritten, RefusedMessagesStop, RepliesHaveOneSize, RequestsHaveOneSize, SpelledMessagesAreRead, StoppingMessagesAreRefused, UnknownTargetsStop, WrittenCancelIsRead, WrittenFtIsPresent, WrittenLocateReplyIsRead, WrittenLocateRequestIsRead, WrittenReplyIsRead, WrittenRequestCarriesFt, WrittenRequestIsRead};

/// Reading gives the message that the grammar says the octets are, and gives it wherever there is
/// one.
#[tactic(auto, using(crate::proofs::Spelled::message_found))]
pub fn messages_are_spelled()
    ensures spelled { MessagesAreSpelled }
    ensures read { SpelledMessagesAreRead }
{
    cdr_core::laws::read_is_spelled();
    cdr_core::laws::spelled_is_read();
}

/// The body of a message that is read is a back part of its octets.
pub fn bodies_are_backs()
    ensures { BodiesAreBacks }
{}

/// What is refused has that fault by the grammar, and what has a fault by the grammar is refused with
/// it. The discriminator of a target is unknown exactly where it is neither 0, 1 nor 2.
pub fn refused_messages_stop()
    ensures stop { RefusedMessagesStop }
    ensures refused { StoppingMessagesAreRefused }
    ensures unknown { UnknownTargetsStop }
{
    cdr_core::laws::read_is_spelled();
    cdr_core::laws::spelled_is_read();
    cdr_core::laws::faults_stop();
}

/// A message that is written is read as the same message.
pub fn written_is_read()
    ensures request { WrittenRequestIsRead }
    ensures reply { WrittenReplyIsRead }
    ensures cancel { WrittenCancelIsRead }
    ensures locate_request { WrittenLocateRequestIsRead }
    ensures locate_reply { WrittenLocateReplyIsRead }
{
    cdr_core::laws::spelled_is_read();
    cdr_core::laws::written_is_spelled();
}

/// How many octets are written after the header: of a Reply without contexts, a LocateReply and a CancelRequest as
/// many in each version, and of a Request as many under each id.
pub fn written_sizes()
    ensures reply { RepliesHaveOneSize }
    ensures locate_reply { LocateRepliesHaveOneSize }
    ensures cancel { CancelsHaveOneSize }
    ensures request { RequestsHaveOneSize }
{}

/// A body that comes as octets: what is written of it is those octets at every place and in either order,
/// as many as there are, and it can be written where there are fewer than 2^32.
pub fn octets_bodies()
    ensures read { OctetsBodiesAreOctets }
    ensures long { OctetsBodiesAreAsLong }
    ensures writable { OctetsBodiesCanBeWritten }
{}

/// A message that was read meets what its writer asks, and written again it is read as the same message.
pub fn read_messages_can_be_written()
    ensures can { ReadMessagesCanBeWritten }
    ensures again { ReadMessagesAreReadAgain }
{
    cdr_core::laws::read_is_spelled();
    cdr_core::laws::spelled_fits();
    cdr_core::laws::spelled_is_read();
    cdr_core::laws::written_is_spelled();
}

/// FT_REQUEST is present exactly where the first context of its id is an encapsulation of its fields,
/// and absent exactly where no context has its id.
pub fn ft_is_spelled()
    ensures present { PresentFtIsSpelled }
    ensures absent { AbsentFtIsNowhere }
{
    cdr_core::laws::read_is_spelled();
    cdr_core::laws::spelled_is_read();
}

/// A written FT_REQUEST that is the first context of its id is present with its three fields.
pub fn written_ft_is_present()
    ensures { WrittenFtIsPresent }
{
    cdr_core::laws::spelled_is_read();
    cdr_core::laws::written_is_spelled();
}

/// A Request that is written with an FT_REQUEST as its one context carries that context, with its three fields.
pub fn written_requests_carry_ft()
    ensures { WrittenRequestCarriesFt }
{
    written_ft_is_present();
}

/// A possible header is read again from its octets.
#[tactic(auto, using(crate::proofs::HeaderLemmas::header_again))]
pub fn headers_are_read_again()
    ensures { HeadersAreReadAgain }
{}
