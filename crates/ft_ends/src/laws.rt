//! Laws over the definitions: each is what a function with an empty body ensures. `S.meaning` is what a servant means.

ghost use Rattle.ft_ends.specs.Laws.{AnswersAreShort, BothEndsActOnce, CallsAreOfSteps, DirectionsAreFaithful, TellingsAreWritten};
ghost use Rattle.ft_ends.specs.Private.{ClientLaws};

use ft_objects::Servant;

/// What an event makes a server write are the octets of messages: a reply to each request that it completes and that
/// wishes for one, and then MessageError or CloseConnection, if the connection ends.
pub fn tellings_are_written<S: Servant>()
    ensures { TellingsAreWritten S.meaning }
{}

/// The body of each answer of a server takes at most 1,048,576 octets, whatever arrived before.
pub fn answers_are_short<S: Servant>()
    ensures { AnswersAreShort S.meaning }
{
    cdr_core::laws::spelled_fits();
    ft_orb::laws::calls_are_asked();
}

/// Nothing is heard on either direction but what was said: of requests and cancels that clients write a server hears a
/// front of what they say, with the key of each request, and of what a server writes each client hears a front.
pub fn directions_are_faithful()
    ensures { DirectionsAreFaithful }
{
    giop_link::laws::streams_are_heard::<giop_link::Client>();
    giop_link::laws::messages_go_out();
    giop_link::laws::written_messages_are_heard::<giop_link::Server>();
    giop_link::laws::written_messages_are_heard::<giop_link::Client>();
}

/// The calls that a client made in a schedule are among those that its steps have it make, in order.
pub fn calls_are_of_steps()
    ensures { CallsAreOfSteps }
{}

/// What holds of each client, whatever happens to it.
pub(crate) fn clients_keep_their_laws()
    ensures { ClientLaws }
{
    ft_client::laws::a_call_completes_once();
    ft_client::laws::a_life_goes_on();
    ft_client::laws::requests_are_as_long();
}

/// Over every schedule both ends act as one: each completion with a reply is the outcome of the one performance of its
/// call, or a refusal of a transmission of it that was not performed.
pub fn both_ends_act_once<S: Servant>()
    ensures { BothEndsActOnce S.meaning }
{
    giop_link::laws::streams_are_heard::<giop_link::Server>();
    clients_keep_their_laws();
    ft_orb::laws::keys_act_once::<S>();
    answers_are_short::<S>();
    directions_are_faithful();
}
