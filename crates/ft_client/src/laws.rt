//! Laws over the definitions: each is what a function with an empty body ensures.

ghost use Rattle.ft_client.specs.Laws.{CallsCompleteOnce, CallsKeepTheirKeys, IdsAreLeft, LivesGoOn, NumbersHaveNoGaps, RequestsAreAsLong, WaitingIsNotResent};
ghost use Rattle.ft_client.specs.Restarting.{RestartsAreLosses};

/// Whatever happens to a client: each call is pending or was completed once, and each transmission of it carries its
/// content, none past its expiration.
pub fn a_call_completes_once()
    ensures { CallsCompleteOnce }
{}

/// Whatever happens to a client: each transmission of a call asks for it under its own object key, or under one that a
/// redirection of that call gave.
pub fn calls_keep_their_keys()
    ensures { CallsKeepTheirKeys }
{}

/// Where no call of before is taken up again and no number is skipped, each number up to the last was given a call.
pub fn numbers_have_no_gaps()
    ensures { NumbersHaveNoGaps }
{}

/// What holds of such a client holds after one happening more.
pub fn a_life_goes_on()
    ensures { LivesGoOn }
{}

/// The Request of a call, under whichever object key, is as long under each request id.
pub fn requests_are_as_long()
    ensures { RequestsAreAsLong }
{}

/// A link has given at most 2,147,483,648 ids more than the last number, which is a long: so an id is left for each call that is
/// taken.
pub fn ids_are_left()
    ensures { IdsAreLeft }
{}

/// A call that was sent on the link, and waits there for its reply, is not among what is sent again on it.
pub fn waiting_is_not_resent()
    ensures { WaitingIsNotResent }
{}

/// Whatever happened to a client: where it crashed once its completions were taken, and is started anew and takes up again what
/// was pending, none of it past its expiration, it is one that lost its connection. Where a call was led elsewhere, it is asked
/// for under its own object key again.
pub fn restarts_are_losses()
    ensures { RestartsAreLosses }
{}
