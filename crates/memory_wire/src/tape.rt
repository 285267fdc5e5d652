//! What a wire in memory has done.

ghost use Rattle.std.specs.Prelude.{◌≡◌, ◌++◌, ◌≤◌, [], ◌∷◌, Ok, length};
ghost use Rattle.ft_orb.specs.Wires.{IfKnown, act_of_read, act_of_write};
ghost use Rattle.memory_wire.specs.Tapes.{act_of, said_by};

use std::alloc::Global;

/// What one call of a wire did.
#[derive(Drop)]
pub enum Act {
    /// A read gave octets.
    Gave(Vec<u8>),
    /// A read gave none.
    GaveNone,
    /// A read failed.
    ReadFailed,
    /// A write took octets.
    Took(Vec<u8>),
    /// A write took none.
    TookNone,
    /// A write failed.
    WriteFailed,
}

/// A tape with one act more. None where it can't be written down.
pub(crate) fn with_act(tape: Option<Vec<Act>>, act: Act) -> Option<Vec<Act>>
    ensures { IfKnown (λ before now. now ≡ before ++ act_of act ∷ []) (said_by tape) (said_by result) }
{
    let mut tape = tape?;
    tape.push(act).ok()?;
    Some(tape)
}

/// A tape with a read of so many octets into a buffer. None where it can't be written down.
pub(crate) fn with_read(
    alloc: Global,
    tape: Option<Vec<Act>>,
    buffer: &[u8],
    n: usize,
) -> Option<Vec<Act>>
    requires { n ≤ length buffer.now }
    ensures { IfKnown (λ before now. now ≡ before ++ act_of_read buffer.now (Ok n) ∷ []) (said_by tape) (said_by result) }
{
    if n == 0 {
        return with_act(tape, Act::GaveNone);
    }
    let octets = Vec::from_slice(alloc, &buffer[..n]).ok()?;
    with_act(tape, Act::Gave(octets))
}

/// A tape with a write that took so many of the octets. None where it can't be written down.
pub(crate) fn with_write(
    alloc: Global,
    tape: Option<Vec<Act>>,
    octets: &[u8],
    n: usize,
) -> Option<Vec<Act>>
    requires { n ≤ length octets.now }
    ensures { IfKnown (λ before now. now ≡ before ++ act_of_write octets.now (Ok n) ∷ []) (said_by tape) (said_by result) }
{
    if n == 0 {
        return with_act(tape, Act::TookNone);
    }
    let taken = Vec::from_slice(alloc, &octets[..n]).ok()?;
    with_act(tape, Act::Took(taken))
}
