//! The two sides of a connection.

ghost use Rattle.std.specs.Prelude.{◌≡◌};
ghost use Rattle.giop_tap.specs.Pairing.{is_same, peer};

use std::fmt;

/// A side of a connection, as the one that sends.
#[derive(Clone, Copy, Debug, PartialEq, Eq, PartialOrd, Ord)]
pub enum Sender {
    /// The side that opened the connection.
    Opener,
    /// The side that accepted it.
    Acceptor,
}

/// `>` for the side that opened the connection, `<` for the one that accepted it.
impl fmt::Display for Sender {
    fn fmt<W: fmt::Write>(&self, f: &mut fmt::Formatter<W>) -> fmt::Result {
        match self {
            Sender::Opener => f.write_str(">"),
            Sender::Acceptor => f.write_str("<"),
        }
    }
}

impl Sender {
    /// The other side.
    pub fn peer(self) -> Sender
        ensures { result ≡ peer self }
    {
        match self {
            Sender::Opener => Sender::Acceptor,
            Sender::Acceptor => Sender::Opener,
        }
    }

    /// Whether two sides are one.
    pub(crate) fn is_same(self, other: Sender) -> bool
        ensures { result ≡ is_same self other }
    {
        matches!(
            (self, other),
            (Sender::Opener, Sender::Opener) | (Sender::Acceptor, Sender::Acceptor)
        )
    }
}
