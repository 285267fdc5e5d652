//! What a log keeps for a request.

ghost use Rattle.std.specs.Prelude.{◌≡◌, option_map};
ghost use Rattle.ft_log.specs.Holding.{number_of, performed_by};
ghost use Rattle.ft_log.specs.View.{holding_in, performed_in};

use crate::outcome::Outcome;

/// What is kept for a request: its outcome; or, where its call is parked and the outcome comes later, the number of that.
#[derive(Debug, Drop)]
pub enum Held {
    Known(Outcome),
    Parked(u64),
}

impl Held {
    /// The outcome, if it is there.
    pub fn outcome(&self) -> Option<&Outcome>
        ensures { option_map (λ o. performed_in o.now) result ≡ performed_by (holding_in self.now) }
    {
        match self {
            Held::Known(outcome) => Some(outcome),
            Held::Parked(_) => None,
        }
    }

    /// The number of the call, if it is parked.
    pub fn number(&self) -> Option<u64>
        ensures { result ≡ number_of (holding_in self.now) }
    {
        match self {
            Held::Known(_) => None,
            Held::Parked(number) => Some(*number),
        }
    }
}
