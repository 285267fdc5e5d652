//! What is set of a client.

use crate::calling::Calling;
use crate::named::{cuts_of, limits_of, truth_of, version_of};
use crate::refusal::Refusal;
use crate::terms::in_32_bits;
use giop_core::Version;
use giop_frames::Limits;

impl Calling {
    ghost use Rattle.std.specs.Prelude.{Some};
    ghost use Rattle.std.specs.Option.{option_map};
    ghost use Rattle.ft_client.specs.Clients.{Kept, KeptForwards};
    ghost use Rattle.lemonrudder.specs.Calls.{Standing, Stands};
    ghost use Rattle.lemonrudder.specs.Naming.{cuts_named, truth_named, version_named};
    ghost use Rattle.lemonrudder.specs.Adjusts.{Makes, MakesLimited, OnSet, Sets, cuts, keeping, message, partials, version};

    /// Sets what a client keeps, or what it is made with.
    pub fn set(&mut self, what: u32, value: u64) -> Result<u64, Refusal>
        ensures { OnSet what value self.old self.new result }
    {
        match what {
            1 => self.keep_transient(value),
            2 => self.keep_forwards(value),
            3 => self.set_version(value),
            4 => self.set_message(value),
            5 => self.set_partials(value),
            6 => self.set_cuts(value),
            _ => Err(Refusal::Range),
        }
    }

    /// Whether TRANSIENT leaves calls pending from now on.
    fn keep_transient(&mut self, value: u64) -> Result<u64, Refusal>
        ensures { Sets (option_map (λ keeps. keeping (Kept keeps)) (truth_named value)) self.old self.new result }
    {
        let keeps = truth_of(value)?;
        self.client.keep_on_transient(keeps);
        Ok(0)
    }

    /// Whether a forward leaves its call pending from now on.
    fn keep_forwards(&mut self, value: u64) -> Result<u64, Refusal>
        ensures { Sets (option_map (λ keeps. keeping (KeptForwards keeps)) (truth_named value)) self.old self.new result }
    {
        let keeps = truth_of(value)?;
        self.client.keep_on_forward(keeps);
        Ok(0)
    }

    /// The version of its messages.
    fn set_version(&mut self, value: u64) -> Result<u64, Refusal>
        ensures { Sets (option_map version (version_named value)) self.old self.new result }
    {
        let version = version_of(in_32_bits(value)?)?;
        let limits = self.client.limits();
        self.make_with(version, limits)
    }

    /// How many octets a message may have that comes.
    fn set_message(&mut self, value: u64) -> Result<u64, Refusal>
        ensures { Sets (Some (message value)) self.old self.new result }
    {
        let partials = self.client.limits().partials;
        self.limit(in_32_bits(value)?, u32::from(partials))
    }

    /// How many messages may be partial at a time.
    fn set_partials(&mut self, value: u64) -> Result<u64, Refusal>
        ensures { Sets (Some (partials value)) self.old self.new result }
    {
        let message = self.client.limits().message;
        self.limit(message, in_32_bits(value)?)
    }

    /// Where a message of 1.1 may be cut.
    fn set_cuts(&mut self, value: u64) -> Result<u64, Refusal>
        ensures { Sets (option_map cuts (cuts_named value)) self.old self.new result }
    {
        let cuts = cuts_of(value)?;
        let limits = self.client.limits().with_cuts(cuts);
        let version = self.client.version();
        self.make_with(version, limits)
    }

    /// The limits of its connections, with the same cuts.
    fn limit(&mut self, message: u32, partials: u32) -> Result<u64, Refusal>
        ensures { (x : Standing) → Stands self.old x → MakesLimited message partials x self.new result }
    {
        let cuts = self.client.limits().cuts;
        let limits = limits_of(message, partials, cuts)?;
        let version = self.client.version();
        self.make_with(version, limits)
    }

    /// What a client is made with that is unused.
    fn make_with(&mut self, version: Version, limits: Limits) -> Result<u64, Refusal>
        ensures { (x : Standing) → Stands self.old x → Makes version limits x self.new result }
    {
        if !self.client.make_with(version, limits) {
            return Err(Refusal::Open);
        }
        Ok(0)
    }
}
