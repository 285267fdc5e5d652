//! What a server has on offer, and its limits.

use crate::cataloguing::{Cataloguing, no_families};
use crate::refusal::Refusal;
use crate::serving::Serving;
use std::mem;

impl Serving {
    ghost use Rattle.lemonrudder.specs.Setting.{OnSet};
    ghost use Rattle.lemonrudder.specs.Swapping.{OnSwap};

    /// Sets the limit of a number, before the first connection.
    pub fn set(&mut self, what: u32, value: u64) -> Result<u64, Refusal>
        ensures { OnSet what value self.old self.new result }
    {
        let terms = self.setup.terms.set_to(what, value)?;
        if self.setup.opened || self.engine.is_asking() {
            return Err(Refusal::Open);
        }
        let none = no_families(self.alloc);
        let families = self.engine.change(|families| mem::replace(families, none));
        *self = Serving::new(self.alloc, families, terms);
        Ok(0)
    }

    /// Exchanges what is on offer and a catalogue.
    pub fn swap(&mut self, catalogue: &mut Cataloguing) -> Result<u64, Refusal>
        ensures { OnSwap self.old self.new catalogue.old catalogue.new result }
    {
        if self.engine.is_asking() {
            return Err(Refusal::Asking);
        }
        let families = mem::replace(&mut catalogue.families, no_families(self.alloc));
        catalogue.families = self
            .engine
            .change(|offered| mem::replace(offered, families));
        Ok(0)
    }
}
