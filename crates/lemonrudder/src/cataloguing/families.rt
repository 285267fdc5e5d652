//! The families of a catalogue, and objects that are taken away.

use crate::cataloguing::Cataloguing;
use crate::refusal::Refusal;
use std::mem;

impl Cataloguing {
    ghost use Rattle.lemonrudder.specs.Families.{OnDefault, OnFamilies, OnRemove};

    /// Adds an object whose every operation is raw, for each key that leads to no other.
    pub fn default(&mut self) -> Result<u64, Refusal>
        ensures { OnDefault self.old self.new result }
    {
        self.families.families.add_raw_object(&[])?;
        Ok(0)
    }

    /// Takes the objects of another catalogue as families, each under its key as a prefix. The other is empty afterwards.
    pub fn take_families(&mut self, other: &mut Cataloguing) -> Result<u64, Refusal>
        ensures { OnFamilies self.old self.new other.old other.new result }
    {
        if !self.families.families.is_empty() || !other.families.families.is_empty() {
            return Err(Refusal::Taken);
        }
        let taken = mem::replace(other, Cataloguing::new(self.alloc));
        self.families.families = taken.families.objects;
        Ok(0)
    }

    /// Takes an object away, with its operations and repository ids.
    pub fn remove(&mut self, key: &[u8]) -> Result<u64, Refusal>
        ensures { OnRemove key.now self.old self.new result }
    {
        if self.families.objects.remove(key) {
            Ok(0)
        } else {
            Err(Refusal::Object)
        }
    }
}
