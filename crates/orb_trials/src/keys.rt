//! `Key::new` and `Key::copy` of the clients of samples.

use ft_log::Key;
use std::alloc::Global;
use trials::{Miss, Sample, Trial, check_printed};

/// The client's number for its request.
const RETENTION_ID: i32 = -7;

/// `Key::new` of the client of a sample.
#[derive(Drop)]
pub struct KeyMaking {
    pub sample: &'static Sample,
}

impl Trial for KeyMaking {
    fn call(&mut self, alloc: Global) -> Result<(), Miss> {
        let key = Key::new(alloc, self.sample.octets, RETENTION_ID)?;
        Ok(check_printed(self.sample, &key)?)
    }

    /// The octets are lent, and can't change.
    fn is_unchanged(&self) -> bool {
        true
    }
}

/// `copy` of such a key.
#[derive(Drop)]
pub struct KeyCopying {
    sample: &'static Sample,
    key: Key,
}

impl KeyCopying {
    /// The inputs.
    pub(crate) fn new(alloc: Global, sample: &'static Sample) -> Result<KeyCopying, Miss> {
        Ok(KeyCopying {
            sample,
            key: Key::new(alloc, sample.octets, RETENTION_ID)?,
        })
    }
}

impl Trial for KeyCopying {
    fn call(&mut self, alloc: Global) -> Result<(), Miss> {
        let copy = self.key.copy(alloc)?;
        Ok(check_printed(self.sample, &copy)?)
    }

    fn is_unchanged(&self) -> bool {
        check_printed(self.sample, &self.key).is_ok()
    }
}
