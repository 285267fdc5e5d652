//! A counter that notes what becomes of each request.

use counter::Counter;
use ft_objects::{Catalogue, Decision, Lookup, Servant};
use giop_core::{Request, Version};
use std::alloc::Global;
use std::cell::RefCell;
use std::io;
use std::io::Write;

/// What is on offer, a counter or nothing, and what it heard: connections, request ids, and what became of these.
#[derive(Drop)]
pub(crate) struct HeardCounter {
    counter: Counter,
    pub(crate) is_hidden: bool,
    heard: RefCell<Vec<(u64, u32, Decision)>>,
}

impl HeardCounter {
    /// A counter that heard nothing.
    pub(crate) fn new(alloc: Global, counter: Counter) -> HeardCounter {
        HeardCounter {
            counter,
            is_hidden: false,
            heard: RefCell::new(Vec::new(alloc)),
        }
    }

    /// Prints a line for each that was heard of, and forgets them.
    pub(crate) fn print<W: Write>(&self, out: &mut W) -> io::Result<()> {
        let Ok(mut heard) = self.heard.try_borrow_mut() else {
            return Ok(());
        };
        for (connection, id, decision) in heard.iter() {
            writeln!(out, "heard {connection} {id} {decision:?}")?;
        }
        heard.clear();
        Ok(())
    }
}

impl Catalogue for HeardCounter {
    ghost use Rattle.deeds_player.specs.Offered.{offered};
    ghost use Rattle.deeds_player.specs.facts.Offered.{offered-is};

    ghost offers = { λ h. offered h.is_hidden };

    ghost promises = { λ h. offered-is h.is_hidden };

    fn interface(&self, object_key: &[u8], operation: &[u8]) -> Lookup<'_> {
        if self.is_hidden {
            return Lookup::NoObject;
        }
        Servant::interface(&self.counter, object_key, operation)
    }

    fn has_object(&self, object_key: &[u8]) -> bool {
        !self.is_hidden && Servant::has_object(&self.counter, object_key)
    }

    fn decided(
        &self,
        connection: u64,
        _version: Version,
        request: &Request<'_>,
        decision: Decision,
    ) {
        if let Ok(mut heard) = self.heard.try_borrow_mut() {
            let _ = heard.push((connection, request.request_id, decision));
        }
    }
}
