//! In how many frames the messages of a side come: where more fragments follow, Fragments go on (GIOP 9.4.1, GIOP 9.4.9).

ghost use Rattle.std.specs.Prelude.{◌≡◌, ◌∷◌, [], List};
ghost use Rattle.giop_core.specs.declared.header.Header.{Header};
ghost use Rattle.giop_trace.specs.Joining.{is_cut_otherwise};

use crate::headers::{header_in, is_unaligned};
use giop_core::{Header, MessageKind, Version};
use std::alloc::{AllocError, Global};
use std::collections::BTreeMap;

/// How many octets a request id has, with which the body of each frame of a message of 1.2 begins.
const ID: usize = 4;

/// How a message came, as far as it has.
#[derive(Clone, Copy)]
pub(crate) struct Came {
    /// In how many frames.
    pub frames: u64,
    /// Whether it was cut where aligned cuts would not be.
    pub is_cut_otherwise: bool,
}

impl Came {
    /// None of it.
    fn none() -> Came
        ensures { result.is_cut_otherwise ≡ is_cut_otherwise [] }
    {
        Came {
            frames: 0,
            is_cut_otherwise: false,
        }
    }

    /// With one more frame of this header.
    fn with(self, header: &Header) -> Came
        ensures { (earlier : List Header) → self.is_cut_otherwise ≡ is_cut_otherwise earlier → result.is_cut_otherwise ≡ is_cut_otherwise (header.now ∷ earlier) }
    {
        Came {
            frames: self.frames.saturating_add(1),
            is_cut_otherwise: is_unaligned(header) || self.is_cut_otherwise,
        }
    }
}

/// The frames of a side.
#[derive(Drop)]
pub(crate) struct Frames {
    /// What has come of each message that is not whole, by its request id as it stands there; in 1.1, where no other is
    /// partial beside it, by nothing.
    partial: BTreeMap<Vec<u8>, Came>,
    /// The header of the frame that is read, and as much of a request id as has come of it.
    header: Option<Header>,
    id: Vec<u8>,
    alloc: Global,
    /// How the last message came that is whole.
    last: Came,
}

impl Frames {
    /// Those of a side of which nothing has come.
    pub fn new(alloc: Global) -> Frames {
        Frames {
            partial: BTreeMap::new(alloc),
            header: None,
            id: Vec::new(alloc),
            alloc,
            last: Came::none(),
        }
    }

    /// How the last message came that is whole.
    pub fn last(&self) -> Came {
        self.last
    }

    /// Takes the header of a frame.
    pub fn begin(&mut self, head: &[u8]) {
        self.header = header_in(head);
        self.id.clear();
    }

    /// Takes octets after the header of a frame.
    pub fn take(&mut self, octets: &[u8]) -> Result<(), AllocError> {
        let is_named = matches!(
            self.header,
            Some(Header {
                version: Version::V12,
                ..
            })
        );
        let wanted = ID.saturating_sub(self.id.len());
        if is_named && wanted > 0 {
            self.id
                .extend_from_slice(octets.get(..wanted).unwrap_or(octets))?;
        }
        Ok(())
    }

    /// Ends the frame.
    pub fn end(&mut self) -> Result<(), AllocError> {
        let Some(header) = self.header.take() else {
            return Ok(());
        };
        let earlier = match header.kind {
            MessageKind::Fragment => self.partial.remove(&self.id).unwrap_or(Came::none()),
            _ => Came::none(),
        };
        let came = earlier.with(&header);
        if header.more {
            self.partial
                .insert(Vec::from_slice(self.alloc, &self.id)?, came)?;
        } else {
            self.last = came;
        }
        Ok(())
    }

    /// Forgets what has come: the stream of the side begins anew.
    pub fn clear(&mut self) {
        self.partial = BTreeMap::new(self.alloc);
        self.header = None;
    }
}
