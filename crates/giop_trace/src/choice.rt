//! Which messages are printed.

use giop_core::{Content, FtField, LocateStatus, ReplyStatus, Target, ft_request};
use giop_tap::Seen;
use std::alloc::{AllocError, Global};

/// Which messages are asked for. A request is, where all that is given of it holds; an answer or a cancel, where its
/// request is.
#[derive(Clone, Copy)]
pub struct Choice<'a> {
    /// Requests of this operation.
    pub operation: Option<&'a str>,
    /// Requests for the object of this key, or of one with these hexadecimal digits.
    pub object: Option<&'a str>,
    /// Requests of this client of FT_REQUEST.
    pub client: Option<&'a str>,
    /// The request of this number, and those that repeat it.
    pub call: Option<u64>,
    /// Requests that a system exception answered, and what is wrong with octets.
    pub has_faults: bool,
    /// Requests that nothing answered.
    pub is_unanswered: bool,
    /// Requests that were answered so many nanoseconds later, or more.
    pub slower: Option<u64>,
}

/// A choice, as it is kept.
#[derive(Drop)]
pub(crate) struct Chooser {
    alloc: Global,
    operation: Option<Vec<u8>>,
    object: Option<Vec<u8>>,
    client: Option<Vec<u8>>,
    call: Option<u64>,
    pub has_faults: bool,
    pub is_unanswered: bool,
    slower: Option<u64>,
}

/// The octets of a word, if there is one.
fn octets_of(alloc: Global, word: Option<&str>) -> Result<Option<Vec<u8>>, AllocError> {
    match word {
        Some(word) => Ok(Some(Vec::from_slice(alloc, word.as_bytes())?)),
        None => Ok(None),
    }
}

/// Whether octets are those that are asked for, if any are.
fn is_same(wanted: &Option<Vec<u8>>, octets: &[u8]) -> bool {
    match wanted {
        Some(wanted) => wanted.as_slice() == octets,
        None => true,
    }
}

/// The key of the object that a message is for, if it is for one by its key.
pub(crate) fn key_in<'m>(content: &Content<'m>) -> Option<&'m [u8]> {
    let target = match content {
        Content::Request(request) => &request.target,
        Content::LocateRequest(request) => &request.target,
        _ => return None,
    };
    match target {
        Target::Key(key) => Some(*key),
        Target::Profile(_, _) | Target::Reference(_, _) => None,
    }
}

/// Whether a system exception answers.
fn is_exception(content: &Content) -> bool {
    match content {
        Content::Reply(reply) => matches!(
            ReplyStatus::from_number(reply.status),
            Some(ReplyStatus::SystemException)
        ),
        Content::LocateReply(reply) => matches!(
            LocateStatus::from_number(reply.status),
            Some(LocateStatus::SystemException)
        ),
        _ => false,
    }
}

impl Chooser {
    /// That keeps a choice.
    pub fn new(alloc: Global, choice: &Choice) -> Result<Chooser, AllocError> {
        Ok(Chooser {
            alloc,
            operation: octets_of(alloc, choice.operation)?,
            object: octets_of(alloc, choice.object)?,
            client: octets_of(alloc, choice.client)?,
            call: choice.call,
            has_faults: choice.has_faults,
            is_unanswered: choice.is_unanswered,
            slower: choice.slower,
        })
    }

    /// Whether something is asked of requests before they are answered.
    fn asks_early(&self) -> bool {
        self.operation.is_some()
            || self.object.is_some()
            || self.client.is_some()
            || self.call.is_some()
    }

    /// Whether it depends on the answer whether a request is printed.
    pub fn asks_late(&self) -> bool {
        self.has_faults || self.is_unanswered || self.slower.is_some()
    }

    /// Whether all is printed.
    pub fn is_all(&self) -> bool {
        !self.asks_early() && !self.asks_late()
    }

    /// Whether lines of what is wrong with octets are printed.
    pub fn takes_faults(&self) -> bool {
        self.has_faults || self.is_all()
    }

    /// Whether a message that has no request is printed.
    pub fn takes_apart(&self, content: &Content) -> bool {
        self.is_all() || self.has_faults && matches!(content, Content::Error)
    }

    /// Whether the object of a message is asked for.
    fn has_object(&self, content: &Content) -> Result<bool, AllocError> {
        let (Some(wanted), Some(key)) = (&self.object, key_in(content)) else {
            return Ok(self.object.is_none());
        };
        let digits = digits::encode(self.alloc, key)?;
        Ok(wanted.as_slice() == key || wanted.as_slice() == digits.as_bytes())
    }

    /// Whether the client of a message is asked for.
    fn has_client(&self, content: &Content) -> bool {
        if self.client.is_none() {
            return true;
        }
        let Content::Request(request) = content else {
            return false;
        };
        match ft_request(&request.contexts) {
            FtField::Present { client_id, .. } => is_same(&self.client, client_id),
            FtField::Absent | FtField::Bad => false,
        }
    }

    /// Whether the operation of a message is asked for.
    fn has_operation(&self, content: &Content) -> bool {
        match content {
            Content::Request(request) => is_same(&self.operation, request.operation),
            _ => self.operation.is_none(),
        }
    }

    /// Whether a message is of the call that is asked for.
    fn has_call(&self, seen: &Seen) -> bool {
        match self.call {
            Some(call) => seen.number == call || seen.tie.repeats == Some(call),
            None => true,
        }
    }

    /// Whether a request is asked for, as far as is known before its answer.
    pub fn takes_request(&self, seen: &Seen) -> Result<bool, AllocError> {
        let content = &seen.message.content;
        Ok(
            self.has_call(seen)
                && self.has_operation(content)
                && self.has_client(content)
                && self.has_object(content)?,
        )
    }

    /// Whether a request is asked for, by its answer.
    pub fn takes_answered(&self, answer: &Content, latency: Option<u64>) -> bool {
        let is_slow = match (self.slower, latency) {
            (Some(least), Some(latency)) => latency >= least,
            _ => false,
        };
        is_slow || self.has_faults && is_exception(answer)
    }
}
