//! Raw calls of a client: new ones, those of before, and those that are led elsewhere.

ghost use Rattle.std.specs.Prelude.{◌≡◌, ◌↔◌, IsTrue, Some, map};
ghost use Rattle.giop_core.specs.Items.{item_at};
ghost use Rattle.giop_core.specs.declared.request.ReplyWish.TheVariants.{None};
ghost use Rattle.ft_client.specs.Calling.{call_raw};
ghost use Rattle.lemonrudder.specs.Naming.{wish_named};
ghost use Rattle.lemonrudder.specs.RawCalls.{IsRawManner, raw_asked, raw_in, raw_question_of};

use crate::calling::Calling;
use crate::contexts::contexts_of;
use crate::named::{number_of_call, order_of, wish_of};
use crate::refusal::Refusal;
use cdr_core::{Order, has_no_nul};
use ft_client::RawCall;
use giop_core::{Body, ReplyWish, Version};

/// What a raw call asks.
#[derive(Clone, Copy)]
pub struct RawQuestion<'q> {
    pub wish: u32,
    pub key: &'q [u8],
    pub operation: &'q [u8],
    pub order: u32,
    pub contexts: &'q [u8],
    pub body: &'q [u8],
}

/// Whether a number names the wish for no reply.
fn wishes_none(wish: u32) -> bool
    ensures { IsTrue result ↔ wish_named wish ≡ Some None }
{
    matches!(wish_of(wish), Ok(ReplyWish::None))
}

/// How a raw call is asked.
#[derive(Clone, Copy)]
struct RawManner {
    version: Version,
    order: Order,
    wish: ReplyWish,
}

impl RawManner {
    /// In a version, as the numbers of a question say that can be asked so.
    fn new(version: Version, question: &RawQuestion<'_>) -> Result<RawManner, Refusal>
        ensures { IsRawManner version (raw_question_of question.now) result }
    {
        let order = order_of(question.order)?;
        let wish = wish_of(question.wish)?;
        if !version.can_ask(wish) {
            return Err(Refusal::Range);
        }
        if !has_no_nul(question.operation) {
            return Err(Refusal::Text);
        }
        Ok(RawManner {
            version,
            order,
            wish,
        })
    }

    /// What is called, with service contexts, until a moment.
    fn call<'a>(
        self,
        question: &RawQuestion<'a>,
        contexts: &'a [(u32, &'a [u8])],
        expiration: u64,
    ) -> RawCall<'a>
        ensures asked { call_raw result ≡ raw_asked (raw_question_of question.now) (raw_in self (map item_at contexts.now)) expiration }
        ensures operation { result.operation.now ≡ question.now.operation.now }
        ensures version { result.version ≡ self.version }
        ensures wish { result.wish ≡ self.wish }
    {
        RawCall {
            object_key: question.key,
            operation: question.operation,
            contexts,
            body: Body {
                order: self.order,
                at: 0,
                octets: question.body,
            },
            wish: self.wish,
            version: self.version,
            expiration,
        }
    }
}

impl Calling {
    ghost use Rattle.lemonrudder.specs.RawCalls.{OnCallRaw, OnRecallRaw, OnRedirectRaw};

    /// Takes a raw call, and answers its number.
    pub fn call_raw(
        &mut self,
        now: u64,
        expiration: u64,
        question: &RawQuestion<'_>,
    ) -> Result<u64, Refusal>
        ensures { OnCallRaw now expiration (raw_question_of question.now) self.old self.new result }
    {
        let manner = RawManner::new(self.client.version(), question)?;
        let contexts = contexts_of(self.alloc, manner.order, question.contexts)?;
        let call = manner.call(question, &contexts, expiration);
        let number = self.client.call_raw(now, &call, &mut self.due.octets)?;
        Ok(u64::from(number.unsigned_abs()))
    }

    /// Takes a raw call of before up again, under its own number.
    pub fn recall_raw(
        &mut self,
        call: i64,
        now: u64,
        expiration: u64,
        question: &RawQuestion<'_>,
    ) -> Result<u64, Refusal>
        ensures { OnRecallRaw call now expiration (raw_question_of question.now) self.old self.new result }
    {
        let number = number_of_call(call)?;
        let manner = RawManner::new(self.client.version(), question)?;
        let contexts = contexts_of(self.alloc, manner.order, question.contexts)?;
        let call = manner.call(question, &contexts, expiration);
        self.client
            .recall_raw(number, now, &call, &mut self.due.octets)?;
        Ok(0)
    }

    /// Asks under another object key, by a raw call, for a call that is led elsewhere.
    pub fn redirect_raw(&mut self, call: i64, question: &RawQuestion<'_>) -> Result<u64, Refusal>
        ensures { OnRedirectRaw call (raw_question_of question.now) self.old self.new result }
    {
        let Ok(id) = i32::try_from(call) else {
            return Err(Refusal::Range);
        };
        if wishes_none(question.wish) {
            return Err(Refusal::Range);
        }
        let manner = RawManner::new(self.client.version(), question)?;
        let contexts = contexts_of(self.alloc, manner.order, question.contexts)?;
        let asked = manner.call(question, &contexts, 0);
        self.client.redirect_raw(id, &asked)?;
        Ok(0)
    }
}
