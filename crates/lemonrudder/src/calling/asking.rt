//! The calls of a client: new ones, those of before, and those that are led elsewhere.

ghost use Rattle.std.specs.Prelude.{◌≡◌, IfErr, IfOk};
ghost use Rattle.cdr_core.specs.View.{values_of};
ghost use Rattle.cdr_core.specs.Writing.{AreWritable};
ghost use Rattle.lemonrudder.specs.Invokes.{AreAsked, IsWhyUnasked, question_of};

use crate::calling::{Calling, Question, head_with};
use crate::named::{number_of_call, order_of};
use crate::refusal::{Refusal, copied};
use crate::types::{types_of, values_of};
use cdr_core::{Val, are_writable, has_no_nul};
use std::alloc::Global;

/// How a call ends that is led elsewhere.
const FORWARDED: u32 = 3;

/// The values of the arguments of a question that can be asked.
fn arguments_of(alloc: Global, question: &Question<'_>) -> Result<Vec<Val>, Refusal>
    ensures asked { IfOk result (λ v. AreAsked (question_of question.now) (values_of v.items)) }
    ensures writable { IfOk result (λ v. AreWritable (values_of v.items)) }
    ensures why { IfErr result (λ e. IsWhyUnasked (question_of question.now) e) }
{
    let types = types_of(alloc, question.types)?;
    let order = order_of(question.order)?;
    let arguments = values_of(alloc, &types, order, question.arguments)?;
    if !has_no_nul(question.operation) {
        return Err(Refusal::Text);
    }
    if !are_writable(&arguments) {
        return Err(Refusal::Long);
    }
    Ok(arguments)
}

impl Calling {
    ghost use Rattle.std.specs.Prelude.{Ok};
    ghost use Rattle.lemonrudder.specs.Invokes.{OnCall};
    ghost use Rattle.lemonrudder.specs.Resuming.{OnForwarded, OnRecall, OnRedirect};

    /// Takes a call, and answers its number.
    pub fn call(
        &mut self,
        now: u64,
        expiration: u64,
        question: &Question<'_>,
    ) -> Result<u64, Refusal>
        ensures { OnCall now expiration (question_of question.now) self.old self.new result }
    {
        let arguments = arguments_of(self.alloc, question)?;
        let number = self.client.call(
            now,
            question.key,
            question.operation,
            &arguments,
            expiration,
            &mut self.due.octets,
        )?;
        Ok(u64::from(number.unsigned_abs()))
    }

    /// Takes a call of before up again, under its own number.
    pub fn recall(
        &mut self,
        call: i64,
        now: u64,
        expiration: u64,
        question: &Question<'_>,
    ) -> Result<u64, Refusal>
        ensures { OnRecall call now expiration (question_of question.now) self.old self.new result }
    {
        let number = number_of_call(call)?;
        let arguments = arguments_of(self.alloc, question)?;
        self.client.recall(
            number,
            now,
            question.key,
            question.operation,
            &arguments,
            expiration,
            &mut self.due.octets,
        )?;
        Ok(0)
    }

    /// Says the first call that is led elsewhere, and copies the reference to which.
    pub fn forwarded(&self, head: &mut [u8], room: &mut [u8]) -> u64
        ensures told { OnForwarded head.old head.new room.old room.new self.now self.now (Ok result) }
        ensures none { result ≡ 0 → head.new ≡ head.old }
        ensures uncopied { result ≡ 0 → room.new ≡ room.old }
    {
        let Some((call, reference)) = self.client.forwarded() else {
            return 0;
        };
        head_with(call, FORWARDED, Some(reference)).tell(head);
        copied(&reference.octets, room);
        1
    }

    /// Asks under another object key for a call that is led elsewhere.
    pub fn redirect(&mut self, call: i64, question: &Question<'_>) -> Result<u64, Refusal>
        ensures { OnRedirect call (question_of question.now) self.old self.new result }
    {
        let Ok(id) = i32::try_from(call) else {
            return Err(Refusal::Range);
        };
        let arguments = arguments_of(self.alloc, question)?;
        self.client
            .redirect(id, question.key, question.operation, &arguments)?;
        Ok(0)
    }
}
