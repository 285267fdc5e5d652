//! The doors of a slot, one for each kind: a call on the object in it, if it is of that kind.

ghost use Rattle.lemonrudder.specs.Answers.{OnAssembler, OnCatalogue, OnClient, OnReference, OnServer};
ghost use Rattle.lemonrudder.specs.Doors.{Calls, HasNoAssembler, HasNoCatalogue, HasNoClient, HasNoReference};
ghost use Rattle.lemonrudder.specs.Serves.{HasNoServer};
ghost use Rattle.lemonrudder.specs.Slots.{held_in};

use super::Slot;
use crate::assembling::Assembling;
use crate::calling::Calling;
use crate::cataloguing::Cataloguing;
use crate::object::Object;
use crate::referring::Referring;
use crate::refusal::{Refusal, number_of};
use crate::serving::Serving;
use std::alloc::Global;

impl Slot {
    /// Calls `call` on a server, and answers its number.
    #[inline(always)]
    pub(crate) fn server<F: FnMut(&mut Serving) -> Result<u64, Refusal>>(
        &mut self,
        alloc: Global,
        call: &mut F,
    ) -> i64
        requires { F.IsAlwaysCallable call.old }
        ensures { Calls OnServer HasNoServer F.FnMut call.old call.new (held_in self.old) (held_in self.new) result }
    {
        let Some(mut object) = self.take(alloc) else {
            return Refusal::Empty.number();
        };
        let Object::Server(server) = &mut *object else {
            self.put(object);
            return Refusal::Empty.number();
        };
        let answer = number_of(call(server));
        self.put(object);
        answer
    }

    /// Calls `call` on a catalogue, and answers its number.
    #[inline(always)]
    pub(crate) fn catalogue<F: FnMut(&mut Cataloguing) -> Result<u64, Refusal>>(
        &mut self,
        alloc: Global,
        call: &mut F,
    ) -> i64
        requires { F.IsAlwaysCallable call.old }
        ensures { Calls OnCatalogue HasNoCatalogue F.FnMut call.old call.new (held_in self.old) (held_in self.new) result }
    {
        let Some(mut object) = self.take(alloc) else {
            return Refusal::Empty.number();
        };
        let Object::Catalogue(catalogue) = &mut *object else {
            self.put(object);
            return Refusal::Empty.number();
        };
        let answer = number_of(call(catalogue));
        self.put(object);
        answer
    }

    /// Calls `call` on a client, and answers its number.
    #[inline(always)]
    pub(crate) fn client<F: FnMut(&mut Calling) -> Result<u64, Refusal>>(
        &mut self,
        alloc: Global,
        call: &mut F,
    ) -> i64
        requires { F.IsAlwaysCallable call.old }
        ensures { Calls OnClient HasNoClient F.FnMut call.old call.new (held_in self.old) (held_in self.new) result }
    {
        let Some(mut object) = self.take(alloc) else {
            return Refusal::Empty.number();
        };
        let Object::Client(client) = &mut *object else {
            self.put(object);
            return Refusal::Empty.number();
        };
        let answer = number_of(call(client));
        self.put(object);
        answer
    }

    /// Calls `call` on an assembler, and answers its number.
    #[inline(always)]
    pub(crate) fn assembler<F: FnMut(&mut Assembling) -> Result<u64, Refusal>>(
        &mut self,
        alloc: Global,
        call: &mut F,
    ) -> i64
        requires { F.IsAlwaysCallable call.old }
        ensures { Calls OnAssembler HasNoAssembler F.FnMut call.old call.new (held_in self.old) (held_in self.new) result }
    {
        let Some(mut object) = self.take(alloc) else {
            return Refusal::Empty.number();
        };
        let Object::Assembler(assembler) = &mut *object else {
            self.put(object);
            return Refusal::Empty.number();
        };
        let answer = number_of(call(assembler));
        self.put(object);
        answer
    }

    /// Calls `call` on a reference, and answers its number.
    #[inline(always)]
    pub(crate) fn reference<F: FnMut(&mut Referring) -> Result<u64, Refusal>>(
        &mut self,
        alloc: Global,
        call: &mut F,
    ) -> i64
        requires { F.IsAlwaysCallable call.old }
        ensures { Calls OnReference HasNoReference F.FnMut call.old call.new (held_in self.old) (held_in self.new) result }
    {
        let Some(mut object) = self.take(alloc) else {
            return Refusal::Empty.number();
        };
        let Object::Reference(reference) = &mut *object else {
            self.put(object);
            return Refusal::Empty.number();
        };
        let answer = number_of(call(reference));
        self.put(object);
        answer
    }
}
