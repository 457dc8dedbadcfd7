//! The calls that only shared flows have.
ghost use Rattle.std.specs.Prelude.{◌≡◌, IfErr};
ghost use Rattle.flow_law.specs.history.History.{fault_alone};
ghost use Rattle.flow_law.specs.declared.call.SharedCall.TheVariants as call;
ghost use Rattle.flow_law.specs.declared.call.SharedReply.TheVariants as reply;
ghost use Rattle.flow_shared.specs.CoreCalls.{after_emit, after_polling};
ghost use Rattle.flow_core.specs.SharedCore.{try_emit_reply, emit_reply, cache_reply, subscribe_reply};

use crate::core_call::{CoreCall, Made, Then};
use flow_core::{SharedCore, SubId};
use flow_law::{Emit as Emission, FlowFault, FlowValue, Refused, Touch};
use std::alloc::Allocator;

#[derive(Drop)]
pub(super) struct TryEmit<T: FlowValue> {
    pub(super) value: T,
}

impl<T: FlowValue, A: Allocator + Copy> CoreCall<SharedCore<T, A>> for TryEmit<T> {
    type Answer = Result<bool, Refused<T>>;

    ghost call = { λ c name. call.TryEmit c.value };

    ghost reply = { λ answer. try_emit_reply answer };

    ghost also = { λ c answer. IfErr answer (λ refused. refused.value ≡ c.value) };

    #[inline(always)]
    fn run(self, core: &mut SharedCore<T, A>) -> Made<Result<bool, Refused<T>>> {
        let TryEmit { value } = self;
        Made::quiet(core.try_emit(value))
    }
}

#[derive(Drop)]
pub(super) struct Emit<T: FlowValue> {
    pub(super) value: T,
}

impl<T: FlowValue, A: Allocator + Copy> CoreCall<SharedCore<T, A>> for Emit<T> {
    type Answer = Result<Emission, Refused<T>>;

    ghost call = { λ c name. call.Emit c.value };

    ghost reply = { λ answer. emit_reply answer };

    ghost also = { λ c answer. IfErr answer (λ refused. refused.value ≡ c.value) };

    ghost then = { λ c answer. after_emit answer };

    #[inline(always)]
    fn run(self, core: &mut SharedCore<T, A>) -> Made<Result<Emission, Refused<T>>> {
        let Emit { value } = self;
        let answer = core.emit(value);
        let then = Then::after_emit(&answer);
        Made::before(answer, then)
    }
}

#[derive(Drop)]
pub(super) struct Poll {
    pub(super) number: u64,
}

impl<T: FlowValue, A: Allocator + Copy> CoreCall<SharedCore<T, A>> for Poll {
    type Answer = bool;

    ghost call = { λ c name. call.Poll c.number };

    ghost reply = { λ waits. reply.Tested waits };

    ghost then = { λ c waits. after_polling c.number waits };

    #[inline(always)]
    fn run(self, core: &mut SharedCore<T, A>) -> Made<bool> {
        let waits = core.poll(self.number);
        Made::before(waits, Then::after_poll(self.number, waits))
    }
}

#[derive(Drop)]
pub(super) struct Cancel {
    pub(super) number: u64,
}

impl<T: FlowValue, A: Allocator + Copy> CoreCall<SharedCore<T, A>> for Cancel {
    type Answer = bool;

    ghost call = { λ c name. call.Cancel c.number };

    ghost reply = { λ was_waiting. reply.Tested was_waiting };

    #[inline(always)]
    fn run(self, core: &mut SharedCore<T, A>) -> Made<bool> {
        let touches = Touch::Emission(self.number);
        Made::touching(core.cancel(self.number), touches)
    }
}

#[derive(Drop)]
pub(super) struct ResetReplayCache;

impl<T: FlowValue, A: Allocator + Copy> CoreCall<SharedCore<T, A>> for ResetReplayCache {
    type Answer = ();

    ghost call = { λ c name. call.ResetReplayCache };

    ghost reply = { λ none. reply.Reset };

    #[inline(always)]
    fn run(self, core: &mut SharedCore<T, A>) -> Made<()> {
        Made::quiet(core.reset_replay_cache())
    }
}

#[derive(Drop)]
pub(super) struct ReplayCache;

impl<T: FlowValue, A: Allocator + Copy> CoreCall<SharedCore<T, A>> for ReplayCache {
    type Answer = Result<Vec<T, A>, FlowFault>;

    ghost call = { λ c name. call.ReplayCache };

    ghost reply = { λ answer. cache_reply answer };

    #[inline(always)]
    fn run(self, core: &mut SharedCore<T, A>) -> Made<Result<Vec<T, A>, FlowFault>> {
        Made::quiet(core.replay_cache())
    }
}

#[derive(Drop)]
pub(super) struct SubscribeWith<T: FlowValue, A: Allocator> {
    pub(super) first: Vec<T, A>,
}

impl<T: FlowValue, A: Allocator + Copy> CoreCall<SharedCore<T, A>> for SubscribeWith<T, A> {
    type Answer = Result<SubId, Refused<Vec<T, A>>>;

    ghost call = { λ c name. call.Subscribe name c.first.items };

    ghost reply = { λ answer. subscribe_reply (fault_alone answer) };

    ghost also = { λ c answer. IfErr answer (λ refused. refused.value ≡ c.first) };

    #[inline(always)]
    fn run(self, core: &mut SharedCore<T, A>) -> Made<Result<SubId, Refused<Vec<T, A>>>> {
        let SubscribeWith { first } = self;
        Made::quiet(core.subscribe_with(first))
    }
}
