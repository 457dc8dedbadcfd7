//! The calls that only state flows have.
ghost use Rattle.std.specs.Prelude.{◌≡◌, Err, IsOk};
ghost use Rattle.flow_law.specs.declared.fault.FlowFault.TheVariants.{Unsupported};
ghost use Rattle.flow_law.specs.declared.call.StateCall.TheVariants as call;
ghost use Rattle.flow_law.specs.declared.call.StateReply.TheVariants as reply;
ghost use Rattle.flow_core.specs.StateCore.{value_reply, state_cache_reply, reset_reply};

use crate::core_call::{CoreCall, Made};
use flow_core::StateCore;
use flow_law::{FlowFault, FlowValue, Touch};
use std::alloc::Allocator;

#[derive(Drop)]
pub(super) struct Set<T: FlowValue> {
    pub(super) value: T,
}

impl<T: FlowValue, A: Allocator + Copy> CoreCall<StateCore<T, A>> for Set<T> {
    type Answer = ();

    ghost call = { λ c name. call.Set c.value };

    ghost reply = { λ answer. reply.Done };

    #[inline(always)]
    fn run(self, core: &mut StateCore<T, A>) -> Made<()> {
        let Set { value } = self;
        Made::touching(core.set(value), Touch::Subscribers)
    }
}

#[derive(Drop)]
pub(super) struct TryEmit<T: FlowValue> {
    pub(super) value: T,
}

impl<T: FlowValue, A: Allocator + Copy> CoreCall<StateCore<T, A>> for TryEmit<T> {
    type Answer = bool;

    ghost call = { λ c name. call.TryEmit c.value };

    ghost reply = { λ answer. reply.Answered answer };

    #[inline(always)]
    fn run(self, core: &mut StateCore<T, A>) -> Made<bool> {
        let TryEmit { value } = self;
        Made::touching(core.try_emit(value), Touch::Subscribers)
    }
}

#[derive(Drop)]
pub(super) struct CompareAndSet<'a, T: FlowValue> {
    pub(super) expect: &'a T,
    pub(super) update: T,
}

impl<'a, T: FlowValue, A: Allocator + Copy> CoreCall<StateCore<T, A>> for CompareAndSet<'a, T> {
    type Answer = bool;

    ghost call = { λ c name. call.CompareAndSet c.expect.now c.update };

    ghost reply = { λ answer. reply.Answered answer };

    #[inline(always)]
    fn run(self, core: &mut StateCore<T, A>) -> Made<bool> {
        let CompareAndSet { expect, update } = self;
        let was_set = core.compare_and_set(expect, update);
        let touches = if was_set {
            Touch::Subscribers
        } else {
            Touch::NoSleeper
        };
        Made::touching(was_set, touches)
    }
}

#[derive(Drop)]
pub(super) struct ResetReplayCache;

impl<T: FlowValue, A: Allocator + Copy> CoreCall<StateCore<T, A>> for ResetReplayCache {
    type Answer = Result<(), FlowFault>;

    ghost call = { λ c name. call.ResetReplayCache };

    ghost reply = { λ answer. reset_reply answer };

    ghost also = { λ c answer. answer ≡ Err Unsupported };

    #[inline(always)]
    fn run(self, core: &mut StateCore<T, A>) -> Made<Result<(), FlowFault>> {
        Made::quiet(core.reset_replay_cache())
    }
}

#[derive(Drop)]
pub(super) struct ReplayCache;

impl<T: FlowValue, A: Allocator + Copy> CoreCall<StateCore<T, A>> for ReplayCache {
    type Answer = Result<Vec<T, A>, FlowFault>;

    ghost call = { λ c name. call.ReplayCache };

    ghost reply = { λ answer. state_cache_reply answer };

    #[inline(always)]
    fn run(self, core: &mut StateCore<T, A>) -> Made<Result<Vec<T, A>, FlowFault>> {
        Made::quiet(core.replay_cache())
    }
}

#[derive(Drop)]
pub(super) struct GetValue;

impl<T: FlowValue, A: Allocator + Copy> CoreCall<StateCore<T, A>> for GetValue {
    type Answer = Result<T, FlowFault>;

    ghost call = { λ c name. call.GetValue };

    ghost reply = { λ answer. value_reply answer };

    ghost also = { λ c answer. T.IsAlwaysCopied → IsOk answer };

    #[inline(always)]
    fn run(self, core: &mut StateCore<T, A>) -> Made<Result<T, FlowFault>> {
        Made::quiet(core.value())
    }
}
