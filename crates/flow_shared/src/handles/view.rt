//! Views of a flow, which only read: hand one out to code that must not emit or set (`asSharedFlow`, `asStateFlow`).
ghost use Rattle.std.specs.Prelude.{◌≡◌, IsOk};
ghost use Rattle.flow_law.specs.history.Growth.{makes, child};
ghost use Rattle.flow_law.specs.history.HandleFaults.{answer_by, memory_fault, number_fault};
ghost use Rattle.flow_law.specs.history.Handles.{SubscribesBound};
ghost use Rattle.flow_law.specs.history.Tokens.{knowing};
ghost use Rattle.flow_law.specs.declared.call.SharedCall.TheVariants as shared_call;
ghost use Rattle.flow_law.specs.declared.call.StateCall.TheVariants as state_call;
ghost use Rattle.flow_core.specs.SharedCore.{cache_reply};
ghost use Rattle.flow_core.specs.StateCore.{value_reply};
ghost use Rattle.flow_shared.specs.SharedReplies.{SharedCalls};
ghost use Rattle.flow_shared.specs.StateReplies.{StateCalls};

use super::caller::FlowCaller;
use super::view_reader::ViewReader;
use flow_core::{FlowCore, SharedCore, StateCore, SubscriberCalls};
use flow_law::{FlowValue, NumberError, OutOfMemory};
use std::alloc::{Allocator, Global};
use std::marker::Model;
use std::sync::Wait;

/// A seat and its flow, for a caller that only reads: it can subscribe, and neither emit nor set. Nothing that it gives
/// can. Contracts see the seat and the flow.
///
/// # Dropping
/// Dropping it drops its seat. Its readers stay.
#[derive(Drop)]
pub struct FlowView<S: FlowCore, A: Allocator + Copy = Global> {
    pub(super) caller: FlowCaller<S, A>,
}

/// A view of a shared flow (`SharedFlow`).
pub type SharedView<T, A = Global> = FlowView<SharedCore<T, A>, A>;

/// A view of a state flow (`StateFlow`).
pub type StateView<T, A = Global> = FlowView<StateCore<T, A>, A>;

impl<S: FlowCore, A: Allocator + Copy> Model for FlowView<S, A> {
    ghost use Rattle.atomic_table.specs.Seated.{TableId};
    ghost use Rattle.flow_law.specs.declared.history.Said.{Said};
    ghost use Rattle.flow_law.specs.history.Handles.{CallerOf};

    ghost Value = { CallerOf TableId S.State (Said S.Call S.Reply) };

    ghost view = { λ v. v.caller };
}

impl<S: FlowCore + Drop, A: Allocator + Copy> FlowCaller<S, A> {
    /// Makes a view of the flow through this caller, as `another` makes a caller.
    ///
    /// # Source
    /// `asSharedFlow`, `asStateFlow`.
    pub fn view<R: Wait>(&mut self, rt: &R) -> FlowView<S, A>
        ensures flow { (self.new.flow ≡ self.old.flow) × (result.flow ≡ self.old.flow) }
        ensures maker { self.new.token ≡ knowing self.old.token (makes self.old.token.knows) }
        ensures made { result.token ≡ knowing self.old.token (child self.old.token.knows) }
    {
        FlowView {
            caller: self.another(rt),
        }
    }
}

impl<S: FlowCore + Drop, A: Allocator + Copy> FlowView<S, A> {
    /// Makes one more view through this one. Call it for each thread, before the thread starts.
    pub fn another<R: Wait>(&mut self, rt: &R) -> FlowView<S, A>
        ensures flow { (self.new.flow ≡ self.old.flow) × (result.flow ≡ self.old.flow) }
        ensures maker { self.new.token ≡ knowing self.old.token (makes self.old.token.knows) }
        ensures made { result.token ≡ knowing self.old.token (child self.old.token.knows) }
    {
        self.caller.view(rt)
    }
}

impl<S: SubscriberCalls + Drop, A: Allocator + Copy> FlowView<S, A> {
    /// Subscribes, as `subscribe` of an emitter or of a setter does. The reader only reads, too.
    ///
    /// # Errors
    /// `Exhausted` if the flow has issued as many numbers as its limit allows, and `OutOfMemory`.
    pub fn subscribe<R: Wait>(&mut self, rt: &R) -> Result<ViewReader<S, A>, NumberError>
        ensures flow { self.new.flow ≡ self.old.flow }
        ensures subscribed { SubscribesBound S.kind S.kind.subscribe self.old
            (answer_by number_fault result) self.new.token }
    {
        match self.caller.subscribe(rt) {
            Ok(reader) => Ok(ViewReader { reader }),
            Err(error) => Err(error),
        }
    }
}

impl<T: FlowValue, A: Allocator + Copy> FlowView<SharedCore<T, A>, A> {
    /// Returns the replay cache, as `replay_cache` of an emitter does.
    ///
    /// # Errors
    /// `OutOfMemory` if there is no memory for the list or for a copy. The flow is not changed.
    pub fn replay_cache<R: Wait>(&mut self, rt: &R) -> Result<Vec<T, A>, OutOfMemory>
        ensures flow { self.new.flow ≡ self.old.flow }
        ensures called { SharedCalls self.old.flow self.old.token shared_call.ReplayCache
            (cache_reply (answer_by memory_fault result)) self.new.token }
    {
        self.caller.replay_cache(rt)
    }
}

impl<T: FlowValue, A: Allocator + Copy> FlowView<StateCore<T, A>, A> {
    /// Returns a copy of the current value, as `value` of a setter does.
    ///
    /// # Errors
    /// `OutOfMemory` if the value could not be copied.
    pub fn value<R: Wait>(&mut self, rt: &R) -> Result<T, OutOfMemory>
        ensures flow { self.new.flow ≡ self.old.flow }
        ensures called { StateCalls self.old.flow self.old.token state_call.GetValue
            (value_reply (answer_by memory_fault result)) self.new.token }
        ensures given { T.IsAlwaysCopied → IsOk result }
    {
        self.caller.value(rt)
    }
}
