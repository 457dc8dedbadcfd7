//! References for the caller: to the hub of a sharing, and to the core of a hub for one thread.
ghost use Rattle.std.specs.Prelude.{◌≡◌};
ghost use Rattle.std.specs.Borrow.{sem};
ghost use Rattle.flow_turns.specs.CoreHub.{core_of};
ghost use Rattle.flow_turns.specs.CoreLending.{LendsCore};
ghost use Rattle.flow_turns.specs.Lending.{LendsHub};
ghost use Rattle.flow_turns.specs.SharingViews.{hub_of};
ghost use Rattle.flow_turns.specs.StateHub.{state_core_of};
ghost use Rattle.flow_turns.specs.StateLending.{LendsStateCore};

use crate::core_hub::CoreHub;
use crate::hub::Hub;
use crate::sharing::Sharing;
use crate::state_hub::StateHub;
use flow_cold::Cold;
use flow_core::{SharedCore, StateCore};
use flow_law::FlowValue;
use std::alloc::Allocator;

impl<C: Cold, H: Hub<Item = C::Item>> Sharing<C, H> {
    /// Returns a reference to the hub.
    pub fn hub(&self) -> &H
        ensures { result.now ≡ hub_of self.now }
    {
        &self.hub
    }

    /// Returns a mutable reference to the hub, for subscribing and receiving.
    ///
    /// A caller that emits or cancels through it acts as the sharing does. A turn then still takes its steps and keeps
    /// its account. But an emission that the caller leaves waiting while the sharing does not run may still wait after
    /// a turn that answers `Idle`.
    pub fn hub_mut(&mut self) -> &mut H
        ensures* writes_back { sem 𝓛 (LendsHub C.row H.row C.Item.row self.entry result) }
        ensures hub { result.now ≡ hub_of self.old }
    {
        &mut self.hub
    }
}

impl<T: FlowValue, A: Allocator + Copy> CoreHub<T, A> {
    /// Returns a mutable reference to the core, for subscribing and receiving.
    pub fn core_mut(&mut self) -> &mut SharedCore<T, A>
        ensures* writes_back { sem 𝓛
            (LendsCore T.row A.row T.FlowValue A.Allocator self.entry result) }
        ensures core { result.now ≡ core_of self.old }
    {
        &mut self.core
    }
}

impl<T: FlowValue, A: Allocator + Copy> StateHub<T, A> {
    /// Returns a mutable reference to the core, for subscribing and receiving.
    pub fn core_mut(&mut self) -> &mut StateCore<T, A>
        ensures* writes_back { sem 𝓛
            (LendsStateCore T.row A.row T.FlowValue A.Allocator self.entry result) }
        ensures core { result.now ≡ state_core_of self.old }
    {
        &mut self.core
    }
}
