//! The flow into which a sharing emits.
ghost use Rattle.std.specs.Prelude.{◌≡◌, ◌≢◌, Bool, false, IfErr};
ghost use Rattle.flow_law.specs.declared.fault.FlowFault.{FlowFault};
ghost use Rattle.flow_law.specs.sharing.SharingCalls.{HubCall, HubAnswer, HubStep, counts, puts, polls, cancels, resets};
ghost use Rattle.flow_turns.specs.Hub.{put_answer};

use flow_law::{FlowFault, Refused};

/// A flow, and one sender into it that has at most one emission that waits.
///
/// `does` says what each call does: to the state that the core stands for, or, for a flow for several threads, which
/// events it adds to the history.
pub trait Hub: Drop {
    type Item;

    /// Whether the hub has an emission that waited at the last put or poll.
    ghost waits: { Self → Bool };

    /// What a call does, by the call, the hub before it, its answer, and the hub after it.
    ghost does: { (c : HubCall Self.Item) → Self → HubAnswer c → Self → Type 0 };

    /// The claim that a reset takes no memory. By default a hub makes no claim.
    ghost IsAlwaysReset: { Type 0 } = { ⊥ };

    /// Counts the subscribers.
    fn count(&mut self) -> Result<u64, FlowFault>
        ensures counts { HubStep does waits counts self.old result self.new }
        ensures memory { IfErr result (λ fault. fault ≢ FlowFault.OutOfMemory) };

    /// Emits a value, and returns whether the emission waits. An error returns the value.
    fn put(&mut self, value: Self::Item) -> Result<bool, Refused<Self::Item>>
        requires { waits self.old ≡ false }
        ensures puts { HubStep does waits (puts value) self.old (put_answer result) self.new }
        ensures handed_back { IfErr result (λ refused. refused.value ≡ value) };

    /// Returns whether the hub's emission still waits.
    fn poll(&mut self) -> Result<bool, FlowFault>
        ensures polls { HubStep does waits polls self.old result self.new }
        ensures memory { IfErr result (λ fault. fault ≢ FlowFault.OutOfMemory) };

    /// Cancels the hub's emission, and returns whether it waited.
    fn cancel(&mut self) -> Result<bool, FlowFault>
        ensures cancels { HubStep does waits cancels self.old result self.new }
        ensures memory { IfErr result (λ fault. fault ≢ FlowFault.OutOfMemory) };

    /// Resets the flow: a shared flow empties its replay cache, a state flow gets its initial value again. Call it
    /// while no emission of the hub waits.
    fn reset(&mut self) -> Result<(), FlowFault>
        requires { waits self.old ≡ false }
        ensures resets { HubStep does waits resets self.old result self.new }
        ensures given { IsAlwaysReset → IfErr result (λ fault. fault ≢ FlowFault.OutOfMemory) };
}
