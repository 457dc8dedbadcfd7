//! The trait of cold chains.
ghost use Rattle.std.specs.Prelude.{◌≡◌, ◌≢◌, ◌⊎◌, ◌<◌, ◌≤◌};
ghost use Rattle.flow_law.specs.chain.ChainRun.{ChainRun};
ghost use Rattle.flow_operators.specs.Asking.{AskGives, IsFinal, OnEnd};
ghost use Rattle.flow_operators.specs.Bound.{Bound};

use flow_law::{ChainFault, FlowValue};

/// What a chain answers when it is asked.
#[derive(Debug, Drop)]
pub enum Asked<T> {
    Item(T),
    /// There is no item yet: ask again.
    Pending,
    /// There are no more items until `rewind`.
    End,
    /// The chain failed. Later asks answer `End`.
    Fault(ChainFault),
}

/// A cold flow that is asked for one item at a time.
///
/// Contracts see a chain as two runs, each with an entry for every ask and then the end: the whole run, and the rest of
/// it. Both are stated for each *reading* of the chain: a function for each of its closures, which the closure computes
/// unless memory is refused (`Reads`). A chain without closures has one reading. A closure that gives two answers to
/// one argument has no reading; then nothing is claimed of the chain's items, and everything else still holds.
pub trait Cold: Drop {
    ghost use Rattle.flow_law.specs.declared.chain.End.{End};
    ghost use Rattle.flow_operators.specs.declared.cold.Asked.{Asked};

    type Item: FlowValue;

    /// The readings of the chain's closures: a function for each of them.
    ghost Reading: { Type 0 };

    /// Whether the closures may be called. Nothing else is required of a closure.
    ghost CanAsk: { Self → Type 0 };

    /// Whether the closures compute the functions of a reading, unless memory is refused.
    ghost Reads: { Self → Reading → Type 0 };

    /// The run from the start, by a reading. No call changes it.
    ghost whole: { Self → Reading → ChainRun Self.Item };

    /// The rest of the run, by a reading.
    ghost rest: { Self → Reading → ChainRun Self.Item };

    /// A bound on the asks before the end, whatever the closures answer.
    ghost bound: { Bound Self };

    /// Whether the chain is over: each ask then answers `End`, and changes nothing. A chain that has ended or failed
    /// since it was started is over.
    ghost IsOver: { Self → Type 0 };

    /// Whether the chain has answered this end since it was started. It always holds of a chain that does not record
    /// its end.
    ghost HasAnswered: { Self → End → Type 0 } = { λ _ _. Unit {0} };

    /// Whether no ask can be refused memory: copies that the chain makes of items are always given, and no call of a
    /// closure answers `OutOfMemory`. By default a chain makes no claim.
    ghost IsGiven: { Self → Type 0 } = { λ _. ⊥ };

    /// What an ask does to the upstream chains: it takes just the entries that the answer needs. A source has no
    /// upstream.
    ghost AsksBehind: { Self → Reading → Asked Self.Item → Self → Type 0 };

    /// Takes the next entry of the rest. Unless `IsGiven` holds, it may fail with `OutOfMemory` instead, which ends the
    /// chain.
    fn ask(&mut self) -> Asked<Self::Item>
        requires { CanAsk self.old }
        ensures callable { CanAsk self.new }
        ensures reads { (m : Reading) → Reads self.old m → Reads self.new m }
        ensures whole { (m : Reading) → whole self.new m ≡ whole self.old m }
        ensures gives { (m : Reading) → Reads self.old m →
            AskGives (rest self.old m) result (rest self.new m) }
        ensures fewer { IsFinal result ⊎ bound.most_asks self.new < bound.most_asks self.old }
        ensures over { IsFinal result → IsOver self.new }
        ensures answered { OnEnd result (HasAnswered self.new) }
        ensures behind { (¬ IsOver self.old) → (m : Reading) → Reads self.old m
            → AsksBehind self.old m result self.new }
        ensures given { IsGiven self.old → result ≢ Asked.Fault ChainFault.OutOfMemory }
        ensures lasting { IsGiven self.old → IsGiven self.new }
        // A chain that is over does not change, and neither do its upstream chains.
        ensures end { IsOver self.old → (result ≡ Asked.End) × self.new ≡ self.old };

    /// Starts the chain from the beginning, whatever was taken before.
    fn rewind(&mut self)
        requires { CanAsk self.old }
        ensures callable { CanAsk self.new }
        ensures reads { (m : Reading) → Reads self.old m → Reads self.new m }
        ensures whole { (m : Reading) → whole self.new m ≡ whole self.old m }
        ensures rest { (m : Reading) → rest self.new m ≡ whole self.old m }
        ensures lasting { IsGiven self.old → IsGiven self.new };

    ghost limited: { bound.IsLimited → (s : Self) → bound.most_asks s ≤ bound.limit };
}
