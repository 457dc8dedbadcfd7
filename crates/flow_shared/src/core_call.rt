//! One call of a core: its arguments, what it gave, and what that means for callers that sleep.
ghost use Rattle.std.specs.Prelude.{◌≡◌, ℕ, List};
ghost use Rattle.flow_law.specs.flow.Standing.{Documents};
ghost use Rattle.flow_law.specs.declared.touch.Touch.TheVariants.{NoSleeper};
ghost use Rattle.flow_shared.specs.declared.core_call.Then.TheVariants.{Leave};
ghost use Rattle.flow_shared.specs.CoreCalls.{made, after_next, after_emit, after_polling, MaySleep};

use flow_core::FlowCore;
use flow_law::{Emit, FlowFault, Next, Refused, Touch};

/// What a count of the subscribers does to the watchers of their number.
#[derive(Clone, Copy, Debug, PartialEq, Eq)]
pub(crate) enum Watching {
    /// The caller sleeps under this number until there are more or fewer subscribers.
    Begins(u64),
    /// The watcher of this number is removed.
    Ends(u64),
    /// All watchers are woken.
    AllEnd,
}

/// What a caller does among the sleepers before it leaves.
#[derive(Clone, Copy, Debug, PartialEq, Eq)]
pub(crate) enum Then {
    Leave,
    /// It sleeps until the subscriber of this number has a value.
    AwaitValue(u64),
    /// It sleeps until the emission of this number ends.
    AwaitEnd(u64),
    Watch(Watching),
}

impl Then {
    /// Returns what a subscriber does after this answer to `next`: it sleeps if there was nothing for it.
    #[inline(always)]
    pub(crate) fn after_next<T>(number: u64, answer: &Result<Next<T>, FlowFault>) -> Then
        ensures { result ≡ after_next number answer.now }
    {
        match answer {
            Ok(Next::Empty) => Then::AwaitValue(number),
            _ => Then::Leave,
        }
    }

    /// Returns what an emitter does after this answer to `emit`: it sleeps if its emission waits.
    #[inline(always)]
    pub(crate) fn after_emit<T>(answer: &Result<Emit, Refused<T>>) -> Then
        ensures { result ≡ after_emit answer.now }
    {
        match answer {
            Ok(Emit::Queued(number)) => Then::AwaitEnd(*number),
            _ => Then::Leave,
        }
    }

    /// Returns what an emitter does after a poll of its emission: it sleeps while the emission waits.
    #[inline(always)]
    pub(crate) fn after_poll(number: u64, waits: bool) -> Then
        ensures { result ≡ after_polling number waits }
    {
        if waits {
            Then::AwaitEnd(number)
        } else {
            Then::Leave
        }
    }
}

/// What a call of a core gave.
pub(crate) struct Made<X> {
    pub(crate) answer: X,
    pub(crate) touches: Touch,
    pub(crate) then: Then,
}

impl<X> Made<X> {
    /// Returns this answer of a call that wakes no sleeper, and whose caller leaves.
    #[inline(always)]
    pub(crate) fn quiet(answer: X) -> Made<X>
        ensures { result ≡ made answer NoSleeper Leave }
    {
        Made::touching(answer, Touch::NoSleeper)
    }

    /// Returns this answer of a call whose caller leaves.
    #[inline(always)]
    pub(crate) fn touching(answer: X, touches: Touch) -> Made<X>
        ensures { result ≡ made answer touches Leave }
    {
        Made {
            answer,
            touches,
            then: Then::Leave,
        }
    }

    /// Returns this answer of a call that wakes no sleeper.
    #[inline(always)]
    pub(crate) fn before(answer: X, then: Then) -> Made<X>
        ensures { result ≡ made answer NoSleeper then }
    {
        Made {
            answer,
            touches: Touch::NoSleeper,
            then,
        }
    }
}

/// One call of a core, with its arguments.
pub(crate) trait CoreCall<S: FlowCore> {
    ghost use Rattle.flow_shared.specs.declared.core_call.Then.{Then};

    type Answer;

    /// The call as histories have it, if the next token that is made through the caller's gets this name.
    ghost call: { Self → List ℕ → S.Call };

    /// The answer as histories have it.
    ghost reply: { Self.Answer → S.Reply };

    /// What else holds of an answer.
    ghost also: { Self → Self.Answer → Type 0 } = { λ _ _. Unit {0} };

    /// What the caller does among the sleepers after this answer.
    ghost then: { Self → Self.Answer → Then } = { λ _ _. Leave };

    fn run(self, core: &mut S) -> Made<Self::Answer>
        ensures documented { (name : List ℕ) → Documents S.kind S.stands_as
            core.old (call self name) (reply result.answer) core.new }
        ensures also { also self result.answer }
        ensures touches { (name : List ℕ) →
            result.touches ≡ S.sleeping.touches (call self name) (reply result.answer) }
        ensures then { result.then ≡ then self result.answer }
        // A caller sleeps only if there is something to wait for.
        ensures waits { (name : List ℕ) (s : S.State) → S.sleeping.IsSound s
            → S.kind.Replies s (call self name) (reply result.answer)
            → MaySleep S.sleeping result.then (S.kind.after s (call self name) (reply result.answer)) };
}
