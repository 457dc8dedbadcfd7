//! The upstream of an operator, and whether the operator has ended.
ghost use Rattle.std.specs.Prelude.{◌≡◌, ◌≢◌, ◌⊎◌, ◌<◌, true, false, IfOk, IfErr};
ghost use Rattle.flow_operators.specs.Asking.{IsFinal, IsItem};
ghost use Rattle.flow_operators.specs.SameChain.{StaysChain};
ghost use Rattle.flow_operators.specs.Upstreams.{NextGives, answer_of, chain_of, is_ended, is_fault, left_of};

use crate::cold::{Asked, Cold};
use flow_law::ChainFault;

/// The upstream of an operator. Once the operator has ended, the upstream is not asked any more.
#[derive(Drop)]
pub(crate) struct Upstream<C> {
    chain: C,
    pub(crate) ended: bool,
}

impl<C: Cold> Upstream<C> {
    pub(crate) fn new(chain: C) -> Self
        ensures chain { chain_of result ≡ chain }
        ensures ended { is_ended result ≡ false }
    {
        Upstream {
            chain,
            ended: false,
        }
    }

    /// Returns the upstream's next item, or the answer in place of one. An end or a fault ends the operator. An `Err` is
    /// what the operator then answers itself, and need not be a fault: it may be `Pending` or the end.
    pub(crate) fn next<U>(&mut self) -> Result<C::Item, Asked<U>>
        requires { C.CanAsk (chain_of self.old) }
        ensures stays { StaysChain C.Cold (chain_of self.old) (chain_of self.new) }
        ensures gives { (m : C.Reading) → C.Reads (chain_of self.old) m
            → NextGives (left_of (λ c. C.rest c m) self.old) result
            (left_of (λ c. C.rest c m) self.new) }
        ensures behind { (¬ (is_ended self.old ≡ true)) →
            (m : C.Reading) → C.Reads (chain_of self.old) m
            → NextGives (C.rest (chain_of self.old) m) result (C.rest (chain_of self.new) m) }
        ensures fewer { IfOk result (λ _.
            C.bound.most_asks (chain_of self.new) < C.bound.most_asks (chain_of self.old)) }
        ensures pends { IfErr result (λ asked. IsFinal asked
            ⊎ C.bound.most_asks (chain_of self.new) < C.bound.most_asks (chain_of self.old)) }
        ensures given { C.IsGiven (chain_of self.old)
            → IfErr result (λ asked. asked ≢ Asked.Fault ChainFault.OutOfMemory) }
        ensures no_item { IfErr result (λ asked. ¬ IsItem asked) }
        ensures runs { IfOk result (λ _.
            (is_ended self.old ≡ false) × (is_ended self.new ≡ false)) }
        ensures over { IfErr result (λ asked. IsFinal asked → is_ended self.new ≡ true) }
        ensures end { is_ended self.old ≡ true → (result ≡ Err Asked.End) × self.new ≡ self.old }
    {
        if self.ended {
            return Err(Asked::End);
        }
        match self.chain.ask() {
            Asked::Item(item) => Ok(item),
            Asked::Pending => Err(Asked::Pending),
            Asked::End => Err(self.end()),
            Asked::Fault(fault) => Err(self.fail(fault)),
        }
    }

    /// Ends the operator.
    pub(crate) fn end<U>(&mut self) -> Asked<U>
        ensures answer { result ≡ Asked.End }
        ensures chain { chain_of self.new ≡ chain_of self.old }
        ensures ended { is_ended self.new ≡ true }
    {
        self.ended = true;
        Asked::End
    }

    /// Ends the operator by a fault.
    pub(crate) fn fail<U>(&mut self, fault: ChainFault) -> Asked<U>
        ensures answer { result ≡ Asked.Fault fault }
        ensures chain { chain_of self.new ≡ chain_of self.old }
        ensures ended { is_ended self.new ≡ true }
    {
        self.ended = true;
        Asked::Fault(fault)
    }

    /// Returns what the operator made of an item, as an answer. A fault ends the operator.
    pub(crate) fn answer<U>(&mut self, made: Result<U, ChainFault>) -> Asked<U>
        requires { is_ended self.old ≡ false }
        ensures answer { result ≡ answer_of made }
        ensures chain { chain_of self.new ≡ chain_of self.old }
        ensures ended { is_ended self.new ≡ is_fault made }
        ensures over { IsFinal result → is_ended self.new ≡ true }
    {
        match made {
            Ok(item) => Asked::Item(item),
            Err(fault) => self.fail(fault),
        }
    }

    pub(crate) fn rewind(&mut self)
        requires { C.CanAsk (chain_of self.old) }
        ensures stays { StaysChain C.Cold (chain_of self.old) (chain_of self.new) }
        ensures rest { (m : C.Reading) →
            C.rest (chain_of self.new) m ≡ C.whole (chain_of self.old) m }
        ensures ended { is_ended self.new ≡ false }
    {
        self.ended = false;
        self.chain.rewind();
    }
}
