//! The results so far, for `scan` and `running_reduce`.
ghost use Rattle.std.specs.Prelude.{◌≡◌, ◌≢◌, ◌⊎◌, ◌<◌, true, false, None, IfOk, IfErr};
ghost use Rattle.flow_operators.specs.Asking.{IsFinal};
ghost use Rattle.flow_operators.specs.Results.{AsksScanned, KeepsResult, ResultGives};
ghost use Rattle.flow_operators.specs.Results.{initial_of, is_scan_over, last_result, most_results, scanned};
ghost use Rattle.flow_operators.specs.SameChain.{StaysChain};
ghost use Rattle.flow_operators.specs.Upstreams.{WithAnswer};

use crate::cold::{Asked, Cold};
use crate::upstream::Upstream;
use flow_law::{ChainFault, FlowValue};

/// A chain, the initial value, and the last result, which is `None` until the initial value is emitted.
#[derive(Drop)]
pub(crate) struct Results<C, U> {
    upstream: Upstream<C>,
    initial: U,
    last: Option<U>,
}

impl<C: Cold, U: FlowValue> Results<C, U> {
    pub(crate) fn new(upstream: C, initial: U) -> Self
        ensures chain { scanned result ≡ upstream }
        ensures initial { initial_of result ≡ initial }
        ensures last { last_result result ≡ None }
        ensures over { is_scan_over result ≡ false }
    {
        Results {
            upstream: Upstream::new(upstream),
            initial,
            last: None,
        }
    }

    /// Returns the last result and the next item, or the answer in place of them. The first answer is the initial
    /// value.
    pub(crate) fn next(&mut self) -> Result<(U, C::Item), Asked<U>>
        requires { C.CanAsk (scanned self.old) }
        ensures stays { StaysChain C.Cold (scanned self.old) (scanned self.new) }
        ensures initial { initial_of self.new ≡ initial_of self.old }
        ensures gives { (m : C.Reading) → C.Reads (scanned self.old) m
            → ResultGives (λ c. C.rest c m) self.old result self.new }
        ensures runs { IfOk result (λ _. is_scan_over self.new ≡ false) }
        ensures fewer { IfOk result (λ _.
            C.bound.most_asks (scanned self.new) < most_results C.bound.most_asks self.old) }
        ensures pends { IfErr result (λ asked. IsFinal asked
            ⊎ most_results C.bound.most_asks self.new < most_results C.bound.most_asks self.old) }
        ensures over { IfErr result (λ asked. IsFinal asked → is_scan_over self.new ≡ true) }
        ensures given { C.IsGiven (scanned self.old) → U.IsAlwaysCopied
            → IfErr result (λ asked. asked ≢ Asked.Fault ChainFault.OutOfMemory) }
        ensures behind { (¬ (is_scan_over self.old ≡ true)) →
            (m : C.Reading) → C.Reads (scanned self.old) m
            → WithAnswer result (λ asked. AsksScanned (λ c. C.rest c m) self.old asked self.new) }
        ensures end { is_scan_over self.old ≡ true → (result ≡ Err Asked.End) × self.new ≡ self.old }
    {
        if self.upstream.ended {
            return Err(Asked::End);
        }
        match self.last.take() {
            Some(last) => match self.upstream.next() {
                Ok(item) => Ok((last, item)),
                Err(asked) => {
                    self.last = Some(last);
                    Err(asked)
                }
            },
            None => match self.initial.try_copy() {
                Ok(first) => Err(self.keep(Ok(first))),
                Err(_) => Err(self.upstream.fail(ChainFault::OutOfMemory)),
            },
        }
    }

    /// Answers what was made of an item, and keeps a copy of it as the last result. A fault ends the chain.
    pub(crate) fn keep(&mut self, made: Result<U, ChainFault>) -> Asked<U>
        requires { is_scan_over self.old ≡ false }
        ensures keeps { KeepsResult made result self.new }
        ensures chain { scanned self.new ≡ scanned self.old }
        ensures initial { initial_of self.new ≡ initial_of self.old }
        ensures given { U.IsAlwaysCopied → made ≢ Err ChainFault.OutOfMemory
            → result ≢ Asked.Fault ChainFault.OutOfMemory }
        ensures over { IsFinal result → is_scan_over self.new ≡ true }
    {
        match made {
            Ok(next) => match next.try_copy() {
                Ok(copy) => {
                    self.last = Some(copy);
                    Asked::Item(next)
                }
                Err(_) => self.upstream.fail(ChainFault::OutOfMemory),
            },
            Err(fault) => self.upstream.fail(fault),
        }
    }

    pub(crate) fn rewind(&mut self)
        requires { C.CanAsk (scanned self.old) }
        ensures stays { StaysChain C.Cold (scanned self.old) (scanned self.new) }
        ensures rest { (m : C.Reading)
            → C.rest (scanned self.new) m ≡ C.whole (scanned self.old) m }
        ensures initial { initial_of self.new ≡ initial_of self.old }
        ensures last { last_result self.new ≡ None }
        ensures over { is_scan_over self.new ≡ false }
    {
        self.last = None;
        self.upstream.rewind();
    }
}
