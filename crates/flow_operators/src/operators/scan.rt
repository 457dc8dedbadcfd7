//! `scan`: an initial value, then the results so far.
ghost use Rattle.std.specs.Prelude.{◌≡◌, ◌+◌, true, Result};
ghost use Rattle.flow_law.specs.declared.chain.ChainFault.{ChainFault};
ghost use Rattle.flow_law.specs.chain.ChainRun.{gives};
ghost use Rattle.flow_law.specs.chain.OperatorRuns.{scan_run};
ghost use Rattle.flow_operators.specs.Closures.{ComputesPairs, NeverRefusesPairs};
ghost use Rattle.flow_operators.specs.Results.{AsksScanned, initial_of, is_scan_over, most_results, results_rest, scanned};
ghost use Rattle.std.proofs.Common.{arith};
ghost use Rattle.std.proofs.lemmas.Grind.{common_steps};

use crate::cold::{Asked, Cold};
use crate::operators::results::Results;
use flow_law::{ChainFault, FlowValue};

/// A chain of an initial value, then of what a closure makes of the last result and each item.
#[derive(Drop)]
pub struct Scan<C, U, F> {
    pub(crate) results: Results<C, U>,
    pub(crate) closure: F,
}

impl<C, U, F> Cold for Scan<C, U, F>
where
    C: Cold,
    U: FlowValue,
    F: Fn(U, C::Item) -> Result<U, ChainFault>,
{
    type Item = U;

    ghost Reading = { C.Reading × (U × C.Item → Result U ChainFault) };

    ghost CanAsk = { λ s. C.CanAsk (scanned s.results) × F.IsAlwaysCallable s.closure };

    ghost Reads = { λ s m. C.Reads (scanned s.results) m.0 × ComputesPairs (F.post s.closure) m.1 };

    ghost whole = { λ s m. gives (initial_of s.results)
        (scan_run m.1 (initial_of s.results) (C.whole (scanned s.results) m.0)) };

    ghost rest = { λ s m. results_rest (λ c. C.rest c m.0) m.1 s.results };

    ghost bound = { record {
      most_asks = λ s. most_results C.bound.most_asks s.results;
      IsLimited = C.bound.IsLimited;
      limit = C.bound.limit + 1;
    } };

    ghost IsOver = { λ s. is_scan_over s.results ≡ true };

    ghost IsGiven = { λ s. C.IsGiven (scanned s.results)
        × NeverRefusesPairs (F.post s.closure) × U.IsAlwaysCopied };

    ghost AsksBehind = { λ old m result new.
        AsksScanned (λ c. C.rest c m.0) old.results result new.results };

    fn ask(&mut self) -> Asked<U> {
        match self.results.next() {
            Ok((last, item)) => {
                let made = (self.closure)(last, item);
                self.results.keep(made)
            }
            Err(asked) => asked,
        }
    }

    fn rewind(&mut self) {
        self.results.rewind();
    }

    ghost limited = { λ l s. Prim.grind (arith, common_steps, C.limited l (scanned s.results)) };
}
