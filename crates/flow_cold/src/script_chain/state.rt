//! The states of the operators with one upstream, and their steps.
ghost use Rattle.std.specs.Ordering.{int_eq};
ghost use Rattle.std.specs.Prelude.{◌≡◌, ◌≢◌, suc, ℤ, Some, Err};
ghost use Rattle.flow_law.specs.chain.ChainRun.{ChainRun, gives};
ghost use Rattle.flow_law.specs.chain.OperatorRuns.{distinct_run, drop_run, scan_run, take_run, transform_run};
ghost use Rattle.flow_operators.specs.Behind.{rest_after_ask, after_distinct, after_drop, after_scan, after_transform};
ghost use Rattle.flow_cold.specs.Numbers.{computed, sums};
ghost use Rattle.flow_cold.specs.OperatorAsks.{HeldLeaves, StepLeaves, after_adding};
ghost use Rattle.flow_cold.specs.Operators.{HeldGives, StepGives, adding_rest, after_number, after_step, scanning_rest};

use crate::script_chain::numbers::all_sums_fit;
use crate::script_chain::op::Arithmetic;
use crate::script_chain::operator::Step;
use flow_law::ChainFault;

/// What a map computes for each item.
#[derive(Drop)]
pub struct Mapping {
    pub by: Arithmetic,
    pub k: i64,
}

/// The state of a `take`. `more` is the number of items after the first, `left` the number after the next one.
#[derive(Drop)]
pub struct Taking {
    pub more: u64,
    pub left: u64,
}

impl Taking {
    /// Makes the state before the first item. The count is not 0.
    pub fn new(count: u64) -> Taking
        requires { count ≢ 0 }
        ensures more { suc result.more ≡ count }
        ensures left { suc result.left ≡ count }
    {
        let more = count - 1;
        Taking { more, left: more }
    }

    /// Returns the item, as the last one if no other may follow.
    pub fn on_item(&mut self, item: i64) -> Step
        ensures more { self.new.more ≡ self.old.more }
        ensures gives { (r : ChainRun ℤ) →
            StepGives (take_run (suc self.old.left) (gives item r)) result
            (take_run (suc self.new.left) r) }
        ensures leaves { (r further : ChainRun ℤ) → StepLeaves r result r further }
        ensures held { (r q : ChainRun ℤ) → after_step result r q ≡ q }
        ensures given { result ≢ Step.Fault ChainFault.OutOfMemory }
    {
        if self.left == 0 {
            return Step::Last(item);
        }
        self.left -= 1;
        Step::Item(item)
    }
}

/// The state of a `drop`. It drops `left` more items.
#[derive(Drop)]
pub struct Dropping {
    pub count: u64,
    pub left: u64,
}

impl Dropping {
    /// Drops the item if `left` is not 0, else returns it.
    pub fn on_item(&mut self, item: i64) -> Step
        ensures count { self.new.count ≡ self.old.count }
        ensures gives { (r : ChainRun ℤ) → StepGives (drop_run (gives item r) self.old.left) result
            (drop_run r self.new.left) }
        ensures behind { (r : ChainRun ℤ)
            → StepLeaves (after_drop (gives item r) self.old.left) result r
            (after_drop r self.new.left) }
        ensures held { (r q : ChainRun ℤ) → after_step result r q ≡ q }
        ensures given { result ≢ Step.Fault ChainFault.OutOfMemory }
    {
        if self.left == 0 {
            return Step::Item(item);
        }
        self.left -= 1;
        Step::Nothing
    }
}

/// The state of a `transform`. The sums of `item` and the entries from `at` on are not emitted yet.
#[derive(Drop)]
pub struct Adding {
    pub entries: Vec<i64>,
    pub item: i64,
    pub at: usize,
}

impl Adding {
    /// Makes the state before the first item.
    pub fn new(entries: Vec<i64>) -> Adding
        ensures { result.entries ≡ entries }
    {
        Adding {
            entries,
            item: 0,
            at: 0,
        }
    }

    /// Returns the next sum, if one is left.
    pub fn next_held(&mut self) -> Option<Result<i64, ChainFault>>
        ensures entries { self.new.entries ≡ self.old.entries }
        ensures gives { (r : ChainRun ℤ) → HeldGives (adding_rest self.old r) result
            (after_number result (adding_rest self.new r)
            (transform_run (sums self.new.entries.items) r)) }
        ensures behind { (r : ChainRun ℤ)
            → HeldLeaves (after_adding self.old r) result r
            (after_transform (sums self.new.entries.items) r) }
        ensures given { result ≢ Some (Err ChainFault.OutOfMemory) }
    {
        if self.at >= self.entries.len() {
            return None;
        }
        let sum = self.item.checked_add(self.entries[self.at]);
        self.at += 1;
        match sum {
            Some(sum) => Some(Ok(sum)),
            None => Some(Err(ChainFault::Overflow)),
        }
    }

    /// Holds the sums of an item and the entries, or returns the fault if one of them is out of range.
    pub fn on_item(&mut self, item: i64) -> Step
        ensures entries { self.new.entries ≡ self.old.entries }
        ensures gives { (r : ChainRun ℤ)
            → StepGives (transform_run (sums self.old.entries.items) (gives item r)) result
            (after_step result (adding_rest self.new r)
            (transform_run (sums self.new.entries.items) r)) }
        ensures behind { (r : ChainRun ℤ)
            → StepLeaves (after_transform (sums self.old.entries.items) (gives item r)) result r
            (after_step result (after_adding self.new r)
            (after_transform (sums self.new.entries.items) r)) }
        ensures given { result ≢ Step.Fault ChainFault.OutOfMemory }
    {
        if !all_sums_fit(&self.entries, item) {
            return Step::Fault(ChainFault::Overflow);
        }
        self.item = item;
        self.at = 0;
        Step::Held
    }
}

/// The state of a `scan`. `begun` says that the initial value was emitted; `last` is the accumulator.
#[derive(Drop)]
pub struct Scanning {
    pub initial: i64,
    pub by: Arithmetic,
    pub begun: bool,
    pub last: i64,
}

impl Scanning {
    /// Returns the initial value, if it was not emitted yet.
    pub fn next_held(&mut self) -> Option<Result<i64, ChainFault>>
        ensures by { self.new.by ≡ self.old.by }
        ensures initial { self.new.initial ≡ self.old.initial }
        ensures gives { (r : ChainRun ℤ) → HeldGives (scanning_rest self.old r) result
            (after_number result (scanning_rest self.new r)
            (scan_run (computed self.new.by) self.new.last r)) }
        ensures behind { (r : ChainRun ℤ) →
            HeldLeaves (after_scan self.old.begun r) result r (rest_after_ask r) }
        ensures given { result ≢ Some (Err ChainFault.OutOfMemory) }
    {
        if self.begun {
            return None;
        }
        self.begun = true;
        self.last = self.initial;
        Some(Ok(self.initial))
    }

    /// Returns the next accumulator.
    pub fn on_item(&mut self, item: i64) -> Step
        ensures by { self.new.by ≡ self.old.by }
        ensures initial { self.new.initial ≡ self.old.initial }
        ensures gives { (r : ChainRun ℤ)
            → StepGives (scan_run (computed self.old.by) self.old.last (gives item r)) result
            (scan_run (computed self.new.by) self.new.last r) }
        ensures leaves { (r further : ChainRun ℤ) → StepLeaves r result r further }
        ensures held { (r q : ChainRun ℤ) → after_step result r q ≡ q }
        ensures given { result ≢ Step.Fault ChainFault.OutOfMemory }
    {
        match self.by.compute(self.last, item) {
            Ok(result) => {
                self.last = result;
                Step::Item(result)
            }
            Err(fault) => Step::Fault(fault),
        }
    }
}

/// The state of a `distinctUntilChanged`: the item before, if there was one.
#[derive(Drop)]
pub struct Comparing {
    pub last: Option<i64>,
}

impl Comparing {
    /// Returns the item, unless it is the same as the one before.
    pub fn on_item(&mut self, item: i64) -> Step
        ensures gives { (r : ChainRun ℤ) → StepGives
            (distinct_run int_eq self.old.last (gives item r)) result
            (distinct_run int_eq self.new.last r) }
        ensures behind { (r : ChainRun ℤ)
            → StepLeaves (after_distinct int_eq self.old.last (gives item r)) result r
            (after_distinct int_eq self.new.last r) }
        ensures held { (r q : ChainRun ℤ) → after_step result r q ≡ q }
        ensures given { result ≢ Step.Fault ChainFault.OutOfMemory }
    {
        if self.last == Some(item) {
            return Step::Nothing;
        }
        self.last = Some(item);
        Step::Item(item)
    }
}
