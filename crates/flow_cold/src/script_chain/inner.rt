//! The inner numbers that a `flat_map` has not emitted yet.
ghost use Rattle.std.specs.Prelude.{◌≡◌, ◌≢◌, ℤ, Some, Err};
ghost use Rattle.flow_law.specs.chain.ChainRun.{ChainRun, gives};
ghost use Rattle.flow_law.specs.chain.OperatorRuns.{flat_map_run};
ghost use Rattle.flow_operators.specs.Behind.{after_flat_map};
ghost use Rattle.flow_cold.specs.declared.script_chain.op.Spread.TheVariants as spread;
ghost use Rattle.flow_cold.specs.Numbers.{spread_run};
ghost use Rattle.flow_cold.specs.OperatorAsks.{HeldLeaves, StepLeaves, after_following, after_repeating};
ghost use Rattle.flow_cold.specs.Operators.{HeldGives, StepGives, after_number, after_step, following_rest, repeating_rest};

use crate::script_chain::numbers::last_of;
use crate::script_chain::operator::Step;
use flow_law::ChainFault;

/// The state of a `flat_map` to ranges. Unless it is closed, the numbers from `next` to `last` are not emitted yet.
#[derive(Drop)]
pub struct Following {
    pub count: u64,
    pub next: i64,
    pub last: i64,
    pub closed: bool,
}

impl Following {
    /// Makes the state before the first item.
    pub fn new(count: u64) -> Following
        ensures { result.count ≡ count }
    {
        Following {
            count,
            next: 0,
            last: 0,
            closed: true,
        }
    }

    /// Returns the next number, if one is left.
    pub fn next_held(&mut self) -> Option<Result<i64, ChainFault>>
        ensures count { self.new.count ≡ self.old.count }
        ensures gives { (r : ChainRun ℤ) → HeldGives (following_rest self.old r) result
            (after_number result (following_rest self.new r)
            (flat_map_run (spread_run spread.Range self.new.count) r)) }
        ensures behind { (r : ChainRun ℤ) → HeldLeaves (after_following self.old r) result r
            (after_flat_map (spread_run spread.Range self.new.count) r) }
        ensures given { result ≢ Some (Err ChainFault.OutOfMemory) }
    {
        if self.closed {
            return None;
        }
        let item = self.next;
        if item > self.last {
            self.closed = true;
            return None;
        }
        if item < self.last {
            self.next = item + 1;
        } else {
            self.closed = true;
        }
        Some(Ok(item))
    }

    /// Holds the `count` numbers from an item on, or returns the fault if the last of them is out of range.
    pub fn on_item(&mut self, item: i64) -> Step
        ensures count { self.new.count ≡ self.old.count }
        ensures gives { (r : ChainRun ℤ)
            → StepGives (flat_map_run (spread_run spread.Range self.old.count) (gives item r))
            result
            (after_step result (following_rest self.new r)
            (flat_map_run (spread_run spread.Range self.new.count) r)) }
        ensures behind { (r : ChainRun ℤ)
            → StepLeaves
            (after_flat_map (spread_run spread.Range self.old.count) (gives item r)) result r
            (after_step result (after_following self.new r)
            (after_flat_map (spread_run spread.Range self.new.count) r)) }
        ensures given { result ≢ Step.Fault ChainFault.OutOfMemory }
    {
        if self.count == 0 {
            return Step::Nothing;
        }
        match last_of(item, self.count - 1) {
            Ok(last) => {
                self.next = item;
                self.last = last;
                self.closed = false;
                Step::Held
            }
            Err(fault) => Step::Fault(fault),
        }
    }
}

/// The state of a `flat_map` to repeated items. It emits `item` `left` more times.
#[derive(Drop)]
pub struct Repeating {
    pub count: u64,
    pub item: i64,
    pub left: u64,
}

impl Repeating {
    /// Returns the item once more, or `None` if `left` is 0.
    pub fn next_held(&mut self) -> Option<Result<i64, ChainFault>>
        ensures count { self.new.count ≡ self.old.count }
        ensures gives { (r : ChainRun ℤ) → HeldGives (repeating_rest self.old r) result
            (after_number result (repeating_rest self.new r)
            (flat_map_run (spread_run spread.Repeat self.new.count) r)) }
        ensures behind { (r : ChainRun ℤ) → HeldLeaves (after_repeating self.old r) result r
            (after_flat_map (spread_run spread.Repeat self.new.count) r) }
        ensures given { result ≢ Some (Err ChainFault.OutOfMemory) }
    {
        if self.left == 0 {
            return None;
        }
        self.left -= 1;
        Some(Ok(self.item))
    }

    /// Holds an item, to be emitted `count` times.
    pub fn on_item(&mut self, item: i64) -> Step
        ensures count { self.new.count ≡ self.old.count }
        ensures gives { (r : ChainRun ℤ)
            → StepGives (flat_map_run (spread_run spread.Repeat self.old.count) (gives item r))
            result
            (repeating_rest self.new r) }
        ensures behind { (r : ChainRun ℤ)
            → StepLeaves
            (after_flat_map (spread_run spread.Repeat self.old.count) (gives item r)) result r
            (after_repeating self.new r) }
        ensures held { (r q : ChainRun ℤ) → after_step result r q ≡ r }
        ensures given { result ≢ Step.Fault ChainFault.OutOfMemory }
    {
        self.item = item;
        self.left = self.count;
        Step::Held
    }
}
