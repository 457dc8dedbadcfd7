//! A shared flow as the checker keeps it.
ghost use Rattle.std.specs.Prelude.{◌≡◌, [], None, IfOk};
ghost use Rattle.flow_check.specs.Subscribed.{kept_of, none_subscribed};
ghost use Rattle.flow_check.specs.SharedMachine.{own_left, no_values, kept_capacity, kept_window, most_lag};
ghost use Rattle.flow_check.specs.SharedMachine.{is_kept_blocked};
ghost use Rattle.flow_check.specs.SharedMachine.{kept_emit_case, kept_when_blocked, last_values, value_at};
ghost use Rattle.flow_check.specs.SharedMachine.{is_in_queue, offering, is_offered_by, is_caller_waiting};
ghost use Rattle.flow_check.specs.SharedMachine.{first_lag};

use crate::subscribed::present;
use flow_law::{Config, Overflow};
use std::alloc::{AllocError, Global};
use std::marker::Model;

/// A caller whose `emit` waits, and its value.
#[derive(Clone, Copy)]
pub struct Held {
    pub caller: usize,
    pub value: u64,
}

/// What is left of a caller's own first values.
#[derive(Drop)]
pub struct Own {
    pub values: Vec<u64>,
}

impl Model for Own {
    ghost use Rattle.std.specs.Prelude.{ℕ, List};

    ghost Value = { List ℕ };

    ghost view = { λ own. own.values.items };
}

impl Own {
    pub fn new(alloc: Global, values: &[u64]) -> Result<Own, AllocError>
        ensures { IfOk result (λ own. own ≡ values.now) }
    {
        let values = Vec::from_slice(alloc, values)?;
        Ok(Own { values })
    }
}

/// What an emission does.
#[derive(Clone, Copy)]
pub enum EmitCase {
    Appends,
    /// The value is appended, and its emitter waits.
    Offers,
    Queues,
    DropsLatest,
    DropsOldest,
}

/// The state of a shared flow. It has the emitted values that can still be received or replayed,
/// and how many of them the replay cache has. For each caller it has the lag, which is how many
/// emitted values the caller has still to receive, if the caller is subscribed, and what is left of
/// the caller's own first values. It also has the emitters that wait, and the one whose value is
/// offered.
///
/// It has neither positions nor numbers, so that equal states are the same.
#[derive(Drop)]
pub struct SharedMachine {
    pub config: Config,
    pub values: Vec<u64>,
    pub cached: usize,
    pub lags: Vec<Option<usize>>,
    pub owns: Vec<Own>,
    pub queue: Vec<Held>,
    pub offered: Option<usize>,
}

impl Model for SharedMachine {
    ghost use Rattle.flow_check.specs.SharedMachine.{Kept};

    ghost Value = { Kept };

    ghost view = { λ m. record {
      config = m.config;
      values = m.values.items;
      cached = m.cached;
      lags = m.lags.items;
      owns = m.owns.items;
      queue = m.queue.items;
      offered = m.offered;
    } };
}

/// Returns the greatest lag of a subscriber.
pub fn most_lag(lags: &[Option<usize>]) -> usize
    ensures { result ≡ most_lag lags.now }
{
    let mut rest = lags;
    let mut most: usize = 0;
    while let Some((first, others)) = rest.split_first() {
        if let Some(lag) = first {
            most = most.max(*lag);
        }
        rest = others;
    }
    most
}

/// Returns the last `count` values.
pub fn last_values(values: &[u64], count: usize) -> &[u64]
    ensures { result.now ≡ last_values count values.now }
{
    let skipped = values.len().saturating_sub(count);
    let (_, last) = values.split_at(skipped);
    last
}

/// Returns the list of this index, or an empty one if there is none.
pub fn own_at(owns: &[Own], index: usize) -> &[u64]
    ensures { result.now ≡ own_left index owns.now }
{
    match owns.get(index) {
        None => &[],
        Some(own) => own.values.as_slice(),
    }
}

fn copied_owns(alloc: Global, owns: &[Own]) -> Result<Vec<Own>, AllocError>
    ensures { IfOk result (λ copy. copy.items ≡ owns.now) }
{
    let mut copy = Vec::new(alloc);
    for own in owns {
        copy.push(Own::new(alloc, own.values.as_slice())?)?;
    }
    Ok(copy)
}

/// Returns whether an `emit` of the caller is queued.
fn is_in_queue(queue: &[Held], caller: usize) -> bool
    ensures { result ≡ is_in_queue caller queue.now }
{
    let mut rest = queue;
    while let Some((first, others)) = rest.split_first() {
        if first.caller == caller {
            return true;
        }
        rest = others;
    }
    false
}

fn when_blocked(overflow: Overflow) -> EmitCase
    ensures { result ≡ kept_when_blocked overflow }
{
    match overflow {
        Overflow::Suspend => EmitCase::Queues,
        Overflow::DropLatest => EmitCase::DropsLatest,
        Overflow::DropOldest => EmitCase::DropsOldest,
    }
}

impl SharedMachine {
    /// Makes a shared flow of this configuration, to which none of these callers is subscribed.
    pub fn new<C>(alloc: Global, config: Config, callers: &[C]) -> Result<Self, AllocError>
        ensures { IfOk result (λ made. made ≡ record {
          config = config;
          values = [];
          cached = 0;
          lags = none_subscribed callers.now;
          owns = no_values callers.now;
          queue = [];
          offered = None;
        }) }
    {
        let mut lags = Vec::new(alloc);
        let mut owns = Vec::new(alloc);
        for _caller in callers {
            lags.push(None)?;
            owns.push(Own::new(alloc, &[])?)?;
        }
        Ok(SharedMachine {
            config,
            values: Vec::new(alloc),
            cached: 0,
            lags,
            owns,
            queue: Vec::new(alloc),
            offered: None,
        })
    }

    pub fn copied(&self, alloc: Global) -> Result<Self, AllocError>
        ensures { IfOk result (λ copy. copy ≡ self.now) }
    {
        Ok(SharedMachine {
            config: self.config,
            values: Vec::from_slice(alloc, self.values.as_slice())?,
            cached: self.cached,
            lags: Vec::from_slice(alloc, self.lags.as_slice())?,
            owns: copied_owns(alloc, self.owns.as_slice())?,
            queue: Vec::from_slice(alloc, self.queue.as_slice())?,
            offered: self.offered,
        })
    }

    /// Returns how many emitted values the caller has still to receive, if it is subscribed.
    pub fn lag(&self, caller: usize) -> Option<usize>
        ensures { result ≡ kept_of caller self.now.lags }
    {
        match self.lags.as_slice().get(caller) {
            None => None,
            Some(lag) => *lag,
        }
    }

    /// Returns what is left of the caller's own first values.
    pub fn own(&self, caller: usize) -> &[u64]
        ensures { result.now ≡ own_left caller self.now.owns }
    {
        own_at(self.owns.as_slice(), caller)
    }

    pub fn capacity(&self) -> usize
        ensures { result ≡ kept_capacity self.now }
    {
        self.config.replay as usize + self.config.extra as usize
    }

    /// Returns the lag at which a subscriber blocks the flow.
    pub fn window(&self) -> usize
        ensures { result ≡ kept_window self.now }
    {
        self.capacity().max(1)
    }

    pub fn is_blocked(&self) -> bool
        ensures { result ≡ is_kept_blocked self.now }
    {
        most_lag(self.lags.as_slice()) >= self.window()
    }

    pub fn emit_case(&self) -> EmitCase
        ensures { result ≡ kept_emit_case self.now }
    {
        let is_blocked = self.is_blocked();
        if present(self.lags.as_slice()) == 0 || (!is_blocked && self.capacity() > 0) {
            return EmitCase::Appends;
        }
        if is_blocked {
            when_blocked(self.config.overflow)
        } else {
            EmitCase::Offers
        }
    }

    /// Returns the caller whose value is offered: one that some subscriber has not received.
    pub fn offering(&self) -> Option<usize>
        ensures { result ≡ offering self.now }
    {
        if most_lag(self.lags.as_slice()) == 0 {
            None
        } else {
            self.offered
        }
    }

    /// Returns whether the caller's value is offered.
    pub fn is_offering(&self, caller: usize) -> bool
        ensures { result ≡ is_offered_by caller (offering self.now) }
    {
        match self.offering() {
            None => false,
            Some(other) => other == caller,
        }
    }

    /// Returns whether the caller's `emit` waits.
    pub fn is_waiting(&self, caller: usize) -> bool
        ensures { result ≡ is_caller_waiting caller self.now }
    {
        self.is_offering(caller) || is_in_queue(self.queue.as_slice(), caller)
    }

    /// Returns how many emitted values a new subscriber has to receive.
    pub fn first_lag(&self) -> usize
        ensures { result ≡ first_lag self.now }
    {
        match self.offering() {
            None => self.cached,
            Some(_) => 1,
        }
    }

    /// Returns the emitted value that a subscriber with this lag receives next.
    pub fn value_at(&self, lag: usize) -> Option<u64>
        ensures { result ≡ value_at lag self.now.values }
    {
        last_values(self.values.as_slice(), lag).first().copied()
    }
}
