//! When a sharing runs, depending on the number of subscribers (`SharingStarted`).
//!
//! A policy keeps no list of observations. It keeps the last moment, whether it runs, and, if it is one that stops, the
//! moment since which all counts are zero after a positive one; these also show whether a reset was due. Its clauses
//! speak of every list of observations that leads to what it keeps.
ghost use Rattle.std.specs.Prelude.{◌≡◌, ◌≢◌, ◌⊎◌, ◌+◌, ◌≤◌, ◌<◌, [], true, false, None, IfSome, IfOk, OnErr};
ghost use Rattle.std.specs.Option.{ForSome};
ghost use Rattle.flow_law.specs.sharing.Sharing.{never, command_of, runs_after, is_past_expiry};

use flow_law::{Command, NEVER, Started};
use thiserror::Error;

/// The moment of an observation is before the last one.
#[derive(Clone, Copy, Debug, PartialEq, Eq, Error)]
#[error("the moment is before the last one, {last}")]
pub struct Backwards {
    /// The last accepted moment.
    pub last: u64,
}

/// A policy, which decides at each observation whether the sharing starts or stops, and whether its flow is reset.
///
/// Each `Sharing` has one. Use a policy without a sharing to drive a chain by other means.
#[derive(Drop)]
pub struct Policy {
    started: Started,
    /// The last moment, 0 before the first observation.
    last: u64,
    /// The moment since which all counts are zero, if they follow a positive count. Only a policy that stops keeps it.
    since: Option<u64>,
    running: bool,
    ghost in_order: { ForSome since (λ moment. moment ≤ last) },
    ghost apart: { running ≡ true → is_past_expiry started last since ≡ false },
}

/// Returns the command, by whether the policy ran and runs, and a reset was due and is due. None is due while it runs.
fn change(ran: bool, runs: bool, was_expired: bool, expired: bool) -> Command
    requires ran { ran ≡ true → was_expired ≡ false }
    requires runs { runs ≡ true → expired ≡ false }
    ensures command { result ≡ command_of ran runs was_expired expired }
    ensures runs { runs ≡ runs_after result ran }
{
    match (ran, runs, was_expired, expired) {
        (false, true, _, _) => Command::Start,
        (_, _, false, true) => Command::StopAndReset,
        (true, false, _, false) => Command::Stop,
        _ => Command::Keep,
    }
}

/// Returns the moment `time` after `moment`, or `None` if it never comes.
fn later(moment: u64, time: u64) -> Option<u64>
    ensures at { IfSome result (λ at. (at ≡ moment + time) × (time ≢ never)) }
    ensures never { result ≡ None → (time ≡ never) ⊎ (never < moment + time) }
{
    if time == NEVER {
        None
    } else {
        moment.checked_add(time)
    }
}

impl Policy {
    ghost use Rattle.flow_turns.specs.Policy.{HasSeen, runs, last_at, GivesSince, GivesRunning, Observes, ActsNext};

    /// Makes a policy that has observed nothing, and does not run.
    pub fn new(started: Started) -> Self
        ensures nothing { HasSeen started result [] }
    {
        Policy {
            started,
            last: 0,
            since: None,
            running: false,
        }
    }

    /// Returns whether the policy runs since the last observation.
    pub(crate) fn is_running(&self) -> bool
        ensures { result ≡ runs self.now }
    {
        self.running
    }

    /// Returns the last accepted moment, 0 before the first observation.
    pub(crate) fn last(&self) -> u64
        ensures { result ≡ last_at self.now }
    {
        self.last
    }

    /// Returns the next moment of a stop or a reset if no subscriber comes, or `None` if there is none.
    pub(crate) fn next_moment(&self) -> Option<u64>
        ensures { ActsNext self.now result }
    {
        let Started::WhileSubscribed { stop, expire } = self.started else {
            return None;
        };
        let stops = later(self.since?, stop)?;
        if self.running {
            return Some(stops);
        }
        let expires = later(stops, expire)?;
        if expires <= self.last {
            None
        } else {
            Some(expires)
        }
    }

    /// Returns the idle moment that the policy keeps after one more observation: `None` unless the policy stops and the
    /// zero counts follow a positive one.
    fn since_after(&self, now: u64, count: u64) -> Option<u64>
        requires { self.now.last ≤ now }
        ensures since { GivesSince self.now (record { moment = now; count = count }) result }
        ensures in_order { ForSome result (λ moment. moment ≤ now) }
        ensures subscribed { 0 < count → result ≡ None }
    {
        match self.started {
            Started::Eagerly | Started::Lazily => None,
            Started::WhileSubscribed { stop: _, expire: _ } => {
                if count > 0 {
                    None
                } else if self.running && self.since.is_none() {
                    Some(now)
                } else {
                    self.since
                }
            }
        }
    }

    /// Returns whether the policy runs after one more observation.
    fn runs_after(&self, since: Option<u64>, now: u64, count: u64) -> bool
        requires in_order { ForSome since (λ moment. moment ≤ now) }
        requires subscribed { 0 < count → since ≡ None }
        ensures runs { GivesRunning self.now (record { moment = now; count = count }) since result }
        ensures apart { result ≡ true → is_past_expiry self.now.started now since ≡ false }
    {
        match self.started {
            Started::Eagerly => true,
            Started::Lazily => count > 0 || self.running,
            Started::WhileSubscribed { stop, expire: _ } => {
                count > 0
                    || match since {
                        None => false,
                        Some(since) => stop == NEVER || now - since < stop,
                    }
            }
        }
    }

    /// Returns whether the reset is due at a moment, if the counts are zero since `since`.
    fn is_past_expiry(&self, since: Option<u64>, now: u64) -> bool
        requires { ForSome since (λ moment. moment ≤ now) }
        ensures { result ≡ is_past_expiry self.now.started now since }
    {
        match (self.started, since) {
            (Started::WhileSubscribed { stop, expire }, Some(since)) => {
                stop != NEVER
                    && expire != NEVER
                    && now - since >= stop
                    && now - since - stop >= expire
            }
            _ => false,
        }
    }

    /// Accepts the number of subscribers at a moment, in milliseconds, and returns the command. A moment before the
    /// last one is refused, and changes nothing.
    pub fn observe(&mut self, now: u64, count: u64) -> Result<Command, Backwards>
        // For every list of observations that leads to this policy, the command is that of the list and the new one.
        ensures observes { Observes self.old
            (record { moment = now; count = count }) result self.new }
        ensures runs { IfOk result (λ command. runs self.new ≡ runs_after command (runs self.old)) }
        ensures unchanged { OnErr result (self.new ≡ self.old) }
    {
        if now < self.last {
            return Err(Backwards { last: self.last });
        }
        let since = self.since_after(now, count);
        let runs = self.runs_after(since, now, count);
        let was_expired = self.is_past_expiry(self.since, self.last);
        let expired = self.is_past_expiry(since, now);
        let command = change(self.running, runs, was_expired, expired);
        self.since = since;
        self.running = runs;
        self.last = now;
        Ok(command)
    }
}
