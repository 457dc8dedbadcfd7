//! Calls of a flow with the moments at which they began and ended, in the form of a record (docs/RECORDS.md).
use std::io::{self, Write};

/// A call of a flow.
#[derive(Clone, Copy)]
pub enum Call {
    Value,
    Set(u64),
    /// The expected value, and the new one.
    CompareAndSet(u64, u64),
    /// Replaces the value by the one after it.
    Update,
    TryEmit(u64),
    Emit(u64),
    Subscribe,
    Next,
    Unsubscribe,
    SubscriptionCount,
    ReplayCache,
    ResetReplayCache,
}

/// The answer to a call.
#[derive(Clone, Copy)]
pub enum Answer {
    Done,
    Cancelled,
    Value(u64),
    Truth(bool),
    Empty,
    Number(u64),
    /// The old value, and the new one.
    Exchange(u64, u64),
    /// A replay cache of one value.
    Cache(u64),
    EmptyCache,
}

/// A call that was recorded.
#[derive(Clone, Copy)]
pub struct Entry {
    pub call: Call,
    pub answer: Answer,
    pub begin: u64,
    pub end: u64,
}

/// The number of values of a state flow. It is small, so that exchanges often find the value that they expect.
const VALUES: u64 = 3;

/// Returns the value that an update puts in place of this one.
pub fn value_after(value: u64) -> u64 {
    value.wrapping_add(1) % VALUES
}

/// Returns the call of a state flow that a number stands for.
pub fn call_of_state(number: u32) -> Call {
    let rest = u64::from(number / 10);
    let value = rest % VALUES;
    match number % 10 {
        0 | 1 => Call::Set(value),
        2 => Call::CompareAndSet(rest / VALUES % VALUES, value),
        3 => Call::Update,
        4 => Call::Value,
        5 => Call::SubscriptionCount,
        6 => Call::Unsubscribe,
        _ => Call::Next,
    }
}

/// Returns the call of a shared flow that a number stands for. No other call emits the value `fresh`.
pub fn call_of_shared(number: u32, fresh: u64) -> Call {
    match number % 12 {
        0 | 1 => Call::TryEmit(fresh),
        2 | 3 => Call::Emit(fresh),
        4 => Call::SubscriptionCount,
        5 => Call::ReplayCache,
        6 => Call::ResetReplayCache,
        7 => Call::Unsubscribe,
        _ => Call::Next,
    }
}

impl Call {
    fn name(self) -> &'static str {
        match self {
            Call::Value => "value",
            Call::Set(_) => "set",
            Call::CompareAndSet(_, _) => "compare_and_set",
            Call::Update => "update",
            Call::TryEmit(_) => "try_emit",
            Call::Emit(_) => "emit",
            Call::Subscribe => "subscribe",
            Call::Next => "next",
            Call::Unsubscribe => "unsubscribe",
            Call::SubscriptionCount => "subscription_count",
            Call::ReplayCache => "replay_cache",
            Call::ResetReplayCache => "reset_replay_cache",
        }
    }
}

impl Answer {
    /// Returns the answer for what `next` returned.
    pub fn of(next: Option<u64>) -> Answer {
        match next {
            Some(value) => Answer::Value(value),
            None => Answer::Empty,
        }
    }

    /// Returns the answer for a replay cache of at most one value.
    pub fn of_cache(cache: &[u64]) -> Answer {
        match cache.first() {
            Some(value) => Answer::Cache(*value),
            None => Answer::EmptyCache,
        }
    }

    /// Returns the answer's text, unless it has a number.
    fn text(self) -> Option<&'static str> {
        match self {
            Answer::Done => Some("\"done\""),
            Answer::Cancelled => Some("\"cancelled\""),
            Answer::Empty => Some("\"empty\""),
            Answer::Truth(true) => Some("true"),
            Answer::Truth(false) => Some("false"),
            Answer::EmptyCache => Some("[]"),
            _ => None,
        }
    }
}

fn write_arguments<W: Write>(out: &mut W, call: Call) -> io::Result<()> {
    match call {
        Call::CompareAndSet(expect, value) => {
            write!(out, ", \"expect\": {expect}, \"value\": {value}")
        }
        Call::Set(value) | Call::TryEmit(value) | Call::Emit(value) => {
            write!(out, ", \"value\": {value}")
        }
        _ => Ok(()),
    }
}

fn write_numbers<W: Write>(out: &mut W, answer: Answer) -> io::Result<()> {
    match answer {
        Answer::Value(value) => write!(out, "{{\"value\": {value}}}"),
        Answer::Number(number) => write!(out, "{number}"),
        Answer::Exchange(old, new) => write!(out, "{{\"old\": {old}, \"value\": {new}}}"),
        Answer::Cache(value) => write!(out, "[{value}]"),
        _ => Ok(()),
    }
}

fn write_answer<W: Write>(out: &mut W, answer: Answer) -> io::Result<()> {
    match answer.text() {
        Some(text) => write!(out, "{text}"),
        None => write_numbers(out, answer),
    }
}

impl Entry {
    /// Writes the line of a call of the caller of this number.
    pub fn write<W: Write>(self, out: &mut W, caller: u32) -> io::Result<()> {
        let name = self.call.name();
        write!(out, "{{\"by\": \"t{caller}\", \"call\": \"{name}\"")?;
        write_arguments(out, self.call)?;
        let Entry { begin, end, .. } = self;
        write!(out, ", \"begin\": {begin}, \"end\": {end}, \"answer\": ")?;
        write_answer(out, self.answer)?;
        writeln!(out, "}}")
    }
}
