//! The flows of a script in words: a sentence for each.

use crate::page::Page;
use crate::played::{DrawnFlow, Played};
use crate::script_words::add_chain;
use flow_law::{Config, NEVER, Overflow, Started};
use flow_script::{FlowHead, number_at};
use serde_json::Value;
use std::alloc::{AllocError, Global};
use std::fmt;

/// A number of values, in words.
#[derive(Clone, Copy)]
struct Values(u32);

impl fmt::Display for Values {
    fn fmt<W: fmt::Write>(&self, f: &mut fmt::Formatter<W>) -> fmt::Result {
        let Values(count) = *self;
        match count {
            0 => write!(f, "no value"),
            1 => write!(f, "1 value"),
            _ => write!(f, "{count} values"),
        }
    }
}

/// Returns what a shared flow does with a value for which it has no room.
fn overflow_words(overflow: Overflow) -> &'static str {
    match overflow {
        Overflow::Suspend => "emitters wait",
        Overflow::DropLatest => "the new value is dropped",
        Overflow::DropOldest => "the oldest value is dropped",
    }
}

/// Adds what a shared flow keeps.
fn add_shared(page: &mut Page, config: Config) {
    page.push_str("a shared flow ");
    match (config.replay, config.extra) {
        (0, 0) => page.push_str("without a buffer: an emitter waits until all have its value"),
        (0, extra) => write!(page, "with room for {}", Values(extra)),
        (replay, 0) => write!(page, "that replays {}", Values(replay)),
        (replay, extra) => write!(
            page,
            "that replays {}, with room for {extra} more",
            Values(replay)
        ),
    }
    if config.replay > 0 || config.extra > 0 {
        write!(
            page,
            "; when it is full, {}",
            overflow_words(config.overflow)
        );
    }
}

/// Adds when a chain is started and stopped.
fn add_started(page: &mut Page, started: Started) {
    match started {
        Started::Eagerly => page.push_str("starts at once"),
        Started::Lazily => page.push_str("starts with the first subscriber"),
        Started::WhileSubscribed { stop, expire } => {
            page.push_str("starts with the first subscriber");
            if stop != NEVER {
                write!(page, ", stops {stop} ms after the last");
            }
            if expire != NEVER {
                write!(page, ", and is reset {expire} ms later");
            }
        }
    }
}

/// Adds a chain that is shared into a flow.
fn add_sharing(page: &mut Page, value: &Value, started: Started) {
    page.push_str(", of the chain ");
    if let Some(chain) = value.get("chain") {
        add_chain(page, chain);
    }
    page.push_str("; it ");
    add_started(page, started);
}

/// Adds a flow in words, in a line of its own.
fn add_flow(page: &mut Page, flow: DrawnFlow<'_>) {
    let DrawnFlow { name, value, trace } = flow;
    write!(page, "{name}: ");
    match trace.head {
        FlowHead::Shared(config) => add_shared(page, config),
        FlowHead::State | FlowHead::StateIn(_) => {
            write!(
                page,
                "a state flow whose first value is {}",
                number_at(value, "initial")
            );
        }
        FlowHead::Share(_, replay) => write!(page, "a shared flow that replays {}", Values(replay)),
    }
    if let FlowHead::Share(started, _) | FlowHead::StateIn(started) = trace.head {
        add_sharing(page, value, started);
    }
    if let Some(limit) = value.get("limit") {
        write!(page, "; it issues at most {limit} numbers");
    }
    page.push_str("\n");
}

fn add_flows(page: &mut Page, flows: &[DrawnFlow<'_>]) {
    for flow in flows {
        add_flow(page, *flow);
    }
}

/// Returns a line for each flow of a script, ended by a line feed, and then these lines of flows that were refused. A
/// script that only collects chains has no such line.
pub fn heads_of(alloc: Global, played: Played<'_>, refused: &[&str]) -> Result<String, AllocError> {
    let mut page = Page::new(alloc);
    add_flows(&mut page, played.flows);
    for line in refused {
        write!(page, "{line}\n");
    }
    page.finish()
}
