//! Records the calls of threads to a flow.
use crate::arguments::RecordedKind;
use crate::crew::{Recorded, Turn};
use crate::found::{Found, NOTHING};
use crate::order::value_of;
use crate::recording::{Call, Entry};
use rand_core::utils::NextWord;
use std::io::{self, Write};
use std::sync::Wait;
use std::sync::atomic::{AtomicU64, Ordering};
use std::time::Clock;

/// Chooses a call. A caller without a subscription subscribes before it reads or leaves.
fn choose<C: Recorded>(caller: &C, turn: &mut Turn) -> Call {
    let fresh = value_of(turn.number, turn.entries.len() as u64);
    let call = C::choose(turn.dice.next_word(), fresh);
    if matches!(call, Call::Next | Call::Unsubscribe) && !caller.is_subscribed() {
        Call::Subscribe
    } else {
        call
    }
}

fn tick(clock: &AtomicU64) -> u64 {
    clock.fetch_add(1, Ordering::SeqCst)
}

/// Makes a call and records it. Returns None if it was refused.
fn record_call<C: Recorded, R: Wait + Clock>(
    rt: &R,
    caller: &mut C,
    turn: &mut Turn,
    clock: &AtomicU64,
) -> Option<()> {
    let call = choose(caller, turn);
    let begin = tick(clock);
    let answer = caller.make(rt, call)?;
    let end = tick(clock);
    let entry = Entry {
        call,
        answer,
        begin,
        end,
    };
    turn.entries.push(entry).ok()
}

/// Makes the calls of one thread. All threads raise one clock, once before a call and once after it. Returns None if a
/// call was refused, or if memory ran out.
pub fn record_all<C: Recorded, R: Wait + Clock>(
    rt: &R,
    caller: &mut C,
    turn: &mut Turn,
    clock: &AtomicU64,
) -> Option<Found> {
    for _ in 0..turn.rounds {
        record_call(rt, caller, turn, clock)?;
    }
    Some(NOTHING)
}

/// Returns the text for a flow of this kind in a record.
fn words_of(kind: RecordedKind) -> &'static str {
    match kind {
        RecordedKind::Word | RecordedKind::State => "\"kind\": \"state\", \"initial\": 0",
        RecordedKind::Shared =>
            "\"kind\": \"shared\", \"replay\": 1, \"extra\": 2, \"overflow\": \"suspend\"",
        RecordedKind::Dropping | RecordedKind::WordFlow => {
            "\"kind\": \"shared\", \"replay\": 1, \"extra\": 1, \"overflow\": \"drop_oldest\""
        }
        RecordedKind::Rendezvous => {
            "\"kind\": \"shared\", \"replay\": 0, \"extra\": 0, \"overflow\": \"suspend\""
        }
    }
}

/// Writes the first line of a record, which describes the flow that is called.
pub fn write_flow<W: Write>(out: &mut W, kind: RecordedKind) -> io::Result<()> {
    writeln!(out, "{{\"flow\": {{{}}}}}", words_of(kind))
}

/// Writes what all threads have recorded.
pub fn write_calls<W: Write>(out: &mut W, turns: &[Turn]) -> io::Result<()> {
    for turn in turns {
        for entry in &turn.entries {
            entry.write(out, turn.number)?;
        }
    }
    Ok(())
}
