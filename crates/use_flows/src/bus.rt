//! An event bus: three producers, three consumers from the start, and one that comes late. The flow drops its oldest
//! event rather than make a producer wait, so a slow consumer misses some.
mod event;

use anyhow::Result;
use event::Event;
use flow_law::{Config, Overflow};
use flow_shared::{Emitter, Reader, SharedFlow};
use flow_word::{WordReader, WordSetter, WordState};
use std::alloc::Global;
use std::sync::Wait;
use std::thread::{Threads, join, sleep};
use std::time::{Clock, Duration};

/// How many events each producer sends.
const EACH: u32 = 1000;

/// How many events the consumers have counted.
#[derive(Drop)]
pub struct BusCounts {
    /// Of the two consumers that do not pause.
    pub fast: (u32, u32),
    pub slow: u32,
    /// Of the late consumer: how many events were there for it at once, and how many came after them.
    pub late: (u32, u32),
}

/// Sends its events, and counts each one in `sent`.
fn produce<R: Wait>(
    rt: &R,
    bus: &mut Emitter<Event>,
    sent: &mut WordSetter<u32>,
    producer: u32,
) -> Result<()> {
    for number in 0..EACH {
        bus.send(rt, Event::Tick { producer, number })?;
        sent.update(rt, |n| n.wrapping_add(1));
    }
    Ok(())
}

/// Receives up to the last event, and pauses after each one. Returns how many events came.
fn consume<R: Wait + Clock>(
    rt: &R,
    reader: &mut Reader<Event>,
    pause: Option<Duration>,
) -> Result<u32> {
    let mut count = 0u32;
    for event in reader.values(rt) {
        if event? == Event::End {
            break;
        }
        count = count.saturating_add(1);
        if let Some(pause) = pause {
            sleep(rt, pause);
        }
    }
    Ok(count)
}

/// Subscribes once 100 events were sent, or later. The last event may be among the first five.
fn consume_late<R: Wait + Clock>(
    rt: &R,
    bus: &mut Emitter<Event>,
    sent: &mut WordReader<u32>,
) -> Result<(u32, u32)> {
    sent.wait_for(rt, |n| *n >= 100);
    let mut reader = bus.subscribe(rt)?;
    let (mut replayed, mut has_ended) = (0u32, false);
    for _ in 0..5 {
        if let Some(event) = reader.next(rt)? {
            replayed = replayed.saturating_add(1);
            has_ended = event == Event::End;
        }
    }
    if has_ended {
        return Ok((replayed, 0));
    }
    Ok((replayed, consume(rt, &mut reader, None)?))
}

/// Runs the producers side by side, and then sends the last event.
fn produce_all<R: Wait + Threads + Sync>(
    rt: &R,
    bus: &mut Emitter<Event>,
    sent: &mut WordSetter<u32>,
) -> Result<()> {
    let (mut a, mut b) = (bus.another(rt), bus.another(rt));
    let (mut sent_a, mut sent_b) = (sent.another(rt), sent.another(rt));
    let two = || {
        join(
            rt,
            || produce(rt, &mut a, &mut sent_a, 1),
            || produce(rt, &mut b, &mut sent_b, 2),
        )
    };
    let ((one, two), three) = join(rt, two, || produce(rt, bus, sent, 3));
    bus.send(rt, Event::End)?;
    one.and(two).and(three)
}

/// Runs the two fast consumers.
fn consume_fast<R: Wait + Threads + Clock + Sync>(
    rt: &R,
    readers: &mut (Reader<Event>, Reader<Event>),
) -> Result<(u32, u32)> {
    let (a, b) = readers;
    let (a, b) = join(rt, || consume(rt, a, None), || consume(rt, b, None));
    Ok((a?, b?))
}

/// Runs the slow consumer and the late one.
fn consume_slowly<R: Wait + Threads + Clock + Sync>(
    rt: &R,
    slow: &mut Reader<Event>,
    late: &mut Emitter<Event>,
    sent: &mut WordReader<u32>,
) -> Result<(u32, (u32, u32))> {
    let pause = Some(Duration::from_millis(5));
    let (slow, late) = join(
        rt,
        || consume(rt, slow, pause),
        || consume_late(rt, late, sent),
    );
    Ok((slow?, late?))
}

/// Makes the bus and all callers, and runs them.
pub fn run<R: Wait + Threads + Clock + Sync>(rt: &R, alloc: Global) -> Result<BusCounts> {
    let config = Config::new()
        .replay(5)
        .extra(59)
        .overflow(Overflow::DropOldest);
    let (flow, seat) = SharedFlow::new(alloc, config)?;
    let mut bus = flow.into_emitter(alloc, seat)?;
    let (state, seat) = WordState::new(alloc, 0u32, u32::MAX)?;
    let mut sent = state.into_setter(alloc, seat)?;
    let mut readers = (bus.subscribe(rt)?, bus.subscribe(rt)?);
    let (mut slow, mut late) = (bus.subscribe(rt)?, bus.another(rt));
    let mut so_far = sent.subscribe(rt)?;
    let consumers = || {
        join(
            rt,
            || consume_fast(rt, &mut readers),
            || consume_slowly(rt, &mut slow, &mut late, &mut so_far),
        )
    };
    let ((fast, others), produced) = join(rt, consumers, || produce_all(rt, &mut bus, &mut sent));
    produced?;
    let (slow, late) = others?;
    Ok(BusCounts {
        fast: fast?,
        slow,
        late,
    })
}
