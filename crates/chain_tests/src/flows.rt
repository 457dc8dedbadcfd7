//! New flows of whole numbers, and new readers of them. A test ends if one of them is refused.
ghost use Rattle.std.specs.Prelude.{◌≡◌};
ghost use Rattle.std.specs.Arc.{arc_value};

use crate::compare::compare;
use flow_law::Config;
use flow_shared::{Emitter, Reader, Setter, SharedFlow, StateFlow, StateReader};
use flow_word::{WordReader, WordSetter, WordState};
use std::alloc::{Allocator, Global};
use std::process::Abort;
use std::sync::{Arc, Wait};

/// Returns a new shared flow and its first emitter, which own it together.
pub fn new_flow(
    rt: &impl Abort,
    alloc: Global,
    config: Config,
) -> (Arc<SharedFlow<i64>>, Emitter<i64>)
    ensures { result.1.flow ≡ arc_value result.0 }
{
    let (flow, seat) = SharedFlow::new(alloc, config).expect(rt, "a flow");
    let flow = Arc::new(alloc, flow).expect(rt, "memory");
    let again = Arc::try_clone(&flow).expect(rt, "an owner");
    (flow, Emitter::new(again, seat))
}

/// Returns a new state flow that begins with this value and issues at most this many numbers, and its first setter.
pub fn new_state_flow(
    rt: &impl Abort,
    alloc: Global,
    value: i64,
    limit: u64,
) -> (Arc<StateFlow<i64>>, Setter<i64>)
    ensures { result.1.flow ≡ arc_value result.0 }
{
    let (flow, seat) = StateFlow::new(alloc, value, limit).expect(rt, "a flow");
    let flow = Arc::new(alloc, flow).expect(rt, "memory");
    let again = Arc::try_clone(&flow).expect(rt, "an owner");
    (flow, Setter::new(again, seat))
}

/// Returns a new word state that begins with this value and issues at most this many numbers, and its first setter.
pub fn new_word_state(
    rt: &impl Abort,
    alloc: Global,
    value: i64,
    limit: u32,
) -> (Arc<WordState<i64>>, WordSetter<i64>)
    ensures { result.1.flow ≡ arc_value result.0 }
{
    let (flow, seat) = WordState::new(alloc, value, limit).expect(rt, "a flow");
    let flow = Arc::new(alloc, flow).expect(rt, "memory");
    let again = Arc::try_clone(&flow).expect(rt, "an owner");
    (flow, WordSetter::new(again, seat))
}

/// Subscribes to a shared flow.
pub fn new_reader<R: Wait + Abort, A: Allocator + Copy>(
    rt: &R,
    emitter: &mut Emitter<i64, A>,
) -> Reader<i64, A>
    ensures flow { emitter.new.flow ≡ emitter.old.flow }
    ensures made { result.flow ≡ emitter.old.flow }
{
    emitter.subscribe(rt).expect(rt, "a reader")
}

/// Subscribes to a state flow.
pub fn new_state_reader<R: Wait + Abort, A: Allocator + Copy>(
    rt: &R,
    setter: &mut Setter<i64, A>,
) -> StateReader<i64, A> {
    setter.subscribe(rt).expect(rt, "a reader")
}

/// Subscribes to a word state.
pub fn new_word_reader<R: Wait + Abort>(rt: &R, setter: &mut WordSetter<i64>) -> WordReader<i64>
    ensures flow { setter.new.flow ≡ setter.old.flow }
    ensures made { result.flow ≡ setter.old.flow }
{
    setter.subscribe(rt).expect(rt, "a reader")
}

/// Compares the replay cache that a caller reads.
pub fn reads_cache<R: Wait + Abort>(rt: &R, emitter: &mut Emitter<i64>, wanted: &[i64]) {
    let cache = emitter.replay_cache(rt).expect(rt, "memory");
    compare(rt, "the replay cache", cache.as_slice(), wanted);
}
