//! New flows of whole numbers, and new readers of them. A test ends if one of them is refused.
ghost use Rattle.std.specs.Prelude.{◌≡◌};
ghost use Rattle.std.specs.Arc.{arc_value};

use flow_law::Config;
use flow_shared::{
    Emitter, Reader, Seat, Setter, SharedFlow, StateFlow, StateReader, StateSeat, Subscription,
};
use flow_word::{WordReader, WordSeat, WordSetter, WordState};
use std::alloc::{Allocator, Global};
use std::process::Abort;
use std::sync::{Arc, Wait};

/// Returns a new shared flow and its first seat.
pub fn new_flow(rt: &impl Abort, alloc: Global, config: Config) -> (SharedFlow<i64>, Seat<i64>)
    ensures { result.1.table_id ≡ result.0.table_id }
{
    SharedFlow::new(alloc, config).expect(rt, "a flow")
}

/// Returns a new shared flow and its first emitter, which own it together.
pub fn new_owned_flow(
    rt: &impl Abort,
    alloc: Global,
    config: Config,
) -> (Arc<SharedFlow<i64>>, Emitter<i64>)
    ensures { result.1.flow ≡ arc_value result.0 }
{
    let (flow, seat) = new_flow(rt, alloc, config);
    let flow = Arc::new(alloc, flow).expect(rt, "memory");
    let again = Arc::try_clone(&flow).expect(rt, "an owner");
    (flow, Emitter::new(again, seat))
}

/// Returns the first emitter of a new shared flow.
pub fn new_emitter(rt: &impl Abort, alloc: Global, config: Config) -> Emitter<i64> {
    let (flow, seat) = new_flow(rt, alloc, config);
    flow.into_emitter(alloc, seat).expect(rt, "memory")
}

/// Returns a new state flow that begins with this value and issues at most this many numbers, and its first seat.
pub fn new_state_flow(
    rt: &impl Abort,
    alloc: Global,
    value: i64,
    limit: u64,
) -> (StateFlow<i64>, StateSeat<i64>)
    ensures { result.1.table_id ≡ result.0.table_id }
{
    StateFlow::new(alloc, value, limit).expect(rt, "a flow")
}

/// Returns the first setter of such a flow.
pub fn new_setter(rt: &impl Abort, alloc: Global, value: i64, limit: u64) -> Setter<i64> {
    let (flow, seat) = new_state_flow(rt, alloc, value, limit);
    flow.into_setter(alloc, seat).expect(rt, "memory")
}

/// Returns a new word state that begins with this value and issues at most this many numbers, and its first seat.
pub fn new_word_state(
    rt: &impl Abort,
    alloc: Global,
    value: i64,
    limit: u32,
) -> (WordState<i64>, WordSeat<i64>)
    ensures { result.1.table_id ≡ result.0.table_id }
{
    WordState::new(alloc, value, limit).expect(rt, "a flow")
}

/// Returns the first setter of such a state.
pub fn new_word_setter(rt: &impl Abort, alloc: Global, value: i64, limit: u32) -> WordSetter<i64> {
    let (flow, seat) = new_word_state(rt, alloc, value, limit);
    flow.into_setter(alloc, seat).expect(rt, "memory")
}

/// Subscribes to a shared flow.
pub fn new_reader<R: Wait + Abort, A: Allocator + Copy>(
    rt: &R,
    emitter: &mut Emitter<i64, A>,
) -> Reader<i64, A>
    ensures flow { emitter.new.flow ≡ emitter.old.flow }
    ensures made { result.flow ≡ emitter.old.flow }
{
    emitter.subscribe(rt).expect(rt, "a reader")
}

/// Subscribes to a state flow.
pub fn new_state_reader<R: Wait + Abort, A: Allocator + Copy>(
    rt: &R,
    setter: &mut Setter<i64, A>,
) -> StateReader<i64, A> {
    setter.subscribe(rt).expect(rt, "a reader")
}

/// Subscribes to a word state.
pub fn new_word_reader<R: Wait + Abort>(rt: &R, setter: &mut WordSetter<i64>) -> WordReader<i64>
    ensures flow { setter.new.flow ≡ setter.old.flow }
    ensures made { result.flow ≡ setter.old.flow }
{
    setter.subscribe(rt).expect(rt, "a reader")
}

/// Subscribes to a shared flow by a seat.
pub fn new_subscription<R: Wait + Abort>(
    rt: &R,
    flow: &SharedFlow<i64>,
    seat: &mut Seat<i64>,
) -> Subscription<i64>
    requires { seat.old.table_id ≡ flow.now.table_id }
    ensures seat { seat.new.table_id ≡ flow.entry.now.table_id }
    ensures made { result.token.table_id ≡ flow.entry.now.table_id }
{
    flow.subscribe(rt, seat).expect(rt, "a subscription")
}
