//! `map` and `stateIn` of a hot flow: a thread keeps a state that is derived from another one.
use flow_law::FlowFault;
use flow_shared::{Setter, StateFlow, StateReader};
use flow_sharing::derive_state;
use std::alloc::Global;
use std::sync::Wait;
use std::thread::{Threads, join};

fn in_fahrenheit(celsius: &i64) -> i64 {
    celsius.wrapping_mul(9).wrapping_div(5).wrapping_add(32)
}

/// Keeps `fahrenheit` at the temperature of `celsius`, until that is `last`.
fn derive<R: Wait>(
    rt: &R,
    celsius: &mut StateReader<i64>,
    fahrenheit: &mut Setter<i64>,
    last: i64,
) -> Result<(), FlowFault> {
    for _ in rt.forever() {
        if derive_state(rt, celsius, fahrenheit, in_fahrenheit)? == last {
            return Ok(());
        }
    }
    unreachable!()
}

/// Sets the temperature to each degree from 1 to `last`.
fn heat<R: Wait>(rt: &R, celsius: &mut Setter<i64>, last: i64) {
    for degrees in 1..=last {
        celsius.set(rt, degrees);
    }
}

/// Returns 100 degrees Celsius in degrees Fahrenheit, from the derived state.
pub fn derived<R: Wait + Threads + Sync>(rt: &R, alloc: Global) -> Result<i64, FlowFault> {
    let (celsius, seat) = StateFlow::new(alloc, 0i64, u64::MAX)?;
    let mut heating = celsius.into_setter(alloc, seat)?;
    let mut changes = heating.subscribe(rt)?;
    let (fahrenheit, seat) = StateFlow::new(alloc, 32i64, u64::MAX)?;
    let mut derived = fahrenheit.into_setter(alloc, seat)?;
    let (done, ()) = join(
        rt,
        || derive(rt, &mut changes, &mut derived, 100),
        || heat(rt, &mut heating, 100),
    );
    done?;
    Ok(derived.value(rt)?)
}
