//! Callers of flows that no script has: threads that race, futures that are polled by hand, calls that do not wait for
//! other callers, dropped tokens, and gates.

mod alone;
mod asleep;
mod dropped;
mod gate;
mod leaving;
mod polled;
mod races;
mod threads;
mod watchers;
