//! Tests of handles: calls that no script makes, dropped handles, waits of threads and futures. The values are from
//! kotlinx.coroutines' documentation.
mod errors;
mod meetings;
mod outliving;
mod refusals;
mod shared;
mod state;
mod states;
mod tasks;
mod views;
mod word;
