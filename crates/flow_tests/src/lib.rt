//! Tests of flows and of the checker, and callers of flows with contracts. `chain_tests` has those of chains, of sharings
//! and of the player.
//! What each call replies is proved, for every schedule; the tests compare it with values from kotlinx.coroutines'
//! documentation.
//!
//! The tests with threads check what is not proved: that calls succeed, that callers wait no longer than they have to,
//! and the results of threads that do more than `run_count`, `run_crowd` and `run_pair`, whose results are proved.
//!
//! Rows that a script can say are in `examples/` and `tests/cases/`: `tests/programs/test_every_flow.py` plays them over every
//! kind of flow. Records with their verdicts are in `examples/records/` and `tests/programs/worked_records.py`. Here is what
//! neither says: threads that race, futures, refused copies and refused memory, drops, drains, readings, and laws in use.
//! `word` is not under `cfg(test)`, since `tools/refused` tries an edit of it, and proves only what is in the library.
#![tactic(auto)]

#[cfg(test)]
mod awaiting;
#[cfg(test)]
mod checker;
#[cfg(test)]
mod compare;
#[cfg(test)]
mod examples;
#[cfg(test)]
mod flows;
#[cfg(test)]
mod handle_calls;
#[cfg(test)]
mod handles;
#[cfg(test)]
mod host;
#[cfg(test)]
mod lent;
#[cfg(test)]
mod one_thread;
#[cfg(test)]
mod races;
#[cfg(test)]
mod reading;
#[cfg(test)]
mod refusals;
#[cfg(test)]
mod values;
pub mod word;
#[cfg(test)]
mod word_flows;
