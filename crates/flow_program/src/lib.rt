//! The program `flow_play` over any reader and writer: its arguments, what it prints, and its status.
//!
//! `run` reads and plays a script, or runs threads if the arguments say so. Another program, or a test, calls it with a
//! reader and a writer of its own.
//!
//! The threads are those of `run_crowd`, which emit and read through one shared flow, and those of `run_count`, which
//! count with one state flow, without a lock.
//!
//! # What is proved of the threads
//! `run_crowd` and `run_pair`: each subscriber got what all emitters sent, each emitter's values in their order.
//!
//! `run_count`: no update is lost. If it returns a value, that is the number of updates that all threads made. The
//! proof uses only the contracts of `WordSetter`: each thread proves what it did itself, and because all seats are
//! known, what they did is all that was done.
//!
//! All of this holds for every schedule.
#![tactic(auto)]

mod command;
mod count;
mod crowd;
mod crowd_lines;
mod program;

pub use count::{CountSize, run_count};
pub use crowd::{CrowdSize, run_crowd, run_pair};
pub use program::{refuse_arguments, run};
