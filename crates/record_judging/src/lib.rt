//! Judges recorded calls of a flow: whether the documented flow may have answered so.
//!
//! `judge_record` reads a record in JSON, has `flow_check` judge it, and writes the verdict: for an illegal record also
//! the first moment by which no order explains the calls, with the calls that contradict each other, if a search finds
//! it; for a refused one the place of what is wrong. `draw_record` draws the calls over time.
//!
//! Statuses: 0 legal, 1 illegal, 2 refused, 3 gave up.
#![tactic(auto)]

mod conflict;
mod drawing;
mod explaining;
mod fields;
mod judging;
mod left_out;
mod looks;
mod order;
mod reading;
mod reading_answer;
mod reading_flow;
mod refusal;
mod shared_rows;
mod state_rows;
mod svg;
mod verdict;
mod words;
mod written;

pub use drawing::Form;
pub use verdict::{REFUSED, draw_record, judge_record};
