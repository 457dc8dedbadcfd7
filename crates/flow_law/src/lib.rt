//! The types, definitions and laws of flows.
//!
//! The code here makes configurations and errors, and copies, compares and packs values. `specs/` defines shared flows,
//! state flows and chains, their histories, and the states that a core stands for. The crates that build on this one and
//! speak of flows are proved against these definitions.
#![tactic(auto)]

mod call;
mod chain;
mod config;
mod errors;
mod fault;
mod guarded;
mod history;
mod laws;
mod outcome;
mod report;
mod sequence;
mod sharing;
mod states;
mod touch;
mod value;

pub use call::{SharedCall, SharedReply, StateCall, StateReply};
pub use chain::{ChainFault, End};
pub use config::{Config, Overflow};
pub use errors::{
    Busy, EmitNowError, Exhausted, NumberError, OutOfMemory, Rejected, TryNextError, Unsupported,
};
pub use fault::{FlowFault, Refused};
pub use guarded::Guarded;
pub use history::{HistoryEvent, Knowledge, Said};
pub use laws::{
    law_accepted, law_admitted, law_closed, law_conflated, law_current, law_delivered,
    law_idle_since, law_lagged, law_linearizable, law_no_idle_queue, law_replay, law_turn_account,
    law_updated,
};
pub use outcome::{Drained, Emit, Next};
pub use report::{Event, Report, ShareFault};
pub use sequence::Sequence;
pub use sharing::{Command, NEVER, SharingObservation, Started};
pub use states::{
    EmittingFlow, Numbered, SharedFlowState, StateAndInitial, StateFlowState, StateSubscriber,
    Subscriber,
};
pub use touch::Touch;
pub use value::{Boxed, FlowValue, Half, Items, OneWord, Packed, Text, Words};
