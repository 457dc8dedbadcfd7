//! A step of a script, as it is handed to the token that makes its call.

use crate::said::Said;
use flow_law::Next;
use flow_script::{Answer, FlowStep};

/// The call of a step on a flow.
#[derive(Drop)]
pub enum Call {
    Step(FlowStep),
    /// A subscription with these first values of its own.
    SubscribeWith(Vec<i64>),
}

impl Call {
    /// Returns what is said of the call if its token is gone: the emission was done, or the subscription was refused or
    /// has ended.
    pub fn without_token(&self) -> Said {
        match self {
            Call::Step(FlowStep::Poll(_)) => Said::Answer(Answer::Waits(false)),
            Call::Step(FlowStep::Next(_)) => Said::Answer(Answer::Received(Next::Gone)),
            Call::Step(FlowStep::Cancel(_) | FlowStep::Unsubscribe(_)) => {
                Said::Answer(Answer::Tested(false))
            }
            _ => Said::Answer(Answer::NoFlow),
        }
    }
}
