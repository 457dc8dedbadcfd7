//! The sharing of a chain, which makes the turns.

use crate::call::Call;
use crate::refused::sharing_refused;
use crate::said::Said;
use crate::token::{Host, Reply, Token, left, not_asked};
use flow_cold::ScriptChain;
use flow_script::{Answer, FlowStep};
use flow_sharing::{Hub, Sharing};

impl<H: Hub<Item = i64> + Send + Drop> Token for Sharing<ScriptChain, H> {
    fn call<R: Host>(self, _rt: &R, call: Call) -> Reply<Self> {
        let mut sharing = self;
        let Call::Step(FlowStep::Turn(now)) = call else {
            return not_asked(sharing);
        };
        let outcome = match sharing.turn(now) {
            Ok(report) => Ok(Said::Answer(Answer::Turned(report))),
            Err(fault) => sharing_refused(fault).map(Said::Answer),
        };
        left(sharing, outcome)
    }
}
