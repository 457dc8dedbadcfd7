//! What follows a fault of the chain: collecting it anew, or taking the sharing apart.
ghost use Rattle.std.specs.Prelude.{◌≡◌, ◌↔◌, true, false, IsTrue, OnOk, OnErr, IsOk};
ghost use Rattle.flow_turns.specs.SharingViews.{sharing_state, sharing_chain, hub_of, has_ended, CanRun, KeepsReadings, SharesChain, IsBetweenTurns};
ghost use Rattle.flow_turns.specs.Restarting.{restarted};

use crate::sharing::Sharing;
use flow_cold::Cold;
use thiserror::Error;

/// The sharing has not ended, so there is nothing to restart.
#[derive(Clone, Copy, Debug, PartialEq, Eq, Error)]
#[error("the sharing has not ended")]
pub struct NotEnded;

impl<C: Cold, H> Sharing<C, H> {
    /// Collects the chain anew after a fault (`retry`): the next turn continues with the chain's first item, if the
    /// policy still says so. The policy keeps what it has observed, and the flow its values.
    ///
    /// # Errors
    /// `NotEnded` if the chain has not failed. Nothing changes.
    ///
    /// # Source
    /// `retry` of the chain before `shareIn`.
    pub fn restart(&mut self) -> Result<(), NotEnded>
        requires { CanRun C.CanAsk self.old }
        ensures callable { CanRun C.CanAsk self.new }
        ensures reads { KeepsReadings C.Reads (sharing_chain self.old) (sharing_chain self.new) }
        ensures ended { IsOk result ↔ IsTrue (has_ended self.old) }
        ensures refused { OnErr result (self.new ≡ self.old) }
        ensures hub { hub_of self.new ≡ hub_of self.old }
        ensures policy { self.new.policy ≡ self.old.policy }

        // The first state of a sharing, except that the policy runs as it did, with the whole chain left.
        ensures state { OnOk result (sharing_state self.new ≡ restarted (sharing_state self.old)) }
        ensures chain { OnOk result ((m : C.Reading)
            → (C.whole (sharing_chain self.new) m ≡ C.whole (sharing_chain self.old) m)
            × (C.rest (sharing_chain self.new) m ≡ C.whole (sharing_chain self.old) m)) }
        ensures between { OnOk result (IsBetweenTurns C.whole C.rest self.new) }
    {
        if !self.ended {
            return Err(NotEnded);
        }
        self.chain.rewind();
        self.kept = None;
        self.cancel_due = false;
        self.reset_due = false;
        self.completed = false;
        self.ended = false;
        Ok(())
    }

    /// Takes the sharing apart: returns its chain, as the last turn left it, and its hub. An item that the flow has not
    /// accepted is dropped. An emission that waits stays in the flow.
    pub fn into_parts(self) -> (C, H)
        ensures chain { result.0 ≡ sharing_chain self }
        ensures hub { result.1 ≡ hub_of self }
    {
        let Sharing { chain, hub, .. } = self;
        (chain, hub)
    }
}
