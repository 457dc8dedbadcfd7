//! The steps of a turn before it collects: obeying the command, and then the cancel and the reset that are due.
ghost use Rattle.std.specs.Prelude.{◌≡◌, ◌||◌, true, false, IfOk};
ghost use Rattle.flow_law.specs.sharing.SharingTurn as steps;
ghost use Rattle.flow_turns.specs.SharingViews.{sharing_chain, has_ended, CanRun, KeepsReadings};
ghost use Rattle.flow_turns.specs.TurnParts.{ActsBy, CommandLeads, GoesOn};

use crate::hub::Hub;
use crate::sharing::Sharing;
use flow_cold::Cold;
use flow_law::{Command, FlowFault};

impl<C: Cold, H: Hub<Item = C::Item>> Sharing<C, H> {
    /// Rewinds the chain at a start. At a stop, drops the kept item and makes the cancel due, and the reset if the
    /// command says so.
    pub(crate) fn obey(&mut self, command: Command)
        requires { CanRun C.CanAsk self.old }
        ensures callable { CanRun C.CanAsk self.new }
        ensures reads { KeepsReadings C.Reads (sharing_chain self.old) (sharing_chain self.new) }
        ensures policy { self.new.policy ≡ self.old.policy }
        ensures ended { has_ended self.new ≡ has_ended self.old }
        ensures steps { CommandLeads (ActsBy C.Reads C.whole C.rest H.does H.waits)
            command self.old self.new }
    {
        match command {
            Command::Start => {
                self.chain.rewind();
                self.completed = false;
            }
            Command::Stop => {
                self.kept = None;
                self.cancel_due = true;
            }
            Command::StopAndReset => {
                self.kept = None;
                self.cancel_due = true;
                self.reset_due = true;
            }
            Command::Keep => {}
        }
    }

    /// Returns whether a cancel or a reset is due.
    fn is_work_due(&self) -> bool
        ensures { result ≡ (self.now.cancel_due || self.now.reset_due) }
    {
        self.cancel_due || self.reset_due
    }

    /// Cancels the hub's emission if a cancel or a reset is due. The cancel stays due if the hub refuses it.
    pub(crate) fn cancel_if_due(&mut self) -> Result<(), FlowFault>
        requires { CanRun C.CanAsk self.old }
        ensures callable { CanRun C.CanAsk self.new }
        ensures reads { KeepsReadings C.Reads (sharing_chain self.old) (sharing_chain self.new) }
        ensures policy { self.new.policy ≡ self.old.policy }
        ensures ended { has_ended self.new ≡ has_ended self.old }
        ensures free { IfOk result (λ _. self.new.reset_due ≡ true → H.waits self.new.hub ≡ false) }
        ensures steps { GoesOn (ActsBy C.Reads C.whole C.rest H.does H.waits)
            steps.work steps.reset_if_due self.old result self.new }
    {
        if !self.is_work_due() {
            return Ok(());
        }
        self.hub.cancel()?;
        self.cancel_due = false;
        Ok(())
    }

    /// Resets the flow if that is due. The reset stays due if the hub refuses it.
    pub(crate) fn reset_if_due(&mut self) -> Result<(), FlowFault>
        requires callable { CanRun C.CanAsk self.old }
        requires free { self.old.reset_due ≡ true → H.waits self.old.hub ≡ false }
        ensures callable { CanRun C.CanAsk self.new }
        ensures reads { KeepsReadings C.Reads (sharing_chain self.old) (sharing_chain self.new) }
        ensures policy { self.new.policy ≡ self.old.policy }
        ensures ended { has_ended self.new ≡ has_ended self.old }
        ensures steps { GoesOn (ActsBy C.Reads C.whole C.rest H.does H.waits)
            steps.reset_if_due steps.collect_while_running self.old result self.new }
    {
        if !self.reset_due {
            return Ok(());
        }
        self.hub.reset()?;
        self.reset_due = false;
        Ok(())
    }
}
