//! The report of a turn, from its command and the answers of its calls.
ghost use Rattle.std.specs.Prelude.{◌≡◌};
ghost use Rattle.flow_law.specs.sharing.SharingTurn.{refusal, reported};

use flow_law::{Command, Event, FlowFault, Report, ShareFault};

/// Reports a refused call of the hub: `Busy` is an event, each other refusal a fault.
pub(crate) fn refusal_of(fault: FlowFault) -> Result<Event, ShareFault>
    ensures { result ≡ refusal fault }
{
    match fault {
        FlowFault::Busy => Ok(Event::Busy),
        other => Err(ShareFault::Flow(other)),
    }
}

/// Reports a turn that had this command.
pub(crate) fn report_of(
    command: Command,
    outcome: Result<Event, ShareFault>,
) -> Result<Report, ShareFault>
    ensures { result ≡ reported command outcome }
{
    let event = outcome?;
    Ok(Report { command, event })
}
