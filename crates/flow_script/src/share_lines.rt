//! The lines of turns.
ghost use Rattle.std.specs.Prelude.{◌≡◌, OnOk};
ghost use Rattle.flow_script.specs.Lines as lines;

use crate::chain_lines::add_with_chain_fault;
use crate::lines::{add_line, add_with_flow_fault};
use flow_law::{Command, Event, Report, ShareFault};
use std::alloc::AllocError;

fn command_text(command: Command) -> &'static str
    ensures { result.now ≡ lines.command_text command }
{
    match command {
        Command::Start => "start",
        Command::Stop => "stop",
        Command::StopAndReset => "stop_and_reset",
        Command::Keep => "keep",
    }
}

fn event_text(event: Event) -> &'static str
    ensures { result.now ≡ lines.event_text event }
{
    match event {
        Event::Busy => "busy",
        Event::Idle => "idle",
        Event::Put => "put",
        Event::Queued => "queued",
        Event::Waiting => "waiting",
        Event::Pending => "pending",
        Event::Completed => "completed",
    }
}

/// Adds the line of a turn.
pub fn add_report(text: &mut String, report: Report) -> Result<(), AllocError>
    ensures { OnOk result (lines.AddsLine (lines.report_text report) text.old text.new) }
{
    text.push_str(command_text(report.command))?;
    text.push(' ')?;
    add_line(text, event_text(report.event))
}

/// Adds the line of a turn that was refused, or of a chain that was not shared.
pub fn add_share_fault(text: &mut String, fault: ShareFault) -> Result<(), AllocError>
    ensures { OnOk result (lines.AddsLine (lines.share_fault_text fault) text.old text.new) }
{
    match fault {
        ShareFault::Backwards(last) => writeln!(text, "refused 1 Backwards {last}"),
        ShareFault::Ended => add_line(text, "refused 2 Ended"),
        ShareFault::Chain(fault) => add_with_chain_fault(text, "refused 3 Chain ", fault),
        ShareFault::Flow(fault) => add_with_flow_fault(text, "refused 4 Flow ", fault),
    }
}
