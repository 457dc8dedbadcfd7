//! The lines of a flow's answers.
ghost use Rattle.std.specs.Prelude.{◌≡◌, ◌++◌, OnOk, decimal};
ghost use Rattle.std.specs.Fmt.{signed_decimal};
ghost use Rattle.flow_script.specs.Lines as lines;

use flow_law::{FlowFault, Next};
use std::alloc::AllocError;

/// Adds this line.
pub fn add_line(text: &mut String, line: &str) -> Result<(), AllocError>
    ensures { OnOk result (lines.AddsLine line.now text.old text.new) }
{
    text.push_str(line)?;
    text.push('\n')
}

fn add_more_items(text: &mut String, values: &[i64]) -> Result<(), AllocError>
    ensures { OnOk result (lines.AddsText (lines.more_items values.now) text.old text.new) }
{
    for value in values {
        write!(text, ", {value}")?;
    }
    Ok(())
}

/// Adds a list, without ending its line.
pub fn add_items(text: &mut String, values: &[i64]) -> Result<(), AllocError>
    ensures { OnOk result (lines.AddsText (lines.list_text values.now) text.old text.new) }
{
    let Some((first, more)) = values.split_first() else {
        return text.push_str("[]");
    };
    write!(text, "[{first}")?;
    add_more_items(text, more)?;
    text.push(']')
}

/// Adds the line of a replay cache.
pub fn add_list(text: &mut String, values: &[i64]) -> Result<(), AllocError>
    ensures { OnOk result (lines.AddsLine (lines.list_text values.now) text.old text.new) }
{
    add_items(text, values)?;
    text.push('\n')
}

/// Adds the line of an answer that is `true` or `false`.
pub fn add_test(text: &mut String, test: bool) -> Result<(), AllocError>
    ensures { OnOk result (lines.AddsLine (lines.test_text test) text.old text.new) }
{
    if test {
        add_line(text, "true")
    } else {
        add_line(text, "false")
    }
}

/// Adds the line of a poll: whether the emission still waits.
pub fn add_wait(text: &mut String, waits: bool) -> Result<(), AllocError>
    ensures { OnOk result (lines.AddsLine (lines.wait_text waits) text.old text.new) }
{
    if waits {
        add_line(text, "waiting")
    } else {
        add_line(text, "done")
    }
}

/// Adds the line of what a subscriber receives.
pub fn add_next(text: &mut String, next: &Next<i64>) -> Result<(), AllocError>
    ensures { OnOk result (lines.AddsLine (lines.next_text next.now) text.old text.new) }
{
    match next {
        Next::Value(value) => writeln!(text, "value {value}"),
        Next::Empty => add_line(text, "empty"),
        Next::Gone => add_line(text, "gone"),
    }
}

/// Adds the line of a state flow's value.
pub fn add_value(text: &mut String, value: i64) -> Result<(), AllocError>
    ensures { OnOk result (lines.AddsLine (signed_decimal value) text.old text.new) }
{
    writeln!(text, "{value}")
}

/// Adds the line of a number of subscribers.
pub fn add_count(text: &mut String, count: u64) -> Result<(), AllocError>
    ensures { OnOk result (lines.AddsLine (decimal count) text.old text.new) }
{
    writeln!(text, "{count}")
}

/// Returns the number and the name of a fault of a flow.
fn flow_fault_text(fault: FlowFault) -> &'static str
    ensures { result.now ≡ lines.flow_fault_text fault }
{
    match fault {
        FlowFault::OutOfMemory => "1 OutOfMemory",
        FlowFault::TooLarge => "2 TooLarge",
        FlowFault::NeedsBuffer => "3 NeedsBuffer",
        FlowFault::Exhausted => "4 Exhausted",
        FlowFault::Unsupported => "5 Unsupported",
        FlowFault::Busy => "6 Busy",
    }
}

/// Adds a line that ends with a fault of a flow.
pub fn add_with_flow_fault(
    text: &mut String,
    before: &str,
    fault: FlowFault,
) -> Result<(), AllocError>
    ensures { OnOk result
        (lines.AddsLine (before.now ++ lines.flow_fault_text fault) text.old text.new) }
{
    text.push_str(before)?;
    add_line(text, flow_fault_text(fault))
}
