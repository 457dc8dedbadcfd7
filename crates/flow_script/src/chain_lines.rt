//! The lines of collections.
ghost use Rattle.std.specs.Prelude.{◌≡◌, ◌++◌, [], OnOk, codes, decimal};
ghost use Rattle.std.specs.Option.{option_map_or};
ghost use Rattle.flow_script.specs.Lines as lines;

use crate::lines::{add_items, add_line};
use flow_law::{ChainFault, End};
use std::alloc::AllocError;

/// Returns the words of a chain's fault: its number and its name, and the number that the source gave its fault.
pub fn chain_fault_words(fault: ChainFault) -> (&'static str, Option<u32>)
    ensures { lines.chain_fault_text fault
        ≡ result.0.now ++ option_map_or (λ number. codes " " ++ decimal number) result.1 [] }
{
    match fault {
        ChainFault::OutOfMemory => ("1 OutOfMemory", None),
        ChainFault::Overflow => ("2 Overflow", None),
        ChainFault::NotPositive => ("3 NotPositive", None),
        ChainFault::Source(number) => ("4 Source", Some(number)),
        ChainFault::TooDeep => ("5 TooDeep", None),
    }
}

fn add_chain_fault(text: &mut String, fault: ChainFault) -> Result<(), AllocError>
    ensures { OnOk result (lines.AddsLine (lines.chain_fault_text fault) text.old text.new) }
{
    match chain_fault_words(fault) {
        (name, Some(number)) => writeln!(text, "{name} {number}"),
        (name, None) => add_line(text, name),
    }
}

/// Adds a line that ends with a fault of a chain.
pub fn add_with_chain_fault(
    text: &mut String,
    before: &str,
    fault: ChainFault,
) -> Result<(), AllocError>
    ensures { OnOk result
        (lines.AddsLine (before.now ++ lines.chain_fault_text fault) text.old text.new) }
{
    text.push_str(before)?;
    add_chain_fault(text, fault)
}

fn add_end(text: &mut String, end: End) -> Result<(), AllocError>
    ensures { OnOk result (lines.AddsLine (lines.end_text end) text.old text.new) }
{
    match end {
        End::Completed => add_line(text, " completed"),
        End::Failed(fault) => add_with_chain_fault(text, " failed ", fault),
    }
}

/// Adds the line of what was collected.
pub fn add_collected(text: &mut String, items: &[i64], end: End) -> Result<(), AllocError>
    ensures { OnOk result
        (lines.AddsLine (lines.list_text items.now ++ lines.end_text end) text.old text.new) }
{
    add_items(text, items)?;
    add_end(text, end)
}
