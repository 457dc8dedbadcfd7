//! Reading the source of a chain.
ghost use Rattle.std.specs.Prelude.{◌≡◌, Ok, Err, List, is_some};
ghost use Rattle.serde_json.specs.View.{view, items_view};
ghost use Rattle.script_chain_format.specs.Results.{Gives, or_fault};
ghost use Rattle.script_chain_format.specs.SourceFormat as sources;
ghost use Rattle.script_chain_format.specs.Chains.{numbers_result, entries_result, source_result};

use crate::reading::fault::ScriptFault;
use crate::reading::members::{has_only, only_at, u32_at};
use flow_cold::{Entry, OfList, OfRange, Scripted, Source};
use serde_json::Value;
use std::alloc::Global;

const MOST_ITEMS: usize = 10_000;

/// Returns the whole numbers of a list, which may have at most `most`.
pub fn numbers_in(
    alloc: Global,
    at: u64,
    most: usize,
    list: &Value,
) -> Result<Vec<i64>, ScriptFault>
    ensures { Gives (sources.numbers_in at most (view list.now)) (numbers_result result) }
{
    match list.as_array() {
        Some(values) => numbers_of(alloc, at, most, values.as_slice()),
        None => Err(ScriptFault::BadShape(at)),
    }
}

/// Returns these values as whole numbers of 64 bits. A fault is `BadShape` of the step `at` if a value is not a whole
/// number, otherwise `TooLarge` of that step if there are more than `most` values; or `OutOfMemory`, which names no
/// step, if memory is refused. No list is made of more than `most` values.
pub fn numbers_of(
    alloc: Global,
    at: u64,
    most: usize,
    values: &[Value],
) -> Result<Vec<i64>, ScriptFault>
    ensures { Gives (sources.whole_numbers_of at most (items_view values.now)) (numbers_result result) }
{
    if values.len() <= most {
        return whole_numbers(alloc, at, values);
    }
    if are_whole_numbers(values) {
        Err(ScriptFault::TooLarge(at))
    } else {
        Err(ScriptFault::BadShape(at))
    }
}

/// Returns whether each value is a whole number of 64 bits.
pub fn are_whole_numbers(values: &[Value]) -> bool
    ensures { result ≡ is_some (sources.whole_numbers (items_view values.now)) }
{
    for value in values {
        let Some(_) = value.as_i64() else {
            return false;
        };
    }
    true
}

fn whole_numbers(alloc: Global, at: u64, values: &[Value]) -> Result<Vec<i64>, ScriptFault>
    ensures { Gives
        (or_fault (ScriptFault.BadShape at) (sources.whole_numbers (items_view values.now)))
        (numbers_result result) }
{
    let mut numbers = Vec::new(alloc);
    for value in values {
        let Some(number) = value.as_i64() else {
            return Err(ScriptFault::BadShape(at));
        };
        numbers.push(number)?;
    }
    Ok(numbers)
}

/// Returns the entry of a value: an item, a pending turn, or a fault.
fn entry_of(value: &Value) -> Option<Entry<i64>>
    ensures { result ≡ sources.entry_in (view value.now) }
{
    if let Some(item) = value.as_i64() {
        return Some(Entry::Item(item));
    }
    if let Some(text) = value.as_str() {
        return match text {
            "pending" => Some(Entry::Pending),
            _ => None,
        };
    }
    if !has_only(value, &["fault"]) {
        return None;
    }
    let number = u32_at(value, "fault")?;
    Some(Entry::Fault(number))
}

fn entries_of(alloc: Global, at: u64, values: &[Value]) -> Result<Vec<Entry<i64>>, ScriptFault>
    ensures { Gives
        (or_fault (ScriptFault.BadShape at) (sources.entries_of (items_view values.now)))
        (entries_result result) }
{
    let mut entries = Vec::new(alloc);
    for value in values {
        let Some(entry) = entry_of(value) else {
            return Err(ScriptFault::BadShape(at));
        };
        entries.push(entry)?;
    }
    Ok(entries)
}

fn are_entries(values: &[Value]) -> bool
    ensures { result ≡ is_some (sources.entries_of (items_view values.now)) }
{
    for value in values {
        let Some(_) = entry_of(value) else {
            return false;
        };
    }
    true
}

/// Returns the entries of a source. No list is made of more than a source may have.
fn entries_in(alloc: Global, at: u64, values: &[Value]) -> Result<Vec<Entry<i64>>, ScriptFault>
    ensures { Gives (sources.entries_in at (items_view values.now)) (entries_result result) }
{
    if values.len() <= MOST_ITEMS {
        return entries_of(alloc, at, values);
    }
    if are_entries(values) {
        Err(ScriptFault::TooLarge(at))
    } else {
        Err(ScriptFault::BadShape(at))
    }
}

fn list_source(alloc: Global, at: u64, list: &Value) -> Result<Source, ScriptFault>
    ensures { Gives (sources.list_source at (view list.now)) (source_result result) }
{
    let numbers = numbers_in(alloc, at, MOST_ITEMS, list)?;
    Ok(Source::List(OfList::new(numbers)))
}

/// Returns the first and the last number of a range.
fn bounds_of(values: &[Value]) -> Option<(i64, i64)>
    ensures { result ≡ sources.bounds_of (items_view values.now) }
{
    if values.len() != 2 {
        return None;
    }
    let first = values[0].as_i64()?;
    let last = values[1].as_i64()?;
    Some((first, last))
}

/// Returns whether a range has more numbers than a source may have.
fn is_too_long(first: i64, last: i64) -> bool
    ensures { result ≡ sources.is_too_long first last }
{
    first <= last && last.abs_diff(first) >= MOST_ITEMS as u64
}

fn range_source(at: u64, range: &Value) -> Result<Source, ScriptFault>
    ensures { Gives (sources.range_source at (view range.now)) (source_result result) }
{
    let Some(values) = range.as_array() else {
        return Err(ScriptFault::BadShape(at));
    };
    let Some((first, last)) = bounds_of(values.as_slice()) else {
        return Err(ScriptFault::BadShape(at));
    };
    if is_too_long(first, last) {
        return Err(ScriptFault::TooLarge(at));
    }
    Ok(Source::Range(OfRange::new(first, last)))
}

fn scripted_source(alloc: Global, at: u64, script: &Value) -> Result<Source, ScriptFault>
    ensures { Gives (sources.scripted_source at (view script.now)) (source_result result) }
{
    let Some(values) = script.as_array() else {
        return Err(ScriptFault::BadShape(at));
    };
    let entries = entries_in(alloc, at, values.as_slice())?;
    Ok(Source::Scripted(Scripted::new(entries)))
}

/// Returns the source of an object with one key, which says its kind: `of`, `range` or `script`.
pub fn source_in(alloc: Global, at: u64, source: &Value) -> Result<Source, ScriptFault>
    ensures { Gives (sources.source_in at (view source.now)) (source_result result) }
{
    if let Some(list) = only_at(source, "of") {
        return list_source(alloc, at, list);
    }
    if let Some(range) = only_at(source, "range") {
        return range_source(at, range);
    }
    match only_at(source, "script") {
        Some(script) => scripted_source(alloc, at, script),
        None => Err(ScriptFault::BadShape(at)),
    }
}
