//! Reads records.
use crate::fields::Fields;
use crate::reading_answer::{end_of, list_of};
use crate::reading_flow::flow_of;
use crate::refusal::{Part, Unread, no_object, unfit};
use crate::words::{CallRow, HEAD_KEYS, LINE_KEYS, SHARED_CALLS, STATE_CALLS, is_one_of, row_of};
use crate::written::{Range, Sheet, WrittenCall};
use serde_json::Value;
use std::alloc::{AllocError, Global};

const A_CALL: &str = "a call of this kind of flow";

const CALLS: &str = "a list of calls";

fn row_in(sheet: &Sheet, call: Fields<'_>) -> Result<CallRow, Unread> {
    let is_state = sheet.flow.is_state();
    let words = if is_state { STATE_CALLS } else { SHARED_CALLS };
    let word = call.word("call", words)?;
    match row_of(word, is_state) {
        Some(row) => Ok(row),
        None => Err(unfit(call.part, "call", A_CALL, words)),
    }
}

/// Reads the number of a key, or 0 if calls of this row do not have the key.
fn number_of(call: Fields<'_>, row: CallRow, key: &'static str) -> Result<u64, Unread> {
    if is_one_of(key, row.keys) {
        call.whole(key)
    } else {
        Ok(0)
    }
}

/// Reads the first values of a subscription.
fn first_of(sheet: &mut Sheet, call: Fields<'_>) -> Result<Range, Unread> {
    match call.get("first") {
        Some(list) => list_of(sheet, list, call.part, "first"),
        None => Ok(Range { from: 0, count: 0 }),
    }
}

/// Reads a call of this row.
fn call_of(
    sheet: &mut Sheet,
    call: Fields<'_>,
    row: CallRow,
    number: usize,
) -> Result<WrittenCall, Unread> {
    let first = first_of(sheet, call)?;
    let value = number_of(call, row, "value")?;
    let expect = number_of(call, row, "expect")?;
    let begin = call.whole("begin")?;
    let (end, answer) = end_of(sheet, call, row)?;
    Ok(WrittenCall {
        number,
        call: row.call,
        value,
        expect,
        first,
        begin,
        end,
        answer,
    })
}

/// Reads a call and adds it to its caller's.
fn add_call(alloc: Global, sheet: &mut Sheet, value: &Value) -> Result<(), Unread> {
    let number = sheet.count.saturating_add(1);
    let call = Fields {
        value,
        part: Part::Call(number),
    };
    if !value.is_object() {
        return Err(no_object(call.part));
    }
    let row = row_in(sheet, call)?;
    call.has_only(row.keys)?;
    let name = call.word("by", &[])?;
    let written = call_of(sheet, call, row, number)?;
    Ok(sheet.add(alloc, name, written)?)
}

/// Reads a value. Refuses bytes that are no JSON.
pub fn value_of(alloc: Global, bytes: &[u8]) -> Result<Value, Unread> {
    match Value::from_slice(alloc, bytes) {
        Ok(value) => Ok(value),
        Err(error) if error.is_memory() => Err(Unread::OutOfMemory),
        Err(_) => Err(Unread::NotJson),
    }
}

/// Makes the sheet of a head that has only these keys, with no calls.
fn sheet_of(alloc: Global, value: &Value, keys: &'static [&'static str]) -> Result<Sheet, Unread> {
    let head = Fields {
        value,
        part: Part::Head,
    };
    head.has_only(keys)?;
    let flow = flow_of(head.need("flow", "an object")?)?;
    Ok(Sheet::new(alloc, flow))
}

/// Adds the calls of a head.
fn add_calls(alloc: Global, sheet: &mut Sheet, value: &Value) -> Result<(), Unread> {
    let head = Fields {
        value,
        part: Part::Head,
    };
    let Some(calls) = head.need("calls", CALLS)?.as_array() else {
        return Err(unfit(Part::Head, "calls", CALLS, &[]));
    };
    for call in calls.as_slice() {
        add_call(alloc, sheet, call)?;
    }
    Ok(())
}

/// Reads a record that is one object.
fn read_whole(alloc: Global, bytes: &[u8]) -> Result<Sheet, Unread> {
    let value = value_of(alloc, bytes)?;
    let mut sheet = sheet_of(alloc, &value, HEAD_KEYS)?;
    add_calls(alloc, &mut sheet, &value)?;
    Ok(sheet)
}

/// Returns whether a byte ends a line.
pub fn is_newline(byte: &u8) -> bool {
    *byte == b'\n'
}

/// Returns whether a line has only spaces.
pub fn is_blank(line: &[u8]) -> bool {
    for byte in line {
        if !matches!(*byte, b' ' | b'\t' | b'\r') {
            return false;
        }
    }
    true
}

/// Returns where the line of this number begins and ends. Numbers begin with 0, and blank lines do not count.
pub fn line_at(bytes: &[u8], number: usize) -> (usize, usize) {
    let mut begin: usize = 0;
    let mut lines: usize = 0;
    for line in bytes.split(is_newline) {
        let end = begin.saturating_add(line.len());
        if !is_blank(line) {
            if lines == number {
                return (begin, end);
            }
            lines = lines.saturating_add(1);
        }
        begin = end.saturating_add(1);
    }
    (begin, begin)
}

/// Returns the first line that is not blank, or an empty one.
fn first_line(bytes: &[u8]) -> &[u8] {
    let (begin, end) = line_at(bytes, 0);
    bytes.get(begin..end).unwrap_or(&[])
}

/// Reads a line: the flow if it is the first one, else a call.
fn read_line(alloc: Global, read: &mut Option<Sheet>, line: &[u8]) -> Result<(), Unread> {
    let value = value_of(alloc, line)?;
    match read {
        Some(sheet) => add_call(alloc, sheet, &value),
        None => {
            *read = Some(sheet_of(alloc, &value, LINE_KEYS)?);
            Ok(())
        }
    }
}

/// Reads a record that has its flow in the first line, and a call in each other one.
fn read_lines(alloc: Global, bytes: &[u8]) -> Result<Sheet, Unread> {
    let mut read = None;
    for line in bytes.split(is_newline) {
        if !is_blank(line) {
            read_line(alloc, &mut read, line)?;
        }
    }
    match read {
        Some(sheet) => Ok(sheet),
        None => Err(Unread::NotJson),
    }
}

/// Returns whether the first line is all of a record's head, so that each call has a line.
pub fn has_lines(alloc: Global, bytes: &[u8]) -> Result<bool, Unread> {
    match value_of(alloc, first_line(bytes)) {
        Ok(value) => Ok(value.get("flow").is_some() && value.get("calls").is_none()),
        Err(Unread::NotJson) => Ok(false),
        Err(unread) => Err(unread),
    }
}

/// Reads a record.
pub fn read_sheet(alloc: Global, bytes: &[u8]) -> Result<Sheet, Unread> {
    if has_lines(alloc, bytes)? {
        read_lines(alloc, bytes)
    } else {
        read_whole(alloc, bytes)
    }
}
