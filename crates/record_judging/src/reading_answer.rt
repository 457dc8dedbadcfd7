//! Reads when a call ended, its answer, and lists of values.
use crate::fields::Fields;
use crate::refusal::{Part, Unread, unfit};
use crate::words::{AnswerForm, CallRow, CallWord};
use crate::written::{Range, Sheet, WrittenAnswer};
use serde_json::Value;
use std::alloc::AllocError;

const A_LIST: &str = "a list of values";

const NO_ANSWER: &str = "no answer of a call that has no \"end\"";

const NOT_PENDING: &str = "a call that may be pending, or an \"end\"";

/// Adds values, or returns false if one of the items is no value.
fn push_values(lists: &mut Vec<u64>, items: &[Value]) -> Result<bool, AllocError> {
    for item in items {
        let Some(number) = item.as_u64() else {
            return Ok(false);
        };
        lists.push(number)?;
    }
    Ok(true)
}

/// Adds a list of values to those of the sheet.
pub fn list_of(
    sheet: &mut Sheet,
    value: &Value,
    part: Part,
    key: &'static str,
) -> Result<Range, Unread> {
    let Some(items) = value.as_array() else {
        return Err(unfit(part, key, A_LIST, &[]));
    };
    let from = sheet.lists.len();
    if !push_values(&mut sheet.lists, items.as_slice())? {
        return Err(unfit(part, key, A_LIST, &[]));
    }
    Ok(Range {
        from,
        count: items.len(),
    })
}

/// Returns the answer that a word means.
fn worded(word: &str, form: AnswerForm) -> Option<WrittenAnswer> {
    match (word, form) {
        ("done", AnswerForm::Done | AnswerForm::Ended) => Some(WrittenAnswer::Done),
        ("cancelled", AnswerForm::Ended | AnswerForm::First) => Some(WrittenAnswer::Cancelled),
        ("empty", AnswerForm::Next) => Some(WrittenAnswer::Empty),
        _ => None,
    }
}

/// Returns the value of a key of an answer.
fn value_in(answer: &Value, key: &str) -> Option<u64> {
    answer.get(key)?.as_u64()
}

/// Returns a value as an answer of this form, or None if it is none.
fn answer_in(answer: &Value, form: AnswerForm) -> Option<WrittenAnswer> {
    if let Some(word) = answer.as_str() {
        return worded(word, form);
    }
    match form {
        AnswerForm::Value | AnswerForm::Next | AnswerForm::First => {
            value_in(answer, "value").map(WrittenAnswer::Value)
        }
        AnswerForm::Truth => answer.as_bool().map(WrittenAnswer::Truth),
        AnswerForm::Number => answer.as_u64().map(WrittenAnswer::Number),
        AnswerForm::Exchange => Some(WrittenAnswer::Exchange(
            value_in(answer, "old")?,
            value_in(answer, "value")?,
        )),
        AnswerForm::Done | AnswerForm::Ended | AnswerForm::Values => None,
    }
}

/// Reads the answer of a call that ended.
fn answer_of(
    sheet: &mut Sheet,
    call: Fields<'_>,
    form: AnswerForm,
) -> Result<WrittenAnswer, Unread> {
    let value = call.need("answer", form.expected())?;
    if matches!(form, AnswerForm::Values) {
        let range = list_of(sheet, value, call.part, "answer")?;
        return Ok(WrittenAnswer::Values(range));
    }
    match answer_in(value, form) {
        Some(answer) => Ok(answer),
        None => Err(unfit(call.part, "answer", form.expected(), form.words())),
    }
}

/// Refuses a call without an end that has an answer, or that has to have an end.
fn ask_pending(call: Fields<'_>, row: CallRow) -> Result<(), Unread> {
    if call.get("answer").is_some() {
        return Err(unfit(call.part, "answer", NO_ANSWER, &[]));
    }
    if row.call == CallWord::Update {
        return Err(unfit(call.part, "call", NOT_PENDING, &[]));
    }
    Ok(())
}

/// Reads when a call ended and its answer. A call that has no end has no answer.
pub fn end_of(
    sheet: &mut Sheet,
    call: Fields<'_>,
    row: CallRow,
) -> Result<(Option<u64>, Option<WrittenAnswer>), Unread> {
    if call.get("end").is_some() {
        let end = call.whole("end")?;
        let answer = answer_of(sheet, call, row.answer)?;
        return Ok((Some(end), Some(answer)));
    }
    ask_pending(call, row)?;
    Ok((None, None))
}
