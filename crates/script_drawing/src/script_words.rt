//! The words of a script that was read.

use crate::page::Page;
use flow_script::text_at;
use serde_json::Value;

/// Returns the items of a member of an object, or no items if there is no such member or it is not a list.
pub fn items_of<'a>(value: &'a Value, key: &str) -> &'a [Value] {
    match value.get(key) {
        Some(Value::Array(items)) => items.as_slice(),
        _ => &[],
    }
}

/// Adds a number, a word or a list.
fn add_value(page: &mut Page, value: &Value) {
    match value {
        Value::String(word) => page.push_str(word.as_str()),
        Value::Array(items) => add_items(page, items.as_slice()),
        _ => write!(page, "{value}"),
    }
}

/// The most items of a list that are written.
const MOST_ITEMS: usize = 12;

/// Adds an item of a list: a number, a word or a fault.
fn add_item(page: &mut Page, index: usize, item: &Value) {
    let before = if index > 0 { ", " } else { "" };
    match item.as_i64() {
        Some(number) => write!(page, "{before}{number}"),
        None => write!(page, "{before}{}", item.as_str().unwrap_or("fault")),
    }
}

/// Adds a list of numbers, words and faults.
fn add_items(page: &mut Page, items: &[Value]) {
    page.push_str("[");
    for (index, item) in items.iter().take(MOST_ITEMS).enumerate() {
        add_item(page, index, item);
    }
    page.push_str(if items.len() > MOST_ITEMS {
        ", ..]"
    } else {
        "]"
    });
}

/// Adds the words or the other values among the members of an operator, each after a space.
fn add_members(page: &mut Page, op: &Value, are_words: bool) {
    if let Value::Object(members) = op {
        for (key, value) in members {
            if key.as_str() != "op" && value.is_string() == are_words {
                page.push_str(" ");
                add_value(page, value);
            }
        }
    }
}

/// Adds the source of a chain: its items, or the first and the last number of a range.
fn add_source(page: &mut Page, chain: &Value) {
    let Some(source) = chain.get("from") else {
        return;
    };
    match (items_of(source, "range"), source.get("of")) {
        ([first, last], _) => write!(page, "{first} to {last}"),
        (_, Some(items)) => add_value(page, items),
        (_, None) => add_items(page, items_of(source, "script")),
    }
}

/// Adds an operator: its name, and what it was given. Of another chain that are its source, and the names of its
/// operators.
fn add_op(page: &mut Page, op: &Value) {
    page.push_str(text_at(op, "op"));
    match op.get("with") {
        Some(with) => {
            write!(page, " {} with ", text_at(op, "by"));
            add_source(page, with);
            for op in items_of(with, "ops") {
                write!(page, " {}", text_at(op, "op"));
            }
        }
        None => {
            add_members(page, op, true);
            add_members(page, op, false);
        }
    }
}

/// Adds a chain: its source, and its operators.
pub fn add_chain(page: &mut Page, chain: &Value) {
    add_source(page, chain);
    for (index, op) in items_of(chain, "ops").iter().enumerate() {
        page.push_str(if index > 0 { ", " } else { ", then " });
        add_op(page, op);
    }
}

/// Adds the collection of a chain in words, without a line feed. Steps are numbered from 1.
pub fn add_collection(page: &mut Page, step: usize, chain: &Value) {
    write!(page, "step {step} collects ");
    add_chain(page, chain);
}

/// The keys of a step, in the order of its words.
const STEP_KEYS: &[&str] = &[
    "flow", "name", "first", "value", "expect", "update", "at", "chain",
];

/// Adds a step in words: what it does, and the value of each key. That of a chain is its source and its operators.
pub fn add_step(page: &mut Page, step: &Value) {
    page.push_str(text_at(step, "do"));
    for key in STEP_KEYS {
        if let Some(value) = step.get(*key) {
            page.push_str(" ");
            if *key == "chain" {
                add_chain(page, value);
            } else {
                add_value(page, value);
            }
        }
    }
}
