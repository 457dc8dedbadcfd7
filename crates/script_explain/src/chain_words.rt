//! Chains, their sources and operators, and the keys of all of them.

use crate::words::{Form, Key, Need, Row, Shape, key, row};
use flow_script::text_at;
use serde_json::Value;

/// The most items of a source, entries of a scripted one, and numbers of a range.
pub const MOST_ITEMS: usize = 10_000;

/// The most items that a `flat_map` makes of one item.
pub const MOST_SPREAD: usize = 1_000;

/// A chain.
pub static CHAIN: Shape = Shape {
    name: "a chain",
    keys: &[
        key!("from", Form::Source, Need::Always),
        key!("ops", Form::Operators, Need::Always),
    ],
};

const OF: Key = key!("of", Form::Numbers(MOST_ITEMS), Need::Maybe);

const RANGE: Key = key!("range", Form::Range, Need::Maybe);

const SCRIPTED: Key = key!("script", Form::Entries, Need::Maybe);

/// The sources, by the one key that each has.
static SOURCE_ROWS: [Row; 3] = [
    row!("of", "a source with \"of\"", &[OF], Need::Maybe),
    row!("range", "a source with \"range\"", &[RANGE], Need::Maybe),
    row!(
        "script",
        "a source with \"script\"",
        &[SCRIPTED],
        Need::Maybe
    ),
];

/// Returns the shape of a source, by the first key of a source that it has. A source has only one.
pub fn source_shape(source: &Value) -> Shape {
    for row in &SOURCE_ROWS {
        if source.get(row.word).is_some() {
            return Shape {
                name: row.name,
                keys: row.keys,
            };
        }
    }
    ANY_SOURCE
}

/// A source that has none of these keys.
static ANY_SOURCE: Shape = Shape {
    name: "a source",
    keys: &[OF, RANGE, SCRIPTED],
};

/// An entry of a scripted source that is a fault.
pub static FAULT: Shape = Shape {
    name: "a fault",
    keys: &[key!("fault", Form::Short, Need::Always)],
};

/// The tag of an operator.
const OP: Key = key!("op", Form::Tag, Need::Always);

const BY_ARITHMETIC: Key = key!("by", Form::OneOf(&["add", "mul"]), Need::Always);

const BY_TEST: Key = key!(
    "by",
    Form::OneOf(&["even", "odd", "lt", "gt", "ne"]),
    Need::Always
);

const BY_JOINING: Key = key!(
    "by",
    Form::OneOf(&["add", "mul", "left", "right"]),
    Need::Always
);

const K: Key = key!("k", Form::Signed, Need::Always);

/// The number beside a test, if it is not known whether the test takes one.
const MAYBE_K: Key = key!("k", Form::Signed, Need::Maybe);

const ADD: Key = key!("add", Form::Numbers(16), Need::Always);

const N: Key = key!("n", Form::Unsigned, Need::Always);

const SPREAD_N: Key = key!("n", Form::Spread, Need::Always);

const INITIAL: Key = key!("from", Form::Signed, Need::Always);

const TO: Key = key!("to", Form::OneOf(&["range", "repeat"]), Need::Always);

const WITH: Key = key!("with", Form::Chain, Need::Always);

/// The operators, by their tags.
pub static OPERATOR_ROWS: [Row; 12] = [
    row!("map", &[OP, BY_ARITHMETIC, K]),
    row!("filter", &[OP, BY_TEST, MAYBE_K]),
    row!("take_while", &[OP, BY_TEST, MAYBE_K]),
    row!("transform", &[OP, ADD]),
    row!("take", &[OP, N]),
    row!("drop", &[OP, N]),
    row!("scan", &[OP, INITIAL, BY_ARITHMETIC]),
    row!("flat_map", &[OP, TO, SPREAD_N]),
    row!("zip", &[OP, WITH, BY_JOINING]),
    row!("distinct", &[OP]),
    row!(
        "drop_while",
        "drop_while",
        &[OP, BY_TEST, MAYBE_K],
        Need::OnlyInTwo
    ),
    row!(
        "running_reduce",
        "running_reduce",
        &[OP, BY_ARITHMETIC],
        Need::OnlyInTwo
    ),
];

const PARITY_KEYS: &[Key] = &[OP, BY_TEST];

const COMPARED_KEYS: &[Key] = &[OP, BY_TEST, K];

/// Returns the shape of an object with the tag of this row. With the tests `even` and `odd` an operator takes no
/// number, and with the other tests it takes one.
pub fn shape_of(row: Row, object: &Value) -> Shape {
    let keys = match (row.word, text_at(object, "by")) {
        ("filter" | "take_while" | "drop_while", "even" | "odd") => PARITY_KEYS,
        ("filter" | "take_while" | "drop_while", "lt" | "gt" | "ne") => COMPARED_KEYS,
        _ => row.keys,
    };
    Shape {
        name: row.name,
        keys,
    }
}
