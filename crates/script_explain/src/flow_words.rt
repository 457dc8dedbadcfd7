//! The heads of scripts, their flows, and the keys of both.

use crate::words::{Form, Key, Need, Row, Shape, key, row};

/// The version. A missing version is a fault of its own.
pub const VERSION: Key = key!("version", Form::Version, Need::Always);

/// A whole script.
pub static SCRIPT: Shape = Shape {
    name: "the script",
    keys: &[
        VERSION,
        key!("flow", Form::Flow, Need::OnlyInOne),
        key!("flows", Form::Flows, Need::OnlyInTwo),
        key!("steps", Form::Steps, Need::Always),
    ],
};

/// The tag of a flow.
const KIND: Key = key!("kind", Form::Tag, Need::Always);

const REPLAY: Key = key!("replay", Form::Short, Need::Always);

const EXTRA: Key = key!("extra", Form::Short, Need::Always);

const OVERFLOW: Key = key!(
    "overflow",
    Form::OneOf(&["suspend", "drop_oldest", "drop_latest"]),
    Need::Always
);

const LIMIT: Key = key!("limit", Form::Unsigned, Need::Maybe);

const INITIAL: Key = key!("initial", Form::Signed, Need::Always);

const SHARED_CHAIN: Key = key!("chain", Form::Chain, Need::Always);

const STARTED: Key = key!("started", Form::Started, Need::Always);

/// The flows, by their tags.
pub static FLOW_ROWS: [Row; 5] = [
    row!("none", "a script without a flow", &[KIND], Need::OnlyInOne),
    row!(
        "shared",
        "a shared flow",
        &[KIND, REPLAY, EXTRA, OVERFLOW, LIMIT],
        Need::Always
    ),
    row!(
        "state",
        "a state flow",
        &[KIND, INITIAL, LIMIT],
        Need::Always
    ),
    row!(
        "share",
        "a shared chain",
        &[KIND, SHARED_CHAIN, STARTED, REPLAY, LIMIT],
        Need::Always
    ),
    row!(
        "state_in",
        "a chain shared as a state",
        &[KIND, SHARED_CHAIN, STARTED, INITIAL, LIMIT],
        Need::Always
    ),
];

/// The words that say when a shared chain runs.
pub const STARTED_WORDS: &[&str] = &["eagerly", "lazily"];

/// A shared chain that runs while it has subscribers.
pub static STOP: Shape = Shape {
    name: "\"started\"",
    keys: &[
        key!("stop", Form::Unsigned, Need::Always),
        key!("expire", Form::Unsigned, Need::MaybeInTwo),
    ],
};
