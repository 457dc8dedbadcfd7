//! The steps of scripts and their keys.

use crate::words::{Form, Key, Need, Row, key, row};
use script_format::MOST_FIRST;
use std::alloc::{AllocError, Global};

/// The tag of a step.
const DO: Key = key!("do", Form::Tag, Need::Always);

const ON_FLOW: Key = key!("flow", Form::Name, Need::OnlyInTwo);

const NAME: Key = key!("name", Form::Name, Need::Always);

const VALUE: Key = key!("value", Form::Signed, Need::Always);

const EXPECT: Key = key!("expect", Form::Signed, Need::Always);

const UPDATE: Key = key!("update", Form::Signed, Need::Always);

const AT: Key = key!("at", Form::Unsigned, Need::Always);

const FIRST: Key = key!("first", Form::Numbers(MOST_FIRST), Need::MaybeInTwo);

const CHAIN: Key = key!("chain", Form::Chain, Need::Always);

/// The steps, by their tags.
pub static STEP_ROWS: [Row; 15] = [
    row!("try_emit", &[DO, VALUE, ON_FLOW]),
    row!("emit", &[DO, NAME, VALUE, ON_FLOW]),
    row!("poll", &[DO, NAME, ON_FLOW]),
    row!("cancel", &[DO, NAME, ON_FLOW]),
    row!("subscribe", &[DO, NAME, FIRST, ON_FLOW]),
    row!("next", &[DO, NAME, ON_FLOW]),
    row!("unsubscribe", &[DO, NAME, ON_FLOW]),
    row!("cache", &[DO, ON_FLOW]),
    row!("count", &[DO, ON_FLOW]),
    row!("reset", &[DO, ON_FLOW]),
    row!("value", &[DO, ON_FLOW]),
    row!("set", &[DO, VALUE, ON_FLOW]),
    row!("compare_and_set", &[DO, EXPECT, UPDATE, ON_FLOW]),
    row!("turn", &[DO, AT, ON_FLOW]),
    row!("collect", &[DO, CHAIN]),
];

/// The steps that not every kind of flow allows, each with the kinds that do.
static LIMITED: [(&str, &[&str]); 9] = [
    ("try_emit", &["shared", "state"]),
    ("reset", &["shared", "state"]),
    ("emit", &["shared"]),
    ("poll", &["shared"]),
    ("cancel", &["shared"]),
    ("value", &["state", "state_in"]),
    ("set", &["state"]),
    ("compare_and_set", &["state"]),
    ("turn", &["share", "state_in"]),
];

/// Returns whether a step is allowed in a script with a flow of this kind.
fn is_allowed(step: &str, kind: &str) -> bool {
    for (word, kinds) in &LIMITED {
        if *word == step {
            return kinds.contains(&kind);
        }
    }
    step == "collect" || kind != "none"
}

/// Returns the steps that are allowed in a script with a flow of this kind.
pub fn steps_of(alloc: Global, kind: &str) -> Result<Vec<&'static str>, AllocError> {
    let mut steps = Vec::new(alloc);
    for row in &STEP_ROWS {
        if is_allowed(row.word, kind) {
            steps.push(row.word)?;
        }
    }
    Ok(steps)
}
