//! A script that is played inside a program.
use flow_script::{ScriptFault, lines_of};
use std::alloc::Global;

const SCRIPT: &str = r#"{
  "version": 1,
  "flow": {"kind": "shared", "replay": 1, "extra": 2, "overflow": "drop_oldest"},
  "steps": [
    {"do": "try_emit", "value": 10},
    {"do": "subscribe", "name": "late"},
    {"do": "try_emit", "value": 20},
    {"do": "next", "name": "late"},
    {"do": "next", "name": "late"},
    {"do": "next", "name": "late"}
  ]
}"#;

/// Returns the lines of the script.
pub fn lines(alloc: Global) -> Result<String, ScriptFault> {
    lines_of(alloc, SCRIPT.as_bytes())
}
