//! Reading the configuration of a shared flow, and the limit that any flow may have.
ghost use Rattle.std.specs.Prelude.{◌≡◌, codes, option_and_then};
ghost use Rattle.serde_json.specs.View.{view};
ghost use Rattle.script_chain_format.specs.Members as members;
ghost use Rattle.script_format.specs.Format as format;

use flow_law::{Config, Overflow};
use script_chain_format::{has_only, text_at, u32_at};
use serde_json::Value;

/// Returns the most numbers that a flow issues: `u64::MAX` without the key `limit`.
pub fn limit_at(flow: &Value) -> Option<u64>
    ensures { result ≡ format.limit_at (view flow.now) }
{
    match flow.get("limit") {
        Some(limit) => limit.as_u64(),
        None => Some(u64::MAX),
    }
}

const SHARED_KEYS: &[&str] = &["kind", "replay", "extra", "overflow", "limit"];

fn overflow_named(text: &str) -> Option<Overflow>
    ensures { result ≡ format.overflow_named text.now }
{
    match text {
        "suspend" => Some(Overflow::Suspend),
        "drop_oldest" => Some(Overflow::DropOldest),
        "drop_latest" => Some(Overflow::DropLatest),
        _ => None,
    }
}

fn overflow_at(flow: &Value) -> Option<Overflow>
    ensures { result ≡ option_and_then format.overflow_named
        (members.text_at (codes "overflow") (view flow.now)) }
{
    let text = text_at(flow, "overflow")?;
    overflow_named(text)
}

/// Returns the configuration of a shared flow.
pub fn config_of(flow: &Value) -> Option<Config>
    ensures { result ≡ format.config_of (view flow.now) }
{
    let replay = u32_at(flow, "replay")?;
    let extra = u32_at(flow, "extra")?;
    let overflow = overflow_at(flow)?;
    let limit = limit_at(flow)?;
    if !has_only(flow, SHARED_KEYS) {
        return None;
    }
    Some(Config {
        replay,
        extra,
        overflow,
        limit,
    })
}
