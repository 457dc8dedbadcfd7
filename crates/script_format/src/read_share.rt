//! Reading the heads of flows into which a chain is shared.
ghost use Rattle.std.specs.Prelude.{◌≡◌, map, option_map};
ghost use Rattle.serde_json.specs.View.{view};
ghost use Rattle.script_format.specs.Heads as heads;
ghost use Rattle.script_chain_format.specs.Results.{Gives};
ghost use Rattle.script_format.specs.HeadViews.{flow_result, parts_with, shared_parts_of};

use crate::read_config::limit_at;
use crate::script::ScriptFlow;
use flow_law::{NEVER, Started};
use script_chain_format::{ScriptFault, Version, chain_in, has_only, i64_at, u32_at, u64_at};
use serde_json::Value;
use std::alloc::Global;

const SHARE_KEYS: &[&str] = &["kind", "chain", "started", "replay", "limit"];

const STATE_IN_KEYS: &[&str] = &["kind", "chain", "started", "initial", "limit"];

fn started_named(text: &str) -> Option<Started>
    ensures { result ≡ heads.started_named text.now }
{
    match text {
        "eagerly" => Some(Started::Eagerly),
        "lazily" => Some(Started::Lazily),
        _ => None,
    }
}

/// Returns the keys of the object under `started`, for a chain that runs while its flow has subscribers. Version 1 has
/// no `expire`.
fn started_keys(version: Version) -> &'static [&'static str]
    ensures { map (λ key. key.now) result.now ≡ heads.started_keys version }
{
    match version {
        Version::One => &["stop"],
        Version::Two => &["stop", "expire"],
    }
}

/// Returns how long after the stop the replay cache expires. Without the key it never does.
fn expire_at(started: &Value) -> Option<u64>
    ensures { result ≡ heads.expire_at (view started.now) }
{
    match started.get("expire") {
        Some(expire) => expire.as_u64(),
        None => Some(NEVER),
    }
}

/// Returns when a chain runs, by an object with the key `stop`: while its flow has subscribers, and until `stop` after
/// that.
fn while_subscribed(version: Version, started: &Value) -> Option<Started>
    ensures { result ≡ heads.while_subscribed version (view started.now) }
{
    if !has_only(started, started_keys(version)) {
        return None;
    }
    let stop = u64_at(started, "stop")?;
    let expire = expire_at(started)?;
    Some(Started::WhileSubscribed { stop, expire })
}

/// Returns when a chain runs, by a word or by an object.
fn started_of(version: Version, value: &Value) -> Option<Started>
    ensures { result ≡ heads.started_of version (view value.now) }
{
    match value.as_str() {
        Some(text) => started_named(text),
        None => while_subscribed(version, value),
    }
}

fn started_at(version: Version, flow: &Value) -> Option<Started>
    ensures { result ≡ heads.started_at version (view flow.now) }
{
    started_of(version, flow.get("started")?)
}

/// What the two kinds of flow that share a chain have in common.
#[derive(Clone, Copy)]
struct SharedChain<'a> {
    chain: &'a Value,
    started: Started,
    limit: u64,
}

/// Returns the chain, its start and the limit, if the flow has no keys except these.
fn shared_chain<'a>(version: Version, keys: &[&str], flow: &'a Value) -> Option<SharedChain<'a>>
    ensures { option_map shared_parts_of result
        ≡ heads.shared_parts version (map (λ key. key.now) keys.now) (view flow.now) }
{
    let chain = flow.get("chain")?;
    let started = started_at(version, flow)?;
    let limit = limit_at(flow)?;
    if !has_only(flow, keys) {
        return None;
    }
    Some(SharedChain {
        chain,
        started,
        limit,
    })
}

/// Returns the shared chain, and how many values are replayed.
fn share_parts(version: Version, flow: &Value) -> Option<(SharedChain<'_>, u32)>
    ensures { option_map parts_with result ≡ heads.share_parts version (view flow.now) }
{
    let shared = shared_chain(version, SHARE_KEYS, flow)?;
    let replay = u32_at(flow, "replay")?;
    Some((shared, replay))
}

/// Returns the flow of a chain that is shared into a shared flow.
pub fn share_in(alloc: Global, version: Version, flow: &Value) -> Result<ScriptFlow, ScriptFault>
    ensures { Gives (heads.share_in version (view flow.now)) (flow_result result) }
{
    let Some((shared, replay)) = share_parts(version, flow) else {
        return Err(ScriptFault::BadShape(0));
    };
    let chain = chain_in(alloc, version, 0, shared.chain)?;
    Ok(ScriptFlow::Share {
        chain,
        started: shared.started,
        replay,
        limit: shared.limit,
    })
}

/// Returns the shared chain, and the first value.
fn state_in_parts(version: Version, flow: &Value) -> Option<(SharedChain<'_>, i64)>
    ensures { option_map parts_with result ≡ heads.state_in_parts version (view flow.now) }
{
    let shared = shared_chain(version, STATE_IN_KEYS, flow)?;
    let initial = i64_at(flow, "initial")?;
    Some((shared, initial))
}

/// Returns the flow of a chain that is shared into a state flow.
pub fn state_in(alloc: Global, version: Version, flow: &Value) -> Result<ScriptFlow, ScriptFault>
    ensures { Gives (heads.state_in version (view flow.now)) (flow_result result) }
{
    let Some((shared, initial)) = state_in_parts(version, flow) else {
        return Err(ScriptFault::BadShape(0));
    };
    let chain = chain_in(alloc, version, 0, shared.chain)?;
    Ok(ScriptFlow::StateIn {
        chain,
        started: shared.started,
        initial,
        limit: shared.limit,
    })
}
