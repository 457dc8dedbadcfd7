//! Reads the flow of a record.
use crate::fields::Fields;
use crate::refusal::{Part, Unread, unfit};
use crate::words::{KINDS, OVERFLOWS, SHARED_KEYS, STATE_KEYS};
use crate::written::WrittenFlow;
use flow_law::{Config, Overflow};
use serde_json::Value;

const A_KIND: &str = "\"state\" or \"shared\"";

const AN_OVERFLOW: &str = "\"suspend\", \"drop_oldest\" or \"drop_latest\"";

/// The greatest sum of `replay` and `extra`.
const MOST_CAPACITY: u64 = 65_536;

const A_CAPACITY: &str = "at most 65536 together with \"replay\"";

const NO_BUFFER: &str = "\"suspend\" where \"replay\" and \"extra\" are 0";

fn overflow_of(flow: Fields<'_>) -> Result<Overflow, Unread> {
    match flow.word("overflow", OVERFLOWS)? {
        "suspend" => Ok(Overflow::Suspend),
        "drop_oldest" => Ok(Overflow::DropOldest),
        "drop_latest" => Ok(Overflow::DropLatest),
        _ => Err(unfit(Part::Flow, "overflow", AN_OVERFLOW, OVERFLOWS)),
    }
}

/// Refuses a buffer that is too large, and an empty one unless emitters wait.
fn ask_buffer(replay: u32, extra: u32, overflow: Overflow) -> Result<(), Unread> {
    let capacity = replay as u64 + extra as u64;
    if capacity > MOST_CAPACITY {
        return Err(unfit(Part::Flow, "extra", A_CAPACITY, &[]));
    }
    if capacity == 0 && overflow != Overflow::Suspend {
        return Err(unfit(Part::Flow, "overflow", NO_BUFFER, &[]));
    }
    Ok(())
}

fn state_of(flow: Fields<'_>) -> Result<WrittenFlow, Unread> {
    flow.has_only(STATE_KEYS)?;
    let initial = flow.whole("initial")?;
    Ok(WrittenFlow::State { initial })
}

fn shared_of(flow: Fields<'_>) -> Result<WrittenFlow, Unread> {
    flow.has_only(SHARED_KEYS)?;
    let replay = flow.small("replay")?;
    let extra = flow.small("extra")?;
    let overflow = overflow_of(flow)?;
    ask_buffer(replay, extra, overflow)?;
    let config = Config::new().replay(replay).extra(extra).overflow(overflow);
    Ok(WrittenFlow::Shared(config))
}

/// Reads the value of `flow`.
pub fn flow_of(value: &Value) -> Result<WrittenFlow, Unread> {
    let flow = Fields {
        value,
        part: Part::Flow,
    };
    match flow.word("kind", KINDS)? {
        "state" => state_of(flow),
        "shared" => shared_of(flow),
        _ => Err(unfit(Part::Flow, "kind", A_KIND, KINDS)),
    }
}
