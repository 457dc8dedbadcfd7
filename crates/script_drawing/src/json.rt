//! The trace of a script as JSON, for programs that show it. `docs/trace.schema.json` describes it.
//!
//! The text is `{"flows": [..], "lines": [..]}`: an entry for each flow, and one for each line of the script, in order. If
//! it is asked for, `"picture"` has the picture as SVG. A program needs no other call: the state of a flow after any step
//! follows from the entries up to it.
//!
//! Whole numbers that a script chooses are texts, since not every program reads numbers of 64 bits. No text in it has a
//! character that JSON would escape: names, words and rules have letters, digits, spaces and a few signs.

use crate::page::{Frame, Page};
use crate::played::{DrawnFlow, Played, PlayedStep};
use crate::script_words::{add_step, items_of};
use crate::svg::{Column, LaneName, Places};
use flow_law::Next;
use flow_script::{Act, Answer, Case, FlowStep, Moved, number_at, text_at};
use json_places::{Extent, Spot, Text};
use serde_json::Value;
use std::alloc::{AllocError, Global};

/// Returns the bytes of each step of a script in its text.
///
/// # Errors
/// `AllocError`: out of memory.
pub fn step_extents(
    alloc: Global,
    bytes: &[u8],
    script: &Value,
) -> Result<Vec<Extent>, AllocError> {
    let text = Text { alloc, bytes };
    let root = Spot {
        value: script,
        at: text.part_from(0).unwrap_or(0),
    };
    match text.member(root, "steps")? {
        Some(steps) => text.items(steps),
        None => Ok(Vec::new(alloc)),
    }
}

/// Returns the comma before an entry of a list, which the first one has not.
fn comma(index: usize) -> &'static str {
    if index > 0 { "," } else { "" }
}

/// Adds a list of places.
fn add_places(page: &mut Page, key: &str, places: &[usize]) {
    write!(page, ",\"{key}\":[");
    for (index, place) in places.iter().enumerate() {
        write!(page, "{}{place}", comma(index));
    }
    page.push_str("]");
}

/// Returns the word of a case.
fn case_word(case: Case) -> Option<&'static str> {
    match case {
        Case::Plain => None,
        Case::Appends => Some("appends"),
        Case::Offers => Some("offers"),
        Case::Queues => Some("queues"),
        Case::DropsLatest => Some("drops_latest"),
        Case::DropsOldest => Some("drops_oldest"),
        Case::Stores => Some("stores"),
        Case::Conflates => Some("conflates"),
        Case::Keeps => Some("keeps"),
    }
}

/// Adds a flow: its name, what the script says of it, its first value if it is a state flow, whether it was refused when
/// it was made, and the values that it emitted.
fn add_flow(page: &mut Page, flow: DrawnFlow<'_>, refused: bool) {
    let DrawnFlow { name, value, trace } = flow;
    write!(page, "{{\"name\":\"{name}\",\"head\":{value}");
    if value.get("initial").is_some() {
        write!(page, ",\"value\":\"{}\"", number_at(value, "initial"));
    }
    write!(page, ",\"refused\":{refused},\"values\":[");
    for (index, value) in trace.values.iter().enumerate() {
        write!(page, "{}\"{value}\"", comma(index));
    }
    page.push_str("]}");
}

/// Returns whether the flow with this name was refused when it was made. A flow that the script does not name is the only
/// one.
fn is_refused(played: Played<'_>, name: &str) -> bool {
    for flow in &played.traced.trace.answers.not_made {
        match &flow.name {
            Some(refused) if refused.as_str() != name => {}
            _ => return true,
        }
    }
    false
}

/// Adds the subscribers that a step moved. One that is gone has no position.
fn add_moved(page: &mut Page, moved: &[Moved]) {
    page.push_str(",\"moved\":[");
    for (index, one) in moved.iter().enumerate() {
        let (place, own) = (one.subscriber, one.progress.own);
        write!(page, "{}{{\"place\":{place},\"own\":{own}", comma(index));
        match one.progress.position {
            Some(position) => write!(page, ",\"position\":{position}}}"),
            None => page.push_str("}"),
        }
    }
    page.push_str("]");
}

/// Adds the first values of a subscriber.
fn add_first(page: &mut Page, values: &[Value]) {
    page.push_str(",\"first\":[");
    for (index, value) in values.iter().enumerate() {
        write!(page, "{}\"{value}\"", comma(index));
    }
    page.push_str("]");
}

/// Adds what a step gives: a new subscriber's own first values, the value that waits from now on, or the one that was
/// received.
fn add_given(page: &mut Page, one: &PlayedStep<'_>) {
    match (one.answer, one.seen.act) {
        (Answer::Queued, Act::OnFlow(_, FlowStep::Emit(value))) => {
            write!(page, ",\"waits\":\"{value}\"");
        }
        (Answer::Received(Next::Value(value)), _) => write!(page, ",\"received\":\"{value}\""),
        (Answer::Subscribed, Act::SubscribesWith(_, _)) => {
            add_first(page, items_of(one.step, "first"));
        }
        _ => {}
    }
}

/// Adds the flow on which a step acts, its case, its name, and what it gives.
fn add_act(page: &mut Page, one: &PlayedStep<'_>) {
    if let Some(flow) = one.seen.act.flow() {
        write!(page, ",\"flow\":{flow}");
    }
    if let Some(word) = case_word(one.seen.case) {
        write!(page, ",\"case\":\"{word}\"");
    }
    if let Some(place) = one.seen.changes.name {
        let name = text_at(one.step, "name");
        write!(page, ",\"name\":\"{name}\",\"place\":{place}");
    }
    add_given(page, one);
}

/// Adds what a step did to its flow.
fn add_effects(page: &mut Page, one: &PlayedStep<'_>) {
    let changes = &one.seen.changes;
    if let Some(item) = changes.item {
        write!(page, ",\"item\":\"{item}\"");
    }
    if let Some(loss) = &changes.loss {
        write!(page, ",\"lost\":\"{}\"", loss.value);
        add_places(page, "losers", loss.losers.as_slice());
    }
    if !changes.moved.is_empty() {
        add_moved(page, changes.moved.as_slice());
    }
    if !changes.ended.is_empty() {
        add_places(page, "ended", changes.ended.as_slice());
    }
    if let Some(after) = changes.after {
        write!(
            page,
            ",\"emitted\":{},\"held\":{}",
            after.emitted, after.held
        );
        write!(
            page,
            ",\"cached\":{},\"subscribers\":{}",
            after.cached, after.subscribers
        );
        if let Some(value) = after.value {
            write!(page, ",\"value\":\"{value}\"");
        }
    }
}

/// Adds the members of a step: its number, its bytes in the text, its words, its rule, and what it did.
fn add_step_members(page: &mut Page, one: &PlayedStep<'_>) {
    write!(page, ",\"step\":{}", one.number);
    if let Some(Extent { from, to }) = one.extent {
        write!(page, ",\"from\":{from},\"to\":{to}");
    }
    page.push_str(",\"words\":\"");
    add_step(page, one.step);
    write!(page, "\",\"rule\":\"{}\"", one.rule);
    add_act(page, one);
    add_effects(page, one);
}

/// Returns the text before the line at a place: the end of the entry before it, and the beginning of its own entry.
/// After the last line nothing begins.
///
/// # Errors
/// `AllocError`: out of memory.
pub fn json_before(alloc: Global, played: Played<'_>, place: usize) -> Result<String, AllocError> {
    let mut page = Page::new(alloc);
    let is_last = place.saturating_add(1) >= played.lines.len();
    if let Some(before) = place.checked_sub(1) {
        page.push_str("\"");
        if let Some(one) = played.step_of_line(before) {
            add_step_members(&mut page, one);
        }
        page.push_str(if is_last { "}" } else { "},\n" });
    }
    page.push_str(if is_last { "" } else { "{\"line\":\"" });
    page.finish()
}

fn add_columns(page: &mut Page, columns: &[Column]) {
    for (index, column) in columns.iter().enumerate() {
        let Column {
            step,
            x,
            y,
            width,
            bottom,
        } = *column;
        write!(
            page,
            "{}{{\"step\":{step},\"x\":{x},\"y\":{y}",
            comma(index)
        );
        write!(page, ",\"width\":{width},\"bottom\":{bottom}}}");
    }
}

fn add_names(page: &mut Page, names: &[LaneName<'_>]) {
    for (index, name) in names.iter().enumerate() {
        let LaneName { y, label } = *name;
        write!(page, "{}{{\"y\":{y},\"name\":\"{label}\"}}", comma(index));
    }
}

/// Adds a picture as SVG, and where its parts are.
fn add_picture(page: &mut Page, places: Places<'_>, svg: String) {
    page.push_str(",\n\"picture\":{\"columns\":[");
    add_columns(page, places.columns.as_slice());
    page.push_str("],\n\"lanes\":[");
    add_names(page, places.names.as_slice());
    write!(page, "],\n\"svg\":{}}}", Value::String(svg));
}

/// Returns the frame of a script's trace, around the entries of its lines, with the picture as SVG if there is one.
pub fn json_frame<'a>(
    alloc: Global,
    played: Played<'a>,
    picture: Option<(Places<'a>, String)>,
) -> Result<Frame, AllocError> {
    let mut front = Page::new(alloc);
    front.push_str("{\"flows\":[");
    for (index, flow) in played.flows.iter().enumerate() {
        front.push_str(comma(index));
        add_flow(&mut front, *flow, is_refused(played, flow.name));
    }
    front.push_str("],\n\"lines\":[\n");
    let mut end = Page::new(alloc);
    end.push_str("\n]");
    if let Some((places, svg)) = picture {
        add_picture(&mut end, places, svg);
    }
    end.push_str("}\n");
    Ok(Frame {
        before: front.finish()?,
        after: end.finish()?,
    })
}
