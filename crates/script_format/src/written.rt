//! A step on a flow as it is written, before its flow and its name are looked up.
ghost use Rattle.std.specs.Prelude.{◌≡◌, option_map};
ghost use Rattle.serde_json.specs.View.{view, items_view};
ghost use Rattle.script_format.specs.Checks as checks;
ghost use Rattle.script_format.specs.Names.{written_of};

use crate::name_form::name_at;
use crate::script::FlowStep;
use crate::verb::FlowVerb;
use script_chain_format::{are_whole_numbers, i64_at, u64_at};
use serde_json::Value;

/// A step on a flow as it is written, with the name and the value that it has.
#[derive(Clone, Copy)]
pub enum Written<'a> {
    /// A step without a name.
    Plain(FlowStep),
    Emit(&'a str, i64),
    Poll(&'a str),
    Cancel(&'a str),
    Subscribe(&'a str),
    /// A subscription with first values of its own, which are whole numbers.
    SubscribeWith(&'a str, &'a [Value]),
    Next(&'a str),
    Unsubscribe(&'a str),
}

fn emit_of(step: &Value) -> Option<Written<'_>>
    ensures { option_map written_of result ≡ checks.written_by FlowVerb.Emit (view step.now) }
{
    let value = i64_at(step, "value")?;
    let name = name_at(step, "name")?;
    Some(Written::Emit(name, value))
}

/// Returns the subscriber's own first values.
fn first_at(step: &Value) -> Option<&[Value]>
    ensures { option_map (λ values. items_view values.now) result
        ≡ checks.first_at (view step.now) }
{
    let values = step.get("first")?.as_array()?;
    if are_whole_numbers(values.as_slice()) {
        Some(values.as_slice())
    } else {
        None
    }
}

fn subscribe_with_of(step: &Value) -> Option<Written<'_>>
    ensures { option_map written_of result ≡
        checks.written_by FlowVerb.SubscribeWith (view step.now) }
{
    let values = first_at(step)?;
    let name = name_at(step, "name")?;
    Some(Written::SubscribeWith(name, values))
}

/// Returns the expected value, and the value that replaces it.
fn pair_of(step: &Value) -> Option<(i64, i64)>
    ensures { result ≡ checks.expected_and_new (view step.now) }
{
    let expect = i64_at(step, "expect")?;
    let update = i64_at(step, "update")?;
    Some((expect, update))
}

fn compare_and_set_of(step: &Value) -> Option<Written<'_>>
    ensures { option_map written_of result ≡
        checks.written_by FlowVerb.CompareAndSet (view step.now) }
{
    let (expect, update) = pair_of(step)?;
    Some(Written::Plain(FlowStep::CompareAndSet(expect, update)))
}

/// Returns the step, if its keys have the right form.
pub fn written_by(verb: FlowVerb, step: &Value) -> Option<Written<'_>>
    ensures { option_map written_of result ≡ checks.written_by verb (view step.now) }
{
    match verb {
        FlowVerb::TryEmit => Some(Written::Plain(FlowStep::TryEmit(i64_at(step, "value")?))),
        FlowVerb::Emit => emit_of(step),
        FlowVerb::Poll => Some(Written::Poll(name_at(step, "name")?)),
        FlowVerb::Cancel => Some(Written::Cancel(name_at(step, "name")?)),
        FlowVerb::Subscribe => Some(Written::Subscribe(name_at(step, "name")?)),
        FlowVerb::SubscribeWith => subscribe_with_of(step),
        FlowVerb::Next => Some(Written::Next(name_at(step, "name")?)),
        FlowVerb::Unsubscribe => Some(Written::Unsubscribe(name_at(step, "name")?)),
        FlowVerb::Cache => Some(Written::Plain(FlowStep::Cache)),
        FlowVerb::Count => Some(Written::Plain(FlowStep::Count)),
        FlowVerb::Reset => Some(Written::Plain(FlowStep::Reset)),
        FlowVerb::Value => Some(Written::Plain(FlowStep::Value)),
        FlowVerb::Set => Some(Written::Plain(FlowStep::Set(i64_at(step, "value")?))),
        FlowVerb::CompareAndSet => compare_and_set_of(step),
        FlowVerb::Turn => Some(Written::Plain(FlowStep::Turn(u64_at(step, "at")?))),
    }
}
