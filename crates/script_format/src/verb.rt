//! What a step does, by the text of its key `do`.
ghost use Rattle.std.specs.Prelude.{◌≡◌, ◌∷◌, codes, drop, map};
ghost use Rattle.script_format.specs.Format as format;

use script_chain_format::Version;

/// The kind of flow that a step acts on.
#[derive(Clone, Copy)]
pub enum HeadKind {
    /// There is no flow.
    Absent,
    Shared,
    State,
    Share,
    StateIn,
}

/// What a step does on a flow.
#[derive(Clone, Copy)]
pub enum FlowVerb {
    TryEmit,
    Emit,
    Poll,
    Cancel,
    Subscribe,
    /// A subscription with first values of its own.
    SubscribeWith,
    Next,
    Unsubscribe,
    Cache,
    Count,
    Reset,
    Value,
    Set,
    CompareAndSet,
    Turn,
}

/// What a step does.
#[derive(Clone, Copy)]
pub enum Verb {
    Flow(FlowVerb),
    Collect,
}

/// Returns the subscription with or without first values of its own.
fn subscription(has_first: bool) -> FlowVerb
    ensures { result ≡ format.subscription has_first }
{
    if has_first {
        FlowVerb::SubscribeWith
    } else {
        FlowVerb::Subscribe
    }
}

/// Returns the verb that a text names, among those on the values of a flow.
fn value_verb_named(text: &str) -> Option<Verb>
    ensures { result ≡ format.value_verb_named text.now }
{
    match text {
        "cache" => Some(Verb::Flow(FlowVerb::Cache)),
        "reset" => Some(Verb::Flow(FlowVerb::Reset)),
        "value" => Some(Verb::Flow(FlowVerb::Value)),
        "set" => Some(Verb::Flow(FlowVerb::Set)),
        "compare_and_set" => Some(Verb::Flow(FlowVerb::CompareAndSet)),
        _ => None,
    }
}

/// Returns the verb that a text names, among those on the subscribers or the values of a flow.
fn subscriber_verb_named(text: &str, has_first: bool) -> Option<Verb>
    ensures { result ≡ format.subscriber_verb_named text.now has_first }
{
    match text {
        "subscribe" => Some(Verb::Flow(subscription(has_first))),
        "next" => Some(Verb::Flow(FlowVerb::Next)),
        "unsubscribe" => Some(Verb::Flow(FlowVerb::Unsubscribe)),
        "count" => Some(Verb::Flow(FlowVerb::Count)),
        _ => value_verb_named(text),
    }
}

/// Returns the verb for the text of the key `do`. `has_first` says whether the step has first values.
pub fn verb_named(text: &str, has_first: bool) -> Option<Verb>
    ensures { result ≡ format.verb_named text.now has_first }
{
    match text {
        "collect" => Some(Verb::Collect),
        "turn" => Some(Verb::Flow(FlowVerb::Turn)),
        "try_emit" => Some(Verb::Flow(FlowVerb::TryEmit)),
        "emit" => Some(Verb::Flow(FlowVerb::Emit)),
        "poll" => Some(Verb::Flow(FlowVerb::Poll)),
        "cancel" => Some(Verb::Flow(FlowVerb::Cancel)),
        _ => subscriber_verb_named(text, has_first),
    }
}

impl FlowVerb {
    /// Returns the keys of a step with this verb. The first key names the flow.
    fn keys(self) -> &'static [&'static str]
        ensures { map (λ key. key.now) result.now ≡ codes "flow" ∷ format.keys_of self }
    {
        match self {
            FlowVerb::TryEmit => &["flow", "do", "value"],
            FlowVerb::Emit => &["flow", "do", "name", "value"],
            FlowVerb::Poll => &["flow", "do", "name"],
            FlowVerb::Cancel => &["flow", "do", "name"],
            FlowVerb::Subscribe => &["flow", "do", "name"],
            FlowVerb::SubscribeWith => &["flow", "do", "name", "first"],
            FlowVerb::Next => &["flow", "do", "name"],
            FlowVerb::Unsubscribe => &["flow", "do", "name"],
            FlowVerb::Cache => &["flow", "do"],
            FlowVerb::Count => &["flow", "do"],
            FlowVerb::Reset => &["flow", "do"],
            FlowVerb::Value => &["flow", "do"],
            FlowVerb::Set => &["flow", "do", "value"],
            FlowVerb::CompareAndSet => &["flow", "do", "expect", "update"],
            FlowVerb::Turn => &["flow", "do", "at"],
        }
    }
}

impl Verb {
    /// Returns the keys of a step with this verb. In version 1 a step does not name its flow.
    pub fn keys(self, version: Version) -> &'static [&'static str]
        ensures { map (λ key. key.now) result.now ≡ format.keys_in version self }
    {
        match self {
            Verb::Flow(verb) => match version {
                Version::One => behind_first(verb.keys()),
                Version::Two => verb.keys(),
            },
            Verb::Collect => &["do", "chain"],
        }
    }
}

/// Returns all keys except the first.
fn behind_first(keys: &'static [&'static str]) -> &'static [&'static str]
    ensures { map (λ key. key.now) result.now ≡ drop 1 (map (λ key. key.now) keys.now) }
{
    let Some((_first, rest)) = keys.split_first() else {
        return &[];
    };
    rest
}

impl HeadKind {
    /// Returns whether a flow of this kind allows a step with this verb.
    pub fn allows(self, verb: FlowVerb) -> bool
        ensures { result ≡ format.allows verb self }
    {
        match verb {
            FlowVerb::TryEmit => self.is_mutable(),
            FlowVerb::Emit => self.is_shared(),
            FlowVerb::Poll => self.is_shared(),
            FlowVerb::Cancel => self.is_shared(),
            FlowVerb::Subscribe => self.is_flow(),
            FlowVerb::SubscribeWith => self.is_shared(),
            FlowVerb::Next => self.is_flow(),
            FlowVerb::Unsubscribe => self.is_flow(),
            FlowVerb::Cache => self.is_flow(),
            FlowVerb::Count => self.is_flow(),
            FlowVerb::Reset => self.is_mutable(),
            FlowVerb::Value => self.has_value(),
            FlowVerb::Set => self.is_state(),
            FlowVerb::CompareAndSet => self.is_state(),
            FlowVerb::Turn => self.is_sharing(),
        }
    }

    fn is_flow(self) -> bool
        ensures { result ≡ format.is_flow self }
    {
        !matches!(self, HeadKind::Absent)
    }

    /// Returns whether scripts emit into a flow of this kind.
    fn is_mutable(self) -> bool
        ensures { result ≡ format.is_mutable self }
    {
        self.is_shared() || self.is_state()
    }

    fn is_shared(self) -> bool
        ensures { result ≡ format.is_shared self }
    {
        matches!(self, HeadKind::Shared)
    }

    fn is_state(self) -> bool
        ensures { result ≡ format.is_state self }
    {
        matches!(self, HeadKind::State)
    }

    /// Returns whether a flow of this kind has one current value.
    fn has_value(self) -> bool
        ensures { result ≡ format.has_value self }
    {
        matches!(self, HeadKind::State | HeadKind::StateIn)
    }

    /// Returns whether a chain is shared into a flow of this kind.
    fn is_sharing(self) -> bool
        ensures { result ≡ format.is_sharing self }
    {
        matches!(self, HeadKind::Share | HeadKind::StateIn)
    }
}
