//! The words of records.

/// A call, as records name it.
#[derive(Clone, Copy, PartialEq, Eq)]
pub enum CallWord {
    Value,
    Set,
    CompareAndSet,
    Update,
    TryEmit,
    Emit,
    Subscribe,
    Next,
    Unsubscribe,
    First,
    SubscriptionCount,
    ReplayCache,
    ResetReplayCache,
}

/// The answers that a call may have.
#[derive(Clone, Copy)]
pub enum AnswerForm {
    Done,
    /// Of `emit`, which may be cancelled.
    Ended,
    Value,
    Truth,
    /// Of `next`.
    Next,
    /// Of `first`, which may be cancelled.
    First,
    Number,
    Values,
    /// Of `update`: the old value and the new one.
    Exchange,
}

impl AnswerForm {
    /// Returns words for what is expected.
    pub fn expected(self) -> &'static str {
        match self {
            AnswerForm::Done => "\"done\"",
            AnswerForm::Ended => "\"done\" or \"cancelled\"",
            AnswerForm::Value => "{\"value\": V}, with a value",
            AnswerForm::Truth => "true or false",
            AnswerForm::Next => "{\"value\": V}, with a value, or \"empty\"",
            AnswerForm::First => "{\"value\": V}, with a value, or \"cancelled\"",
            AnswerForm::Number => "a whole number from 0 on",
            AnswerForm::Values => "a list of values",
            AnswerForm::Exchange => "{\"old\": V, \"value\": V}, with two values",
        }
    }

    /// Returns the words that are answers.
    pub fn words(self) -> &'static [&'static str] {
        match self {
            AnswerForm::Done => &["done"],
            AnswerForm::Ended => &["done", "cancelled"],
            AnswerForm::Next => &["empty"],
            AnswerForm::First => &["cancelled"],
            _ => &[],
        }
    }
}

/// The kinds of flow that have a call.
#[derive(Clone, Copy)]
pub enum Kinds {
    State,
    Shared,
    Both,
}

impl Kinds {
    fn has(self, is_state: bool) -> bool {
        match self {
            Kinds::State => is_state,
            Kinds::Shared => !is_state,
            Kinds::Both => true,
        }
    }
}

/// A call: its word, its keys, its answers, and the kinds of flow that have it.
#[derive(Clone, Copy)]
pub struct CallRow {
    pub word: &'static str,
    pub call: CallWord,
    pub keys: &'static [&'static str],
    pub answer: AnswerForm,
    pub kinds: Kinds,
}

const PLAIN: &[&str] = &["by", "call", "begin", "end", "answer"];

const WITH_VALUE: &[&str] = &["by", "call", "value", "begin", "end", "answer"];

const WITH_EXPECT: &[&str] = &["by", "call", "expect", "value", "begin", "end", "answer"];

const WITH_FIRST: &[&str] = &["by", "call", "first", "begin", "end", "answer"];

/// A row of `CALLS`: the word, the call, its keys, its answers, and the kinds of flow that have it.
macro_rules! row {
    ($word:expr, $call:ident, $keys:expr, $answer:ident, $kinds:ident) => {
        CallRow {
            word: $word,
            call: CallWord::$call,
            keys: $keys,
            answer: AnswerForm::$answer,
            kinds: Kinds::$kinds,
        }
    };
}

/// All calls: first those of state flows only, last those of shared flows only.
const CALLS: &[CallRow] = &[
    row!("value", Value, PLAIN, Value, State),
    row!("set", Set, WITH_VALUE, Done, State),
    row!("compare_and_set", CompareAndSet, WITH_EXPECT, Truth, State),
    row!("update", Update, PLAIN, Exchange, State),
    row!("try_emit", TryEmit, WITH_VALUE, Truth, Both),
    row!("subscribe", Subscribe, PLAIN, Done, State),
    row!("subscribe", Subscribe, WITH_FIRST, Done, Shared),
    row!("next", Next, PLAIN, Next, Both),
    row!("unsubscribe", Unsubscribe, PLAIN, Done, Both),
    row!("first", First, PLAIN, First, Both),
    row!("subscription_count", SubscriptionCount, PLAIN, Number, Both),
    row!("replay_cache", ReplayCache, PLAIN, Values, Both),
    row!("emit", Emit, WITH_VALUE, Ended, Shared),
    row!("reset_replay_cache", ResetReplayCache, PLAIN, Done, Shared),
];

/// The words of the calls of state flows.
pub const STATE_CALLS: &[&str] = &[
    "value",
    "set",
    "compare_and_set",
    "update",
    "try_emit",
    "subscribe",
    "next",
    "unsubscribe",
    "first",
    "subscription_count",
    "replay_cache",
];

/// The words of the calls of shared flows.
pub const SHARED_CALLS: &[&str] = &[
    "try_emit",
    "emit",
    "subscribe",
    "next",
    "unsubscribe",
    "first",
    "subscription_count",
    "replay_cache",
    "reset_replay_cache",
];

pub const HEAD_KEYS: &[&str] = &["flow", "calls"];

pub const LINE_KEYS: &[&str] = &["flow"];

pub const STATE_KEYS: &[&str] = &["kind", "initial"];

pub const SHARED_KEYS: &[&str] = &["kind", "replay", "extra", "overflow"];

pub const KINDS: &[&str] = &["state", "shared"];

pub const OVERFLOWS: &[&str] = &["suspend", "drop_oldest", "drop_latest"];

/// Returns whether a word is one of these.
pub fn is_one_of(word: &str, words: &[&str]) -> bool {
    for known in words {
        if *known == word {
            return true;
        }
    }
    false
}

/// Returns the row of a call of this kind of flow.
pub fn row_of(word: &str, is_state: bool) -> Option<CallRow> {
    for row in CALLS {
        if row.kinds.has(is_state) && row.word == word {
            return Some(*row);
        }
    }
    None
}
