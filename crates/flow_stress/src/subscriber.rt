//! A caller of a flow behind a gate, and its subscription.
use crate::recording::{Answer, Call};
use flow_core::{FlowCore, ReaderCalls, SubscriberCalls};
use flow_shared::{FlowCaller, FlowReader};
use std::sync::Wait;

/// A caller of a shared flow, or of a state flow behind a gate, and its subscription.
#[derive(Drop)]
pub struct Subscriber<S: ReaderCalls + Drop> {
    pub caller: FlowCaller<S>,
    pub reader: Option<FlowReader<S>>,
}

impl<S: ReaderCalls + Drop> Subscriber<S> {
    /// Returns a caller without a subscription.
    pub fn new(caller: FlowCaller<S>) -> Subscriber<S> {
        Subscriber {
            caller,
            reader: None,
        }
    }

    /// Returns another caller of the same flow, without a subscription.
    pub fn another_caller<R: Wait>(&mut self, rt: &R) -> Subscriber<S> {
        Subscriber::new(self.caller.another(rt))
    }

    /// Takes the next value, if there is one. Returns None if memory is refused, or if there is no subscription.
    pub fn next<R: Wait>(&mut self, rt: &R) -> Option<Option<S::Item>> {
        match &mut self.reader {
            Some(reader) => reader.next(rt).ok(),
            None => None,
        }
    }

    /// Ends the subscription, if there is one.
    pub fn unsubscribe<R: Wait>(&mut self, rt: &R) {
        if let Some(reader) = self.reader.take() {
            let _caller = reader.unsubscribe(rt);
        }
    }
}

impl<S: SubscriberCalls + Drop> Subscriber<S> {
    /// Returns another caller of the same flow, with a subscription. Returns None if memory is refused.
    pub fn another_reader<R: Wait>(&mut self, rt: &R) -> Option<Subscriber<S>> {
        let mut made = self.another_caller(rt);
        made.subscribe(rt)?;
        Some(made)
    }

    /// Subscribes. Returns None if memory is refused.
    pub fn subscribe<R: Wait>(&mut self, rt: &R) -> Option<()> {
        self.reader = Some(self.caller.subscribe(rt).ok()?);
        Some(())
    }
}

impl<S: FlowCore<Item = u64> + SubscriberCalls + Drop> Subscriber<S> {
    /// Subscribes, reads, unsubscribes or counts. Returns None for another call.
    pub fn make_of_subscriber<R: Wait>(&mut self, rt: &R, call: Call) -> Option<Answer> {
        match call {
            Call::Subscribe => {
                self.subscribe(rt)?;
                Some(Answer::Done)
            }
            Call::Next => Some(Answer::of(self.next(rt)?)),
            Call::Unsubscribe => {
                self.unsubscribe(rt);
                Some(Answer::Done)
            }
            Call::SubscriptionCount => Some(Answer::Number(self.caller.subscription_count(rt))),
            _ => None,
        }
    }
}
