//! Passing a message from one thread to another.
ghost use Rattle.std.specs.Prelude.{◌≡◌, Some, IfSome};
ghost use Rattle.flow_law.specs.flow.StateFlow.{IsStateHistory};
ghost use Rattle.flow_law.specs.history.Tokens.{HasSeenMore};
ghost use Rattle.flow_messages.specs.Before.{ReadsAfterSet};

use crate::message::{Message, OneFlow};
use crossbeam_channel::{Receiver, Sender, unbounded};
use flow_word::WordSetter;
use std::alloc::Global;
use std::marker::Brand;
use std::sync::Wait;
use std::thread::{Threads, join};

/// What the reader of a message has at the end: its handle, the value of the message, and the value that it then read.
#[derive(Drop)]
pub struct Heard {
    pub reader: WordSetter<u64>,
    pub value: u64,
    pub found: u64,
}

/// Sets the value, and sends a message about it.
fn tell<F: OneFlow, R: Wait>(
    rt: &R,
    setter: WordSetter<u64>,
    to: Sender<Message<F>, Global>,
    value: u64,
)
    requires flow { F.id ≡ Some setter.flow.table_id }
    requires value { F.said ≡ Some value }
{
    let mut setter = setter;
    let message = Message::of_set(rt, &mut setter, value);
    // If it cannot be sent, the reader finds the channel empty and closed.
    let _ = to.send(rt, message);
}

/// Waits for a message, and then reads the value. Returns `None` if no message arrives.
fn hear<F: OneFlow, R: Wait>(
    rt: &R,
    reader: WordSetter<u64>,
    from: Receiver<Message<F>, Global>,
) -> Option<Heard>
    requires { F.id ≡ Some reader.flow.table_id }
    ensures value { IfSome result (λ heard. F.said ≡ Some heard.value) }
    ensures flow { IfSome result (λ heard. heard.reader.flow ≡ reader.flow) }
    ensures reader { IfSome result (λ heard. HasSeenMore reader.token heard.reader.token) }
    ensures history { IfSome result (λ heard.
        IsStateHistory heard.reader.flow.first heard.reader.token.knows.seen) }
    ensures after { IfSome result (λ heard.
        ∥ ReadsAfterSet heard.value heard.found heard.reader.token.knows ∥₁) }
{
    let mut reader = reader;
    let message = from.recv(rt).ok()?;
    let value = message.value;
    let found = message.read_after(&mut reader);
    Some(Heard {
        reader,
        value,
        found,
    })
}

fn pass_between<F: OneFlow + Send, R: Threads + Wait + Sync>(
    rt: &R,
    alloc: Global,
    setter: WordSetter<u64>,
    reader: WordSetter<u64>,
    value: u64,
) -> Option<Heard>
    requires flow { (F.id ≡ Some setter.flow.table_id) × (F.id ≡ Some reader.flow.table_id) }
    requires value { F.said ≡ Some value }
    ensures value { IfSome result (λ heard. heard.value ≡ value) }
    ensures flow { IfSome result (λ heard. heard.reader.flow ≡ reader.flow) }
    ensures reader { IfSome result (λ heard. HasSeenMore reader.token heard.reader.token) }
    ensures history { IfSome result (λ heard.
        IsStateHistory heard.reader.flow.first heard.reader.token.knows.seen) }
    ensures after { IfSome result (λ heard.
        ∥ ReadsAfterSet heard.value heard.found heard.reader.token.knows ∥₁) }
{
    let (to, from) = unbounded::<Message<F>, Global>(alloc).ok()?;
    let (heard, ()) = join(
        rt,
        move || hear(rt, reader, from),
        move || tell(rt, setter, to, value),
    );
    heard
}

/// Joins two closures: one sets the value and sends a message about it, the other waits for the message and then reads.
///
/// Returns `None` if there is no memory for the channel or the message. The message has this value, and the reader is
/// the given one. It finds the value that was set, or one that another caller set after it.
pub fn pass_on<R: Threads + Wait + Sync>(
    rt: &R,
    alloc: Global,
    setter: WordSetter<u64>,
    reader: WordSetter<u64>,
    value: u64,
) -> Option<Heard>
    requires { setter.flow ≡ reader.flow }
    ensures value { IfSome result (λ heard. heard.value ≡ value) }
    ensures flow { IfSome result (λ heard. heard.reader.flow ≡ reader.flow) }
    ensures reader { IfSome result (λ heard. HasSeenMore reader.token heard.reader.token) }
    ensures history { IfSome result (λ heard.
        IsStateHistory heard.reader.flow.first heard.reader.token.knows.seen) }
    ensures after { IfSome result (λ heard.
        ∥ ReadsAfterSet heard.value heard.found heard.reader.token.knows ∥₁) }
{
    pass_between::<Brand, R>(rt, alloc, setter, reader, value)
}
