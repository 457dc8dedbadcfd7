//! A message, and what its type says.
ghost use Rattle.std.specs.Prelude.{◌≡◌, ℕ, Option, Some, None};
ghost use Rattle.flow_law.specs.flow.StateFlow.{IsStateHistory};
ghost use Rattle.flow_law.specs.history.Tokens.{HasSeenMore};
ghost use Rattle.flow_word.specs.Tokens.{WordId};
ghost use Rattle.flow_messages.specs.Before.{IsSetByMaker, ReadsAfterSet};

use flow_word::WordSetter;
use std::marker::{Brand, PhantomData};
use std::sync::Wait;

/// The flow of the callers in messages, and the value that each message has, for contracts only. A call at `Brand`
/// chooses them in its proof.
pub trait OneFlow {
    ghost id: { Option WordId };

    ghost said: { Option ℕ };
}

impl OneFlow for Brand {
    ghost id = { None };

    ghost said = { None };
}

/// A value that was set, and a caller that has seen the `set`.
#[derive(Drop)]
pub struct Message<F: OneFlow> {
    pub value: u64,
    pub caller: WordSetter<u64>,
    pub of: PhantomData<F>,
    ghost of_flow: { F.id ≡ Some caller.flow.table_id },
    ghost of_value: { F.said ≡ Some value },
    ghost set: { ∥ IsSetByMaker value caller.token.knows ∥₁ },
}

impl<F: OneFlow> Message<F> {
    /// Sets the value, and returns a message about it.
    pub fn of_set<R: Wait>(rt: &R, setter: &mut WordSetter<u64>, value: u64) -> Message<F>
        requires flow { F.id ≡ Some setter.old.flow.table_id }
        requires value { F.said ≡ Some value }
        ensures { result.value ≡ value }
    {
        setter.set(value);
        Message {
            value,
            caller: setter.another(rt),
            of: PhantomData,
        }
    }

    /// Meets the message's caller, and reads the value of the flow.
    pub fn read_after(self, reader: &mut WordSetter<u64>) -> u64
        requires { F.id ≡ Some reader.old.flow.table_id }
        ensures flow { reader.new.flow ≡ reader.old.flow }
        ensures reader { HasSeenMore reader.old.token reader.new.token }
        ensures history { IsStateHistory reader.new.flow.first reader.new.token.knows.seen }
        ensures after { ∥ ReadsAfterSet self.value result reader.new.token.knows ∥₁ }
    {
        let Message {
            value: _,
            mut caller,
            of: _,
        } = self;
        reader.meet(&mut caller);
        reader.value()
    }
}
