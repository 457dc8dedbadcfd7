//! Threads that send numbers.
ghost use Rattle.std.specs.Prelude.{◌≡◌, ◌∷◌, [], ◌+◌, ◌^◌, ◌≤◌};
ghost use Rattle.flow_program.specs.Callers.{OnlyEmits};
ghost use Rattle.flow_program.specs.Numbers.{numbers_from};

use flow_shared::Emitter;
use std::sync::Wait;
use std::thread;

/// Sends a value. If it is refused, lets other threads run and sends it again: the receiver makes room meanwhile.
fn send<R: Wait>(rt: &R, emitter: &mut Emitter<u64>, value: u64)
    ensures flow { emitter.new.flow ≡ emitter.old.flow }
    ensures sent { OnlyEmits (value ∷ []) emitter.old.token.knows emitter.new.token.knows }
{
    for _ in rt.forever() {
        match emitter.send(rt, value) {
            Ok(()) => return,
            Err(_rejected) => thread::yield_now(),
        }
    }
    unreachable!()
}

/// Sends `count` numbers, from `first` on.
pub fn send_all<R: Wait>(rt: &R, emitter: &mut Emitter<u64>, first: u64, count: u64)
    requires { first + count ≤ 2 ^ 64 }
    ensures flow { emitter.new.flow ≡ emitter.old.flow }
    ensures sent { OnlyEmits
        (numbers_from first count) emitter.old.token.knows emitter.new.token.knows }
{
    for sent in 0..count {
        send(rt, emitter, first + sent);
    }
}
