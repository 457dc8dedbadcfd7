//! Threads that receive what others send.
ghost use Rattle.std.specs.Prelude.{◌≡◌, [], ◌≤◌, length, vec_capacity};
ghost use Rattle.flow_program.specs.Callers.{Reads};

use flow_shared::Reader;
use std::sync::Wait;

/// Receives `count` values into a list that is empty and has room for them.
pub fn receive_all<R: Wait>(
    rt: &R,
    reader: &mut Reader<u64>,
    count: u64,
    list: Vec<u64>,
) -> Vec<u64>
    requires empty { list.items ≡ [] }
    requires room { count ≤ vec_capacity list }
    ensures flow { reader.new.flow ≡ reader.old.flow }
    ensures number { reader.new.subscription.number ≡ reader.old.subscription.number }
    ensures received { Reads reader.old.subscription.number result.items
        reader.old.subscription.token.knows reader.new.subscription.token.knows }
    ensures count { length result.items ≡ count }
{
    let mut list = list;
    for _received in 0..count {
        let Ok(value) = reader.receive(rt) else {
            unreachable!()
        };
        list.push_reserved(value);
    }
    list
}
