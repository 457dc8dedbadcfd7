//! A `set` and a `value` of two callers that never meet, and a third caller that meets both later.
ghost use Rattle.std.specs.Prelude.{◌≡◌};
ghost use Rattle.flow_law.specs.flow.StateFlow.{IsStateHistory};
ghost use Rattle.flow_law.specs.history.Tokens.{HasSeenMore};
ghost use Rattle.flow_messages.specs.Apart.{SeesBoth};

use flow_law::law_linearizable;
use flow_word::WordSetter;

/// Sets the value by one caller and reads it by another one, which never meet; the result is what was read. Then a third
/// caller meets both. It has seen both calls, and if one of them had returned when the other one began, that one comes
/// first.
///
/// The two callers may have come from other threads, and go on in them.
pub fn set_and_read_apart(
    setter: &mut WordSetter<u64>,
    reader: &mut WordSetter<u64>,
    third: &mut WordSetter<u64>,
    value: u64,
) -> u64
    requires { (setter.old.flow ≡ third.old.flow) × (reader.old.flow ≡ third.old.flow) }
    ensures flow { (setter.new.flow ≡ setter.old.flow) × (reader.new.flow ≡ reader.old.flow)
        × (third.new.flow ≡ third.old.flow) }
    ensures third { HasSeenMore third.old.token third.new.token }
    ensures history { IsStateHistory third.new.flow.first third.new.token.knows.seen }
    ensures order { SeesBoth value result setter.old.token.knows.name
        reader.old.token.knows.name third.new.token.knows.seen }
{
    setter.set(value);
    let found = reader.value();
    third.meet(setter);
    third.meet(reader);
    law_linearizable::<u64>();
    found
}
