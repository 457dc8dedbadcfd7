//! Callers that borrow a flow. They know nothing of its maker or of other threads, and rely on its laws.
ghost use Rattle.std.specs.Prelude.{◌≡◌, Ok};
ghost use Rattle.flow_law.specs.declared.outcome.Next.TheVariants.{Empty};
ghost use Rattle.flow_law.specs.laws.Laws.{NoIdleQueue};
ghost use Rattle.flow_law.specs.flow.SharedHistory.{state_after};
ghost use Rattle.flow_tests.specs.LentFlows.{HasAll, IsNewest, ReadsInOrder};

use flow_law::{FlowFault, FlowValue, Next, Packed, Refused};
use flow_shared::{Seat, SharedFlow, Subscription};
use flow_word::{WordSeat, WordState};
use std::sync::Wait;

/// Emits a value unless it would have to wait. After the call no value waits in the queue, unless the flow is blocked.
pub fn emit_one<R: Wait, T: FlowValue>(
    rt: &R,
    flow: &SharedFlow<T>,
    seat: &mut Seat<T>,
    value: T,
) -> Result<bool, Refused<T>>
    requires { seat.old.table_id ≡ flow.now.table_id }
    ensures table { seat.new.table_id ≡ flow.now.table_id }
    ensures queue { NoIdleQueue (state_after flow.now.first.config seat.new.knows.seen) }
{
    let taken = flow.try_emit(rt, seat, value);
    flow.seen(seat);
    taken
}

/// Receives the next value. The values of the flow that the subscriber has received so far are from the position at
/// which it entered on, in order; with a buffer, unless the flow drops the oldest, none is missed. If there is no next
/// value, the subscriber has received all that was delivered to it.
pub fn next_in_order<R: Wait, T: FlowValue>(
    rt: &R,
    flow: &SharedFlow<T>,
    subscription: &mut Subscription<T>,
) -> Result<Next<T>, FlowFault>
    requires { subscription.old.token.table_id ≡ flow.now.table_id }
    ensures table { subscription.new.token.table_id ≡ flow.now.table_id }
    ensures in_order { ReadsInOrder subscription.new.number
        flow.now.first.config subscription.new.token.knows.seen }
    ensures all { result ≡ Ok Empty
        → HasAll subscription.new.number flow.now.first.config subscription.new.token.knows.seen }
{
    let next = flow.next(rt, subscription);
    flow.seen_by_subscription(subscription);
    next
}

/// Returns the current value, which is the newest one in the history that the seat has seen.
pub fn read_newest<T: Packed>(flow: &WordState<T>, seat: &mut WordSeat<T>) -> T
    requires { seat.old.table_id ≡ flow.now.table_id }
    ensures table { seat.new.table_id ≡ flow.now.table_id }
    ensures newest { IsNewest flow.now.first.value seat.new.knows.seen result }
{
    let value = flow.value(seat);
    flow.seen(seat);
    value
}
