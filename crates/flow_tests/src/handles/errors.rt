//! The errors of handles as faults, and as text.
use crate::compare::compare;
use flow_law::{
    Busy, EmitNowError, Exhausted, FlowFault, NumberError, OutOfMemory, Rejected, TryNextError,
    Unsupported,
};

#[test]
fn each_error_stands_for_a_fault(rt: HostRuntime) {
    let of_number = FlowFault::from(NumberError::OutOfMemory);
    let of_limit = FlowFault::from(NumberError::Exhausted);
    let of_emit = FlowFault::from(EmitNowError::Exhausted);
    let of_next = FlowFault::from(TryNextError::OutOfMemory);
    let table = [
        (FlowFault::from(OutOfMemory), FlowFault::OutOfMemory),
        (FlowFault::from(Exhausted), FlowFault::Exhausted),
        (FlowFault::from(Busy), FlowFault::Busy),
        (FlowFault::from(Unsupported), FlowFault::Unsupported),
        (of_number, FlowFault::OutOfMemory),
        (of_limit, FlowFault::Exhausted),
        (FlowFault::from(EmitNowError::Busy), FlowFault::Busy),
        (of_emit, FlowFault::Exhausted),
        (of_next, FlowFault::OutOfMemory),
        (FlowFault::from(TryNextError::Busy), FlowFault::Busy),
    ];
    for (fault, wanted) in table {
        compare(&rt, "the fault of an error", fault, wanted);
    }
}

/// Returns the fault that `?` makes of a refusal that hands its value back.
fn fault_of(answer: Result<(), Rejected<i64, Busy>>) -> Result<(), FlowFault> {
    answer?;
    Ok(())
}

#[test]
fn a_rejected_value_is_told_by_its_error(rt: HostRuntime) {
    let rejected = Rejected {
        value: 3,
        error: Busy,
    };
    let text = format!(in rt.alloc(); "{rejected}").expect(&rt, "a text");
    let wanted = "another caller was inside the flow";
    compare(&rt, "the text", text.as_str(), wanted);
    compare(&rt, "fault", fault_of(Err(rejected)), Err(FlowFault::Busy));
}
