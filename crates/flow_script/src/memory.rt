//! Which faults are out of memory. No line reports them: they end the script.
ghost use Rattle.std.specs.Prelude.{◌≡◌, ◌↔◌, false, true};
ghost use Rattle.flow_script.specs.Memory.{IsToldFlowFault, IsToldChainFault, IsToldFault, IsToldEnd};

use flow_law::{ChainFault, End, FlowFault, ShareFault};

pub fn is_flow_memory(fault: FlowFault) -> bool
    ensures { (result ≡ false) ↔ IsToldFlowFault fault }
{
    match fault {
        FlowFault::OutOfMemory => true,
        _ => false,
    }
}

pub fn is_chain_memory(fault: ChainFault) -> bool
    ensures { (result ≡ false) ↔ IsToldChainFault fault }
{
    match fault {
        ChainFault::OutOfMemory => true,
        _ => false,
    }
}

/// Returns whether a turn was refused, or no sharing was made, with `OutOfMemory`.
pub fn is_memory(fault: ShareFault) -> bool
    ensures { (result ≡ false) ↔ IsToldFault fault }
{
    match fault {
        ShareFault::Chain(fault) => is_chain_memory(fault),
        ShareFault::Flow(fault) => is_flow_memory(fault),
        ShareFault::Backwards(_) | ShareFault::Ended => false,
    }
}

/// Returns whether a collection ended because it was out of memory.
pub fn ends_for_memory(end: End) -> bool
    ensures { (result ≡ false) ↔ IsToldEnd end }
{
    match end {
        End::Completed => false,
        End::Failed(fault) => is_chain_memory(fault),
    }
}
