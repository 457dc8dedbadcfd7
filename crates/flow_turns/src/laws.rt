//! What a turn over a flow for one thread means for that flow.
ghost use Rattle.flow_turns.specs.OverCores.{LawTurnOverCore, LawTurnOverStateCore};

/// Proves that a turn over a `SharedCore` is the turn over the documented flow. It is never busy.
pub fn law_turn_over_core<T, A>()
    ensures { LawTurnOverCore T A }
{}

/// Proves that a turn over a `StateCore` is the turn over the documented state flow. No item waits, the flow refuses
/// nothing but a reset that is out of memory, and the turn is never busy.
pub fn law_turn_over_state_core<T, A>()
    ensures { LawTurnOverStateCore T A }
{}
