//! What a turn over a flow for several threads means for the history of that flow.
ghost use Rattle.flow_sharing.specs.OverThreads.{LawTurnOverSharedFlow, LawTurnOverWordFlow, LawTurnOverStateFlow, LawTurnOverWordState};

/// Proves that a turn over a `SharedFlow` is `Busy` exactly if a seat of the hub lost an exchange in it, and that the
/// count that it observed and the item that it put are events of the hub's seats.
pub fn law_turn_over_shared_flow<T>()
    ensures { LawTurnOverSharedFlow T }
{}

/// Proves of a turn over a `WordFlow` what `law_turn_over_shared_flow` proves of a `SharedFlow`. No emission waits.
pub fn law_turn_over_word_flow<T>()
    ensures { LawTurnOverWordFlow T }
{}

/// Proves of a turn over a `StateFlow` what `law_turn_over_shared_flow` proves of a `SharedFlow`. A put is a `set`.
pub fn law_turn_over_state_flow<T>()
    ensures { LawTurnOverStateFlow T }
{}

/// Proves of a turn over a `WordState` what `law_turn_over_state_flow` proves of a `StateFlow`, and that it is never
/// `Busy`.
pub fn law_turn_over_word_state<T>()
    ensures { LawTurnOverWordState T }
{}
