//! How often a chain can still be asked.
ghost use Rattle.flow_operators.specs.Asking.{LawAsksLeft};

/// Proves that a chain can still be asked as often as the rest of its run has entries. By the clause `gives` of
/// `Cold::ask`, each ask that answers an item or `Pending` takes one entry, and none is left at the end.
pub fn law_asks_left<T>()
    ensures { LawAsksLeft T }
{}
