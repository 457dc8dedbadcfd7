//! States that a lock guards, and the histories that they stand for.
ghost use Rattle.std.specs.Prelude.{List};
ghost use Rattle.flow_law.specs.declared.history.HistoryEvent.{HistoryEvent};

/// A state that one caller at a time may change. In contracts it stands for histories.
pub trait Guarded {
    /// What one event says.
    type Said;

    /// Whether the second state stands for this history, which began in the first state.
    ghost stands: { Self → Self → List (HistoryEvent Self.Said) → Type 0 };
}
