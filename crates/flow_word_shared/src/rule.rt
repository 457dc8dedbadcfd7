//! The rule of the table.
use crate::view::{RingKnown, RingStart};
use atomic_table::TableRule;
use flow_law::{Sequence, Words};

/// The rule that holds of the words, and of what all tokens know, between any two steps.
pub struct WordFlowRule;

impl<T: Words> TableRule<(), Sequence<RingKnown<T>>, RingStart> for WordFlowRule {
    ghost use Rattle.flow_word_shared.specs.View.{first_ring_view};
    ghost use Rattle.flow_word_shared.specs.Rule.{RingHolds};

    ghost holds = { RingHolds T.are_words T.value_in };

    ghost first = { first_ring_view };
}
