//! The rule of the table.
use crate::view::{Known, Start};
use atomic_table::TableRule;
use flow_law::{Packed, Sequence};

/// The rule that holds of the two words, and of what all tokens know, between any two steps.
pub struct WordRule;

impl<T: Packed> TableRule<(), Sequence<Known<T>>, Start> for WordRule {
    ghost use Rattle.flow_word.specs.View.{first_word_view};
    ghost use Rattle.flow_word.specs.Rule.{WordHolds};

    ghost holds = { WordHolds T.packs T.value_of };

    ghost first = { first_word_view };
}
