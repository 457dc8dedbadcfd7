//! The answer of a chain's node, in two words, so that it is returned in two registers.
ghost use Rattle.std.specs.Prelude.{◌≡◌};
ghost use Rattle.flow_cold.specs.Answers.{asked_of, is_final};

use crate::script_chain::source_number::SourceNumber;
use flow_law::ChainFault;
use flow_operators::Asked;

/// An item, `Pending`, the end, or a fault. It is an `Asked` without an enum inside an enum.
#[derive(Drop)]
pub enum Answer {
    Item(i64),
    Pending,
    End,
    OutOfMemory,
    Overflow,
    NotPositive,
    TooDeep,
    Source(SourceNumber),
}

impl Answer {
    /// Returns the answer of a chain that failed.
    pub fn failed(fault: ChainFault) -> Answer
        ensures { asked_of result ≡ Asked.Fault fault }
    {
        match fault {
            ChainFault::OutOfMemory => Answer::OutOfMemory,
            ChainFault::Overflow => Answer::Overflow,
            ChainFault::NotPositive => Answer::NotPositive,
            ChainFault::TooDeep => Answer::TooDeep,
            ChainFault::Source(number) => Answer::Source(SourceNumber::new(number)),
        }
    }

    /// Returns the same answer in two words.
    pub fn of(asked: Asked<i64>) -> Answer
        ensures { asked_of result ≡ asked }
    {
        match asked {
            Asked::Item(item) => Answer::Item(item),
            Asked::Pending => Answer::Pending,
            Asked::End => Answer::End,
            Asked::Fault(fault) => Answer::failed(fault),
        }
    }

    /// Returns the answer as callers of a chain get it.
    pub fn asked(self) -> Asked<i64>
        ensures { result ≡ asked_of self }
    {
        match self {
            Answer::Item(item) => Asked::Item(item),
            Answer::Pending => Asked::Pending,
            Answer::End => Asked::End,
            Answer::OutOfMemory => Asked::Fault(ChainFault::OutOfMemory),
            Answer::Overflow => Asked::Fault(ChainFault::Overflow),
            Answer::NotPositive => Asked::Fault(ChainFault::NotPositive),
            Answer::TooDeep => Asked::Fault(ChainFault::TooDeep),
            Answer::Source(source) => Asked::Fault(ChainFault::Source(source.number())),
        }
    }

    /// Returns whether the chain is over after this answer.
    pub fn is_final(&self) -> bool
        ensures { result ≡ is_final (asked_of self.now) }
    {
        match self {
            Answer::Item(_) => false,
            Answer::Pending => false,
            _ => true,
        }
    }
}
