//! The items that the turns of a sharing put into its flow.

use flow_cold::{Asked, ChainFault, Cold, ScriptChain};
use flow_law::{Command, Event, Report};
use script_chain_format::{ScriptFault, Version, chain_in};
use serde_json::Value;
use std::alloc::{AllocError, Global};

/// The chain of a sharing, which is asked once more as its turns asked it.
#[derive(Drop)]
pub struct Asking {
    chain: ScriptChain,
}

impl Asking {
    /// Returns the chain of a flow before its first turn, if the flow has one that can be built.
    pub fn new(alloc: Global, version: Version, flow: &Value) -> Result<Option<Self>, AllocError> {
        let Some(chain) = flow.get("chain") else {
            return Ok(None);
        };
        match chain_in(alloc, version, 0, chain) {
            Ok(Ok(chain)) => Ok(Some(Asking { chain })),
            Ok(Err(ChainFault::OutOfMemory)) | Err(ScriptFault::OutOfMemory) => Err(AllocError),
            Ok(Err(_)) | Err(_) => Ok(None),
        }
    }

    /// Returns the item that the flow accepted in a turn, by the turn's report. Asks the chain after a
    /// turn that put or queued an item, or found the chain pending or completed.
    ///
    /// # Errors
    /// `AllocError`: out of memory.
    pub fn item(&mut self, report: Report) -> Result<Option<i64>, AllocError> {
        if matches!(report.command, Command::Start) {
            self.chain.rewind();
        }
        match report.event {
            Event::Busy | Event::Idle | Event::Waiting => Ok(None),
            Event::Put | Event::Queued | Event::Pending | Event::Completed => {
                match self.chain.ask() {
                    Asked::Item(item) => Ok(Some(item)),
                    Asked::Fault(ChainFault::OutOfMemory) => Err(AllocError),
                    Asked::Pending | Asked::End | Asked::Fault(_) => Ok(None),
                }
            }
        }
    }
}
