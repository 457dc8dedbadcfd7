//! Collecting a chain to its end.
ghost use Rattle.std.specs.Prelude.{◌≡◌, ◌≢◌, IfOk, IfErr};
ghost use Rattle.flow_law.specs.chain.ChainRun.{Collects};
ghost use Rattle.flow_operators.specs.Collecting.{StandsAfterItem};
ghost use Rattle.flow_operators.specs.SameChain.{StaysChain};

use crate::cold::{Asked, Cold};
use flow_law::{ChainFault, End};
use std::alloc::{Allocator, Global};

/// What a collection returned.
#[derive(Debug, Drop)]
pub struct Collected<T, A: Allocator = Global> {
    pub items: Vec<T, A>,
    pub end: End,
}

/// Starts the chain from the beginning, and collects its items up to its end. After `Pending` it asks again.
///
/// # Errors
/// `OutOfMemory` if the list of items has no room; the items are dropped. A fault inside the chain is its end, and no
/// error.
pub fn collect_all<C: Cold, A: Allocator>(
    alloc: A,
    chain: &mut C,
) -> Result<Collected<C::Item, A>, ChainFault>
    requires { C.CanAsk chain.old }
    ensures stays { StaysChain C.Cold chain.old chain.new }
    ensures given { C.IsGiven chain.old → IfOk result (λ collected.
        collected.end ≢ End.Failed ChainFault.OutOfMemory) }
    ensures collects { IfOk result (λ collected. (m : C.Reading) → C.Reads chain.old m
        → Collects (C.whole chain.old m) collected.items.items collected.end) }
    // The end is the chain's last answer, also if that is `OutOfMemory`. The items before it are returned.
    ensures over { IfOk result (λ _. C.IsOver chain.new) }
    ensures answered { IfOk result (λ collected. C.HasAnswered chain.new collected.end) }
    // The list had no room for the last item.
    ensures memory { IfErr result (λ fault. fault ≡ ChainFault.OutOfMemory) }
    ensures refused { IfErr result (λ _. (m : C.Reading) → C.Reads chain.old m
        → StandsAfterItem (C.whole chain.old m) (C.rest chain.new m)) }
{
    chain.rewind();
    let mut items = Vec::new(alloc);
    loop {
        match chain.ask() {
            Asked::Item(item) => {
                if items.push(item).is_err() {
                    return Err(ChainFault::OutOfMemory);
                }
            }
            Asked::Pending => {}
            Asked::End => {
                return Ok(Collected {
                    items,
                    end: End::Completed,
                });
            }
            Asked::Fault(fault) => {
                return Ok(Collected {
                    items,
                    end: End::Failed(fault),
                });
            }
        }
    }
}
