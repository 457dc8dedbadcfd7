//! Cold flows: sources and operators over closures, asked for one item at a time.
//!
//! Begin with the trait `Cold`, which says what an ask answers and what it leaves. A chain is a source (`OfList`,
//! `OfRange`, `Scripted`) and operators on it (`Map`, `Filter`, `Take` and others). It does nothing until it is asked.
//! `collect_all` collects its items, and `Streamed` makes a stream of it.
//!
//! `Chain` has the operators as methods, and `Terminal` has `fold`, `first`, `any`, `for_each` and others:
//! `OfRange::new(1, 10).filter(|x| x % 2 == 0).map_value(|x| x / 2).take(3)?`.
//!
//! Programs import these names from `flow_cold`, which also has chains that are built at run time.
//!
//! # Asking
//! `ask` answers an item, `Pending`, the end or a fault. After the end or a fault it answers the end until `rewind`. No
//! operator asks ahead: an ask takes from the upstream just what its answer needs.
//!
//! # What a chain promises
//! A chain has two runs: the whole, which no call changes, and the rest. `ask` takes the first entry of the rest
//! (clause `gives`), takes from the upstream just what its answer needs (`behind`), and can be made at most
//! `bound.most_asks` times before the end (`fewer`). A constructor of a source says what the source's run is. An
//! operator is made by a method of `Chain` alone, which says what the operator's run is (`whole`) and what that means for
//! lists (`meaning`). A method of `Terminal` starts the chain from the beginning; its result is stated by the chain's
//! items and end, and what it keeps of the chain by one word (`stays`). A fault is the last answer of the chain, or the
//! answer of a call of the closure; after the latter the chain is just after the item of that call.
//!
//! # Closures
//! Operators take plain closures. All that they require is that the closure may be called. Claims about items are
//! stated for each *reading* of the closures: one function for each closure, which it computes unless memory is refused
//! (`Cold::Reading`, `Cold::Reads`). To prove more than safety, name these functions in a contract of your own; nothing
//! is written at the call. A closure in the chains of a `flat_map_concat` may capture the outer item: then it has a
//! function for each outer item.
//!
//! # Faults
//! A closure that makes items may answer a fault, as `x.checked_mul(k).ok_or(ChainFault::Overflow)` does. The fault
//! ends the chain, and that call emits no item. The closure of `map_value` cannot fail: it returns the item itself.
#![tactic(auto)]

mod chain;
mod cold;
mod collect;
mod laws;
mod operators;
mod sources;
mod stepping;
mod streamed;
mod terminal;
mod upstream;

pub use chain::Chain;
pub use cold::{Asked, Cold};
pub use collect::{Collected, collect_all};
pub use flow_law::{ChainFault, End};
pub use laws::law_asks_left;
pub use operators::{
    Distinct, DropFirst, DropWhile, Filter, FlatMapConcat, Map, MapValue, RunningReduce, Scan,
    Take, TakeWhile, Transform, Zip,
};
pub use sources::{Entry, OfList, OfRange, Scripted};
pub use streamed::Streamed;
pub use terminal::Terminal;
