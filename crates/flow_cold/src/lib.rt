//! Cold flows: chains of operators that are asked for one item at a time, and run anew for each collection.
//!
//! A chain is a source and operators on it. `flow_operators` has those that take closures, the trait `Cold` and
//! `collect_all`; this crate exports all of it. Its own `ScriptChain` is a chain that is built at run time.
#![tactic(auto)]

mod script_chain;

pub use flow_operators::{
    Asked, Chain, ChainFault, Cold, Collected, Distinct, DropFirst, DropWhile, End, Entry, Filter,
    FlatMapConcat, Map, MapValue, OfList, OfRange, RunningReduce, Scan, Scripted, Streamed, Take,
    TakeWhile, Terminal, Transform, Zip, collect_all, law_asks_left,
};
pub use script_chain::{Arithmetic, Joining, Op, ScriptChain, Source, Spread, Test};
