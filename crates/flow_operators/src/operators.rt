//! The operators.

mod distinct;
mod drop_first;
mod drop_while;
mod filter;
mod flat_map_concat;
mod last;
mod map;
mod map_value;
pub(crate) mod pairs;
mod passing;
pub(crate) mod results;
mod running_reduce;
mod scan;
mod take;
mod take_while;
mod transform;
mod zip;

pub use distinct::Distinct;
pub use drop_first::DropFirst;
pub use drop_while::DropWhile;
pub use filter::Filter;
pub use flat_map_concat::FlatMapConcat;
pub use map::Map;
pub use map_value::MapValue;
pub(crate) use passing::passes;
pub use running_reduce::RunningReduce;
pub use scan::Scan;
pub use take::Take;
pub use take_while::TakeWhile;
pub use transform::Transform;
pub use zip::Zip;
