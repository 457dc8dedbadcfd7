//! Tests of flows for one thread that no script has: drains, refused copies, many values, what a flow keeps, and
//! values that own memory. What calls must return is from kotlinx.coroutines' documentation of `MutableSharedFlow`,
//! `BufferOverflow` and `MutableStateFlow`.
mod caller;
mod drains;
mod many;
mod signs;
mod state;
mod value_traits;
mod values;
