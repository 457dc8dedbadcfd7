//! Out of memory: worked examples that make a refused call again. They run with the first allocation refused, with the
//! second one, and so on, until nothing is refused in a run. The replies are always those of the documentation.

mod again;
mod awaiting;
mod flows;
mod gates;
