//! Callers of cold chains with contracts, and tests of chains: worked examples, counts of asks, and chains as streams.
mod asks;
mod callers;
mod gives;
mod inner;
mod methods;
mod refused_copies;
mod streams;
