//! Tests of the word state: worked examples of one caller and of several threads, packs, and a message between threads.
pub mod celsius;
#[cfg(test)]
mod lost;
#[cfg(test)]
mod one_caller;
#[cfg(test)]
mod packs;
#[cfg(test)]
mod threads;
#[cfg(test)]
mod two_setters;
