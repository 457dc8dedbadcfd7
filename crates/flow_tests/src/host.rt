//! The runtime and the memory of tests.
use std::alloc::{AllocGlobal, Allocator};
use std::process::Abort;
use std::random::RandomSource;
use std::sync::Wait;
use std::thread::Threads;
use std::time::Clock;

/// A runtime that ends a test, on which threads run and sleep, and tasks are made.
pub trait Host: Abort + Wait + Clock + Threads + RandomSource + AllocGlobal + Sync {}

impl<R: Abort + Wait + Clock + Threads + RandomSource + AllocGlobal + Sync> Host for R {}

/// An allocator that is handed on by value.
pub trait Memory: Allocator + Copy {}

impl<A: Allocator + Copy> Memory for A {}
