//! What runs a test.

use std::alloc::AllocGlobal;
use std::process::Abort;
use std::sync::Wait;
use std::thread::Threads;
use std::time::Clock;

/// Starts threads that wait, and ends a test that fails.
pub trait Host: AllocGlobal + Threads + Wait + Clock + Sync + Abort {}

impl<R: AllocGlobal + Threads + Wait + Clock + Sync + Abort> Host for R {}
