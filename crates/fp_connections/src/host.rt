//! What a program with sockets asks of the runtime.

use log::Log;
use std::alloc::AllocGlobal;
use std::net::{Net, TcpListener, TcpStream};
use std::random::RandomSource;
use std::sync::Wait;
use std::thread::Threads;
use std::time::Clock;

/// A runtime with threads, sockets, memory, a clock, random numbers and a log, which each thread
/// has a copy of.
pub trait Host: Wait
    + Threads
    + Clock
    + RandomSource
    + AllocGlobal
    + Net<Listener = TcpListener, Stream = TcpStream>
    + Log
    + Copy
    + Send
    + Sync
    + Drop
    + 'static {}

impl<R> Host for R
where
    R: Wait
        + Threads
        + Clock
        + RandomSource
        + AllocGlobal
        + Net<Listener = TcpListener, Stream = TcpStream>
        + Log
        + Copy
        + Send
        + Sync
        + Drop
        + 'static,
{}

/// What the runtime's clock shows, in milliseconds since some moment, and 0 without one.
pub fn milliseconds<R: Clock>(rt: &R) -> u64 {
    match rt.monotonic() {
        Ok(since) => since.as_millis().min(u64::MAX as u128) as u64,
        Err(_) => 0,
    }
}
