//! A store, a desk, what is published of them, and who takes it, over lists of events.
#![tactic(auto)]

mod event;
mod request;
mod views;
mod world;

pub use event::{Answer, Event};
pub use request::{Moment, Request};
pub use world::{World, recover};
