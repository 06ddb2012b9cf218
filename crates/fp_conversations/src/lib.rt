//! What an editor's and a subscriber's connection says, over any reader and writer, on a plane.
#![tactic(auto)]

mod answer;
mod editor;
mod subscriber;

pub use editor::{EditorEnd, editor_loop};
pub use subscriber::{SubscriberFault, subscriber_loop};
