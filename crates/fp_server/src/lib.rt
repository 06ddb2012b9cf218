//! The service: a store over sockets, for editors, evaluators and subscribers at once.
#![tactic(auto)]

mod attending;
mod connections;
mod ended;
mod evaluations;
mod lingering;
mod listening;
mod noted;
mod roles;
mod services;
mod serving;
mod task;
mod until_stopped;
mod watching;

pub use attending::attend;
pub use fp_connections::Host;
pub use fp_http::{Moment, TimeLimits};
pub use services::Addresses;
pub use serving::serve;
pub use task::{Task, task_of};
pub use watching::watch;
