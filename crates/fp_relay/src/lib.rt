//! A relay: evaluations and snapshots over the frames that a service elsewhere sends.
#![tactic(auto)]

mod backoff;
mod connecting;
mod events;
mod following;
mod numbers;
mod ports;
mod restoring;
mod running;
mod services;
mod set;
mod shelf;
mod source;
mod threads;
mod uplink;
mod waiting;
mod words;

pub use backoff::delay;
pub use fp_connections::Host;
pub use fp_kept::{Beside, KeptFiles, KeptParts, Made, Renamed, Replaced, SystemFiles};
pub use fp_relay_replies::Origins;
pub use running::{RelayFault, relay};
pub use source::{Audience, SourceEnd, follow};
pub use words::{Options, WordsFault, options_of};
