//! What programs with sockets share: the runtime that they ask for, probes of quiet peers, what peers
//! take, listeners, counts of connections, descriptors that these leave, and standard streams that are
//! closed.
#![tactic(auto)]

mod counts;
mod host;
mod listener;
mod probing;
mod sparing;
mod standard;
mod taking;

pub use counts::{Counted, Counts, Role};
pub use host::{Host, milliseconds};
pub use listener::{Closed, Listener};
pub use probing::probe_peers;
pub use sparing::took_one_of_the_last;
pub use standard::hold_closed_streams;
pub use taking::{end_untaken, has_taken_all};
