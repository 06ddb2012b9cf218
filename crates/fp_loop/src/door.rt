//! Where connections that were let in go.

use crate::inbox::Loops;
use fp_connections::{Closed, Counts, Host, Listener, Role, took_one_of_the_last};
use fp_news::News;
use std::alloc::Global;
use std::net::TcpStream;
use std::sync::{Arc, Wait};

/// Where the connections of a listener go.
#[derive(Drop)]
pub struct Door<N: News + Drop> {
    /// What they are for.
    pub role: Role,
    /// How many of that role there may be at once.
    pub most: u64,
    /// The loops, each of which has its turn.
    pub loops: Arc<Loops<N>, Global>,
    /// What is counted of them.
    pub counts: Arc<Counts, Global>,
}

impl<N: News + Drop> Door<N> {
    /// Lets connections in by this thread, until the listener is closed: each goes to a loop. Where
    /// there are as many as there may be, or it took one of the last descriptors that the program may
    /// have, a connection is closed without a byte.
    pub fn accept<R: Host>(&self, rt: &R, listener: &Listener) -> Closed {
        let mut turn = 0u64;
        listener.accept_each(rt, |stream, _peer| {
            self.let_in(rt, stream, turn);
            turn = turn.wrapping_add(1);
        })
    }

    // Hands a connection on, or closes it.
    fn let_in<R: Wait>(&self, rt: &R, stream: TcpStream, turn: u64) {
        if self.counts.open(self.role) >= self.most || took_one_of_the_last(&stream) {
            self.counts.was_refused();
            return;
        }
        // A reply is small, and waits for nothing behind it.
        let _ = stream.set_nodelay(true);
        if stream.set_nonblocking(true).is_err() {
            return;
        }
        self.counts.came(self.role);
        if self
            .loops
            .post_connection(rt, turn, stream, self.role)
            .is_err()
        {
            self.counts.left(self.role);
        }
    }
}
