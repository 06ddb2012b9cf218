//! Threads of loops, and of who lets connections in.

use crate::door::Door;
use crate::informed::Informed;
use crate::turning::Loop;
use fp_connections::{Closed, Host, Listener};
use fp_news::News;
use std::alloc::Global;
use std::sync::{Arc, Wait};
use std::thread::{JoinHandle, Threads};
use std::time::Clock;
use std::{io, thread};

impl<S, N> Loop<S, N>
where
    S: Informed<N> + Drop + Send + 'static,
    N: News + Drop + Send + Sync + 'static,
{
    /// Serves its connections in a thread of its own, until it is stopped.
    pub fn start<R>(self, rt: &R) -> io::Result<JoinHandle<()>>
    where
        R: Wait + Threads + Clock + Copy + Send + Drop + 'static,
    {
        let own = *rt;
        let started = thread::spawn(rt, move || {
            let mut one = self;
            one.run(&own);
        });
        Ok(started?)
    }
}

impl<N: News + Drop + Send + Sync + 'static> Door<N> {
    /// Lets connections in by a thread of its own, until the listener is closed.
    pub fn start<R: Host>(
        self,
        rt: &R,
        listener: &Arc<Listener, Global>,
    ) -> io::Result<JoinHandle<Closed>> {
        let own = *rt;
        let listener = Arc::try_clone(listener)?;
        let started = thread::spawn(rt, move || self.accept(&own, &listener));
        Ok(started?)
    }
}
