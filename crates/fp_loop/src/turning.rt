//! The loop of one thread over its connections.

ghost use Rattle.std.specs.Prelude.{◌≡◌, ◌≢◌, [], IsSomeAnd};
ghost use Rattle.std.specs.Prelude.{IfSome, IsFalse, None};
ghost use Rattle.std.specs.Duration.{as_nanos};
ghost use Rattle.slab.specs.Slab.{get};
ghost use Rattle.fp_loop.specs.Members.{CanDoNothing};
ghost use Rattle.fp_loop.specs.declared.turn.Turn.TheVariants.{Waits};

mod handed_in;

use crate::counting::Counting;
use crate::inbox::Inbox;
use crate::informed::Informed;
use crate::member::Member;
use crate::queue::{WAKE, keep_if, mark, remove};
use crate::talk::Beginning;
use crate::times::Limits;
use crate::turn::Turn;
use fp_connections::{Counts, milliseconds};
use fp_news::{Newest, News};
use mio::{Events, Poll, Token, Waker};
use slab::Slab;
use std::alloc::{AllocError, Global};
use std::hash::RandomState;
use std::net::Net;
use std::random::RandomSource;
use std::sync::{Arc, Wait};
use std::time::{Clock, Duration};
use std::{io, thread};

// How many events one wait gives.
const EVENTS: usize = 1024;

// Between two looks at the limits of time, in milliseconds.
const SWEEP: u64 = 1000;

// For how long what is being sent may be taken once the loop was stopped, and how long it waits at
// once then, in milliseconds.
const LAST: u64 = 2000;

const LAST_WAIT: u64 = 100;

// What a loop waits by, is handed things by, and begins connections with.
#[derive(Drop)]
struct Parts<N: News + Drop> {
    poll: Poll,
    events: Events,
    inbox: Arc<Inbox<N>, Global>,
    beginning: Beginning,
}

impl<N: News + Drop> Parts<N> {
    fn new<R: Net + RandomSource>(rt: &R, alloc: Global) -> io::Result<Parts<N>> {
        let poll = Poll::new(rt)?;
        let waker = Waker::new(poll.registry(), Token(WAKE))?;
        let beginning = Beginning::new(alloc, RandomState::new(rt)?);
        Ok(Parts {
            poll,
            events: Events::with_capacity(alloc, EVENTS)?,
            inbox: Arc::new(alloc, Inbox::new(alloc, waker))?,
            beginning,
        })
    }
}

/// A loop over connections, which one thread runs.
#[derive(Drop)]
pub struct Loop<S: Drop, N: News + Drop> {
    poll: Poll,
    events: Events,
    inbox: Arc<Inbox<N>, Global>,
    members: Slab<Member<N>>,
    // The keys of those whose turn comes.
    queue: Vec<usize>,
    service: Counting<S>,
    shown: Newest<N>,
    beginning: Beginning,
    limits: Limits,
    counts: Arc<Counts, Global>,
    // When the limits of time were last looked at.
    swept: u64,
    // When it returns at the latest, once it was stopped.
    returns: Option<u64>,
}

impl<S, N> Loop<S, N>
where
    S: Informed<N> + Drop,
    N: News + Drop,
{
    ghost use Rattle.fp_loop.specs.Courses.{KeepsOn, RunsOn};

    /// A loop with no connection and no news yet. Its service answers requests.
    pub fn new<R: Net + RandomSource>(
        rt: &R,
        alloc: Global,
        service: S,
        limits: Limits,
        counts: Arc<Counts, Global>,
    ) -> io::Result<Loop<S, N>> {
        let Parts {
            poll,
            events,
            inbox,
            beginning,
        } = Parts::new(rt, alloc)?;
        Ok(Loop {
            poll,
            events,
            inbox,
            members: Slab::new(alloc),
            queue: Vec::new(alloc),
            service: Counting { service, calls: 0 },
            shown: Newest::new(),
            beginning,
            limits,
            counts,
            swept: 0,
            returns: None,
        })
    }

    /// Where the loop is handed connections and news, and told to stop. Take it before the loop is
    /// started.
    pub fn inbox(&self) -> Result<Arc<Inbox<N>, Global>, AllocError> {
        Arc::try_clone(&self.inbox)
    }

    /// Serves its connections in this thread, until it is stopped.
    pub fn run<R: Wait + Clock>(&mut self, rt: &R)
        // The service went on by calls, and by just the news that the loop showed, each newer than
        // those before. So what a loop shows never falls.
        ensures { RunsOn S.answers S.informs self.old self.new }
    {
        for _ in rt.forever() {
            if !self.turn(rt) {
                return;
            }
        }
    }

    // Waits for what is ready, and does what can be done. Answers whether it goes on.
    fn turn<R: Wait + Clock>(&mut self, rt: &R) -> bool
        ensures { RunsOn S.answers S.informs self.old self.new }
    {
        self.wait(rt);
        let now = milliseconds(rt);
        // Where the waker was used, the inbox has something.
        let is_woken = mark(&self.events, &mut self.members, &mut self.queue);
        self.take_turns(now);
        let is_due = now.saturating_sub(self.swept) >= SWEEP;
        self.look_in(rt, is_woken || is_due, now);
        self.sweep(is_due, now);
        !self.end_if_over(now)
    }

    // Waits for what is ready.
    fn wait<R: Clock>(&mut self, rt: &R)
        ensures { KeepsOn self.old self.new }
    {
        let patience = self.patience();
        if self.poll.poll(&mut self.events, patience).is_err() {
            thread::sleep(rt, Duration::from_millis(10));
        }
    }

    // Ends all connections where it was stopped, and nothing is being sent any more or the time for
    // that is over. Answers whether it did.
    fn end_if_over(&mut self, now: u64) -> bool
        ensures { KeepsOn self.old self.new }
    {
        let Some(returns) = self.returns else {
            return false;
        };
        if now < returns && !self.members.is_empty() {
            return false;
        }
        for key in 0..self.members.capacity() {
            remove(&mut self.members, &self.counts, key);
        }
        true
    }

    // For how long to wait where nothing is ready.
    fn patience(&self) -> Option<Duration>
        ensures { self.now.queue.items ≢ [] → IsSomeAnd result (λ d. as_nanos d ≡ 0) }
    {
        if !self.queue.is_empty() {
            Some(Duration::from_millis(0))
        } else if self.members.is_empty() {
            None
        } else if self.returns.is_some() {
            Some(Duration::from_millis(LAST_WAIT))
        } else {
            Some(Duration::from_millis(SWEEP))
        }
    }

    // Gives each connection in the queue its turn. Those that could go on stay there.
    fn take_turns(&mut self, now: u64)
        ensures { RunsOn S.answers S.informs self.old self.new }
    {
        let mut kept = 0usize;
        for at in 0..self.queue.len() {
            let Some(key) = self.queue.get(at).copied() else {
                return;
            };
            let goes = self.take_turn(key, now);
            kept = keep_if(&mut self.queue, goes, kept, key);
        }
        self.queue.truncate(kept);
    }

    // Gives one its turn. Answers whether it could go on.
    fn take_turn(&mut self, key: usize, now: u64) -> bool
        ensures on { RunsOn S.answers S.informs self.old self.new }
        // Where it couldn't, its connection is gone or can do nothing.
        ensures waits { self.old.returns ≡ None → IsFalse result → IfSome
            (get self.new.members key) (λ m. CanDoNothing m.kind self.new.shown) }
    {
        let turn = self.give_turn(key, now);
        if turn != Turn::Over {
            return turn == Turn::Goes;
        }
        remove(&mut self.members, &self.counts, key);
        false
    }

    fn give_turn(&mut self, key: usize, now: u64) -> Turn
        ensures on { RunsOn S.answers S.informs self.old self.new }
        ensures waits { self.old.returns ≡ None → result ≡ Waits → IfSome
            (get self.new.members key) (λ m. CanDoNothing m.kind self.new.shown) }
    {
        let Some(member) = self.members.get_mut(key) else {
            return Turn::Waits;
        };
        let ends = self.returns.is_some();
        let turn = member.turn(&mut self.service, &self.shown, ends, now);
        member.is_queued = turn == Turn::Goes;
        let refusal = member.take_refusal();
        self.service.tell_refusal(refusal);
        turn
    }

    // Where it is time to look at the limits of time, ends those that kept the loop waiting for too
    // long, and has those that are quiet let go of memory.
    fn sweep(&mut self, is_time: bool, now: u64)
        ensures { RunsOn S.answers S.informs self.old self.new }
    {
        if !is_time {
            return;
        }
        self.swept = now;
        for key in 0..self.members.capacity() {
            self.tend(key, now);
        }
    }

    fn tend(&mut self, key: usize, now: u64)
        ensures { RunsOn S.answers S.informs self.old self.new }
    {
        if self.look_after(key, now) {
            return;
        }
        remove(&mut self.members, &self.counts, key);
    }

    // Answers whether this one may go on.
    fn look_after(&mut self, key: usize, now: u64) -> bool
        ensures { RunsOn S.answers S.informs self.old self.new }
    {
        let Some(member) = self.members.get_mut(key) else {
            return true;
        };
        member.look_after(&self.beginning, &mut self.service, &self.limits, now)
    }
}
