//! One connection for requests, as steps that don't wait.

ghost use Rattle.std.specs.Prelude.{◌≡◌, ◌≢◌, ◌↔◌, Some, IfSome, IsTrue};
ghost use Rattle.fp_loop.specs.Times.{IsOver, limit_of};
ghost use Rattle.http_server.specs.History.{IsServed};
ghost use Rattle.fp_loop.specs.declared.times.Waiting.TheVariants.{Leaving};
ghost use Rattle.fp_loop.specs.declared.turn.Turn.TheVariants.{Waits};
ghost use Rattle.fp_loop.specs.Peers.{CanDoNothing, config_of, history_of, Quiets};
ghost use Rattle.fp_loop.specs.Talks.{Serves, Talks};

use crate::counting::Counting;
use crate::refusal::status_of;
use crate::socket::{Socket, has_ended};
use crate::talk::{Beginning, hear, is_at_rest, say};
use crate::times::{Limits, Waiting, is_over_time};
use crate::turn::{ROUNDS, Turn};
use http_server::{Connection, Reason, Service, State};
use std::mem;
use std::net::Shutdown;

// How many requests one turn may answer: an answer may take long.
const CALLS: u64 = 2;

// What a connection may hold of past requests and replies while it is quiet, in bytes.
const KEPT: usize = 2048;

// After how many milliseconds without a request it is quiet.
const QUIET: u64 = 1000;

/// A connection for requests.
#[derive(Drop)]
pub(crate) struct Peer {
    connection: Connection,
    pub(crate) socket: Socket,
    waiting: Waiting,
    // When it began to wait for that.
    since: u64,
    // When some of a request came that isn't whole yet.
    begun: Option<u64>,
    // How many bytes of it came, but for those that came with the end of another.
    came: usize,
    // The most bytes that came for a request or waited at once.
    most: usize,
    // The status of a refusal, until it is counted.
    refused: Option<u16>,
}

impl Peer {
    pub(crate) fn new(beginning: &Beginning, socket: Socket, now: u64) -> Peer {
        Peer {
            connection: beginning.connection(),
            socket,
            waiting: Waiting::Request,
            since: now,
            begun: None,
            came: 0,
            most: 0,
            refused: None,
        }
    }

    /// Reads, answers and writes, until it would wait or its turn is over.
    pub(crate) fn turn<S: Service + Drop>(&mut self, service: &mut Counting<S>, now: u64) -> Turn
        ensures talks { Talks S.answers (config_of self.old)
            service.old.service service.new.service (history_of self.old) (history_of self.new) }
        ensures served { ∥ IsServed (config_of self.new) (history_of self.new) ∥₁ }
        ensures waits { result ≡ Waits → self.new.waiting ≢ Leaving → CanDoNothing self.new }
        ensures config { config_of self.new ≡ config_of self.old }
    {
        let calls = service.calls;
        for _ in 0..ROUNDS {
            if let Some(turn) = self.step(service, now, calls) {
                return turn;
            }
        }
        Turn::Goes
    }

    // Reads or writes once. Gives what the turn came to, where that ends it, which began behind so
    // many calls of the service.
    fn step<S: Service + Drop>(
        &mut self,
        service: &mut Counting<S>,
        now: u64,
        calls: u64,
    ) -> Option<Turn>
        ensures talks { Talks S.answers (config_of self.old)
            service.old.service service.new.service (history_of self.old) (history_of self.new) }
        ensures waits { result ≡ Some Waits → self.new.waiting ≢ Leaving → CanDoNothing self.new }
        ensures config { config_of self.new ≡ config_of self.old }
    {
        if self.waiting == Waiting::Leaving {
            return Some(self.socket.see_off());
        }
        let turn = if self.connection.wants_write() && self.socket.may_write {
            self.send(service, now)
        } else if self.connection.wants_read() && self.socket.may_read {
            self.receive(service, now)
        } else {
            return Some(Turn::Waits);
        };
        if turn == Turn::Over || (self.connection.is_done() && !self.leave(now)) {
            return Some(Turn::Over);
        }
        if service.calls.wrapping_sub(calls) >= CALLS {
            return Some(Turn::Goes);
        }
        None
    }

    // Writes once.
    fn send<S: Service + Drop>(&mut self, service: &mut Counting<S>, now: u64) -> Turn
        ensures talks { Talks S.answers (config_of self.old)
            service.old.service service.new.service (history_of self.old) (history_of self.new) }
        ensures config { config_of self.new ≡ config_of self.old }
    {
        self.most = self.most.max(self.connection.output().len());
        let calls = service.calls;
        let turn = say(&mut self.connection, service, &mut self.socket);
        if turn == Turn::Goes {
            self.finish_if(service.calls != calls, now);
            self.wait(Waiting::Request, now);
        }
        turn
    }

    // Reads once, and answers what came.
    fn receive<S: Service + Drop>(&mut self, service: &mut Counting<S>, now: u64) -> Turn
        ensures talks { Talks S.answers (config_of self.old)
            service.old.service service.new.service (history_of self.old) (history_of self.new) }
        ensures config { config_of self.new ≡ config_of self.old }
    {
        // By parts where memory may be let go of soon: behind what was long, and at the beginning.
        self.socket.part(self.most == 0 || self.most > KEPT);
        let calls = service.calls;
        let count = match hear(&mut self.connection, service, &mut self.socket) {
            Ok(count) => count,
            Err(turn) => return turn,
        };
        self.begin(count, now);
        self.finish_if(service.calls != calls, now);
        self.wait(self.waiting, now);
        Turn::Goes
    }

    // So many bytes of a request came.
    fn begin(&mut self, count: usize, now: u64)
        ensures connection { self.new.connection ≡ self.old.connection }
        ensures begun { IfSome self.old.begun (λ b. self.new.begun ≡ Some b) }
    {
        self.came = self.came.saturating_add(count);
        self.most = self.most.max(self.came);
        if self.begun.is_none() {
            self.begun = Some(now);
        }
    }

    // Where a request was answered, the next one has begun if something is known to be behind it.
    fn finish_if(&mut self, is_answered: bool, now: u64)
        ensures { self.new.connection ≡ self.old.connection }
    {
        if !is_answered {
            return;
        }
        self.came = 0;
        self.begun = if self.socket.is_given() {
            None
        } else {
            Some(now)
        };
    }

    // What it waits for now: that its peer takes what waits to be sent, since it last took some;
    // the rest of a request, since its beginning; or a request. It waited for this before.
    fn wait(&mut self, before: Waiting, now: u64)
        ensures { self.new.connection ≡ self.old.connection }
    {
        let (waiting, since) = if self.connection.wants_write() {
            match before {
                Waiting::Taker => (Waiting::Taker, self.since),
                _ => (Waiting::Taker, now),
            }
        } else {
            match self.begun {
                Some(begun) => (Waiting::Rest, begun),
                None => (Waiting::Request, now),
            }
        };
        self.waiting = waiting;
        self.since = since;
    }

    // Ends its own side, where the peer may still be talking: else the last reply could be lost to
    // it. Answers whether the peer is to be waited for.
    fn leave(&mut self, now: u64) -> bool
        ensures { self.new.connection ≡ self.old.connection }
    {
        match self.connection.state() {
            State::Closing(reason @ (Reason::Asked | Reason::Refused(_))) => {
                if let Reason::Refused(refusal) = reason {
                    self.refused = Some(status_of(refusal));
                }
                self.hang_up(now)
            }
            _ => false,
        }
    }

    // Ends its own side. Answers whether the peer is to be waited for.
    fn hang_up(&mut self, now: u64) -> bool
        ensures { self.new.connection ≡ self.old.connection }
    {
        self.waiting = Waiting::Leaving;
        self.since = now;
        self.socket.stream.shutdown(Shutdown::Write).is_ok()
    }

    /// Writes what waits to be sent and answers nothing more, until it would wait or its turn is
    /// over. Who was sent the last of it is waited for.
    pub(crate) fn finish(&mut self, now: u64) -> Turn {
        if self.waiting == Waiting::Leaving {
            return self.socket.see_off();
        }
        for _ in 0..ROUNDS {
            if !self.connection.wants_write() {
                let stays = self.waiting == Waiting::Taker && self.hang_up(now);
                return if stays { Turn::Goes } else { Turn::Over };
            }
            if !self.socket.may_write {
                return Turn::Waits;
            }
            if has_ended(self.connection.write_to(&mut self.socket)) {
                return Turn::Over;
            }
        }
        Turn::Goes
    }

    /// The status with which a request was refused, if one was since the last time.
    pub(crate) fn take_refusal(&mut self) -> Option<u16>
        ensures { self.new ≡ record self.old { refused = None } }
    {
        self.refused.take()
    }

    // Whether it has kept the loop waiting for too long.
    fn is_over_time(&self, limits: &Limits, now: u64) -> bool
        ensures { IsTrue result ↔ IsOver (limit_of limits.now self.now.waiting) self.now.since now }
    {
        is_over_time(limits, self.waiting, self.since, now)
    }

    /// Lets go of memory that a long request or reply took, where it has been quiet for a while.
    /// Answers whether it may go on, which it may not where it has kept the loop waiting for too long.
    pub(crate) fn look_after<S: Service + Drop>(
        &mut self,
        beginning: &Beginning,
        service: &mut Counting<S>,
        limits: &Limits,
        now: u64,
    ) -> bool
        ensures serves { Serves S.answers service.old.service service.new.service }
        ensures quiets { IsTrue result → Quiets S.answers service.old.service service.new.service
            self.old self.new }
    {
        if self.is_over_time(limits, now) {
            return false;
        }
        // A request may have begun where what came wasn't read by parts: it has its time.
        let quiet = if self.socket.parts {
            QUIET
        } else {
            limits.request
        };
        let is_quiet = self.waiting == Waiting::Request && now.saturating_sub(self.since) >= quiet;
        if !is_quiet || self.most <= KEPT {
            return true;
        }
        if !is_at_rest(&mut self.connection, service) {
            return false;
        }
        self.most = 0;
        drop(mem::replace(&mut self.connection, beginning.connection()));
        true
    }
}
