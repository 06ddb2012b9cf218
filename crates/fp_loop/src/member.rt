//! What a loop has a connection as.

ghost use Rattle.std.specs.Prelude.{◌≡◌, IsFalse};
ghost use Rattle.fp_loop.specs.Members.{CanDoNothing, StaysSo};
ghost use Rattle.fp_loop.specs.Talks.{Serves};
ghost use Rattle.fp_loop.specs.declared.turn.Turn.TheVariants.{Waits};

use crate::counting::Counting;
use crate::peer::Peer;
use crate::socket::Socket;
use crate::subscriber::Subscriber;
use crate::talk::Beginning;
use crate::times::Limits;
use crate::turn::Turn;
use fp_connections::Role;
use fp_news::{Newest, News};
use http_server::Service;
use std::alloc::{AllocError, Global};

/// A connection for what it is for.
#[derive(Drop)]
pub(crate) enum Kind<N: News + Drop> {
    Requests(Box<Peer, Global>),
    Frames(Box<Subscriber<N>, Global>),
}

/// A connection of a loop.
#[derive(Drop)]
pub(crate) struct Member<N: News + Drop> {
    pub(crate) kind: Kind<N>,
    // Whether it stands in the list of those whose turn comes.
    pub(crate) is_queued: bool,
}

impl<N: News + Drop> Member<N> {
    /// One for what this role says, with nothing to do yet.
    pub(crate) fn new(
        beginning: &Beginning,
        role: Role,
        socket: Socket,
        now: u64,
    ) -> Result<Member<N>, AllocError> {
        let alloc = beginning.alloc;
        let kind = match role {
            Role::Requests => {
                Kind::Requests(Box::new(alloc, Peer::new(beginning, socket, now))?)
            }
            Role::Frames => Kind::Frames(Box::new(alloc, Subscriber::new(socket, now))?),
        };
        Ok(Member {
            kind,
            is_queued: false,
        })
    }

    pub(crate) fn role(&self) -> Role {
        match self.kind {
            Kind::Requests(_) => Role::Requests,
            Kind::Frames(_) => Role::Frames,
        }
    }

    pub(crate) fn socket(&mut self) -> &mut Socket {
        match &mut self.kind {
            Kind::Requests(peer) => &mut peer.socket,
            Kind::Frames(subscriber) => &mut subscriber.socket,
        }
    }

    /// Takes its turn. Where its loop ends, what is being sent goes on, and nothing begins.
    pub(crate) fn turn<S: Service + Drop>(
        &mut self,
        service: &mut Counting<S>,
        shown: &Newest<N>,
        ends: bool,
        now: u64,
    ) -> Turn
        ensures serves { Serves S.answers service.old.service service.new.service }
        ensures waits { IsFalse ends → result ≡ Waits → CanDoNothing self.new.kind shown.now }
    {
        if ends {
            return self.finish(now);
        }
        match &mut self.kind {
            Kind::Requests(peer) => peer.turn(service, now),
            Kind::Frames(subscriber) => subscriber.turn(shown, now),
        }
    }

    // Takes its turn where its loop ends.
    fn finish(&mut self, now: u64) -> Turn {
        match &mut self.kind {
            Kind::Requests(peer) => peer.finish(now),
            Kind::Frames(subscriber) => subscriber.finish(now),
        }
    }

    /// The status with which a request was refused, if one was since the last time.
    pub(crate) fn take_refusal(&mut self) -> Option<u16>
        ensures { StaysSo self.old.kind self.new.kind }
    {
        match &mut self.kind {
            Kind::Requests(peer) => peer.take_refusal(),
            Kind::Frames(_) => None,
        }
    }

    /// Lets go of memory that it doesn't need. Answers whether it may go on, which it may not where
    /// it has kept the loop waiting for too long.
    pub(crate) fn look_after<S: Service + Drop>(
        &mut self,
        beginning: &Beginning,
        service: &mut Counting<S>,
        limits: &Limits,
        now: u64,
    ) -> bool
        ensures { Serves S.answers service.old.service service.new.service }
    {
        match &mut self.kind {
            Kind::Requests(peer) => peer.look_after(beginning, service, limits, now),
            Kind::Frames(subscriber) => !subscriber.is_over_time(limits, now),
        }
    }
}
