//! One subscriber, as steps that don't wait.

ghost use Rattle.std.specs.Prelude.{◌≡◌, [], IsFalse, IsTrue, Some};
ghost use Rattle.fp_news.specs.Outgoing.{GoesOnTelling, rest_of};
ghost use Rattle.fp_loop.specs.Subscribers.{CanDoNothing, HasAll, TellsOn};
ghost use Rattle.fp_loop.specs.declared.turn.Turn.TheVariants.{Goes, Waits};

use crate::heard::{Heard, hello_of};
use crate::socket::{Socket, is_passing, turn_after};
use crate::times::{Limits, Waiting, is_over_time};
use crate::turn::{ROUNDS, Turn};
use fp_news::{Newest, News, Outgoing};
use std::io::Read;
use std::sync::Arc;

/// A connection for frames.
#[derive(Drop)]
pub(crate) struct Subscriber<N: News + Drop> {
    pub(crate) socket: Socket,
    heard: Heard,
    // Once its hello was heard.
    outgoing: Option<Outgoing<N>>,
    waiting: Waiting,
    since: u64,
}

impl<N: News + Drop> Subscriber<N> {
    pub(crate) fn new(socket: Socket, now: u64) -> Subscriber<N> {
        Subscriber {
            socket,
            heard: Heard::new(),
            outgoing: None,
            waiting: Waiting::Rest,
            since: now,
        }
    }

    /// Listens, and sends the newest, until it would wait or its turn is over. Where these news can
    /// have no further owner it ends, so that it asks for them anew.
    pub(crate) fn turn(&mut self, shown: &Newest<N>, now: u64) -> Turn
        ensures tells { TellsOn self.old.outgoing self.new.outgoing }
        ensures waits { result ≡ Waits → CanDoNothing self.new shown.now }
    {
        let heard = self.listen(now);
        // Who says nothing more is sent what its socket takes at once.
        let told = self.tell(shown, now);
        if heard == Turn::Over || told == Turn::Waits {
            return heard;
        }
        told
    }

    /// Sends what is left of the frame that is being sent, until it would wait or its turn is over.
    pub(crate) fn finish(&mut self, now: u64) -> Turn
        ensures { TellsOn self.old.outgoing self.new.outgoing }
    {
        match self.tell(&Newest::new(), now) {
            Turn::Waits if self.waiting != Waiting::Taker => Turn::Over,
            turn => turn,
        }
    }

    // Reads its hello. What it says behind that is dropped, and where it ends, so does this.
    fn listen(&mut self, now: u64) -> Turn
        ensures tells { TellsOn self.old.outgoing self.new.outgoing }
        ensures waits { result ≡ Waits → IsFalse self.new.socket.may_read }
    {
        for _ in 0..ROUNDS {
            if !self.socket.may_read {
                return Turn::Waits;
            }
            if self.hear(now) == Turn::Over {
                return Turn::Over;
            }
        }
        Turn::Goes
    }

    // Reads once.
    fn hear(&mut self, now: u64) -> Turn
        ensures { TellsOn self.old.outgoing self.new.outgoing }
    {
        let mut bytes = [0; 64];
        let most = if self.outgoing.is_some() { 64 } else { 1 };
        match self.socket.read(&mut bytes[..most]) {
            Ok(0) => Turn::Over,
            Ok(_) => self.take(bytes[0], now),
            Err(fault) if is_passing(fault.kind()) => Turn::Goes,
            Err(_) => Turn::Over,
        }
    }

    // A byte came, which is one of its hello where that isn't whole.
    fn take(&mut self, byte: u8, now: u64) -> Turn
        ensures { TellsOn self.old.outgoing self.new.outgoing }
    {
        if self.outgoing.is_some() {
            return Turn::Goes;
        }
        let Some(bytes) = self.heard.put(byte) else {
            return Turn::Goes;
        };
        let Some(hello) = hello_of(&bytes) else {
            return Turn::Over;
        };
        self.outgoing = Some(Outgoing::new(hello));
        self.wait_for(Waiting::News, now);
        Turn::Goes
    }

    // Sends the newest, for as long as its socket takes it.
    fn tell(&mut self, shown: &Newest<N>, now: u64) -> Turn
        ensures tells { TellsOn self.old.outgoing self.new.outgoing }
        ensures waits { result ≡ Waits → IsTrue self.new.socket.may_write
            → HasAll self.new.outgoing shown.now }
        ensures reads { self.new.socket.may_read ≡ self.old.socket.may_read }
    {
        for _ in 0..ROUNDS {
            if !self.socket.may_write {
                return Turn::Waits;
            }
            let begun = self.begin(shown, now);
            if begun != Turn::Goes {
                return begun;
            }
            if self.send(now) == Turn::Over {
                return Turn::Over;
            }
        }
        Turn::Goes
    }

    // Begins a frame where none is being sent and there is one to send. It waits where there is none.
    fn begin(&mut self, shown: &Newest<N>, now: u64) -> Turn
        ensures tells { TellsOn self.old.outgoing self.new.outgoing }
        ensures waits { result ≡ Waits → HasAll self.new.outgoing shown.now }
        ensures socket { self.new.socket ≡ self.old.socket }
    {
        let Some(outgoing) = &mut self.outgoing else {
            return Turn::Waits;
        };
        if outgoing.is_sending() {
            return Turn::Goes;
        }
        let turn = offered(outgoing, shown);
        if turn == Turn::Goes {
            self.wait_for(Waiting::Taker, now);
        }
        turn
    }

    // Sends once of the frame that is being sent.
    fn send(&mut self, now: u64) -> Turn
        ensures tells { TellsOn self.old.outgoing self.new.outgoing }
        ensures since { result ≡ Goes → self.new.since ≡ now }
        ensures reads { self.new.socket.may_read ≡ self.old.socket.may_read }
    {
        let Some(outgoing) = &mut self.outgoing else {
            return Turn::Waits;
        };
        let turn = sent_once(outgoing, &mut self.socket);
        if turn == Turn::Goes {
            let waiting = if outgoing.is_sending() {
                Waiting::Taker
            } else {
                Waiting::News
            };
            self.wait_for(waiting, now);
        }
        turn
    }

    fn wait_for(&mut self, waiting: Waiting, now: u64)
        ensures outgoing { self.new.outgoing ≡ self.old.outgoing }
        ensures socket { self.new.socket ≡ self.old.socket }
        ensures since { self.new.since ≡ now }
    {
        self.waiting = waiting;
        self.since = now;
    }

    /// Whether it has kept the loop waiting for too long.
    pub(crate) fn is_over_time(&self, limits: &Limits, now: u64) -> bool {
        is_over_time(limits, self.waiting, self.since, now)
    }
}

// Begins the frame of what is shown, where no frame is being sent. It waits where that isn't news to
// this subscriber, and is over where it can have no further owner.
fn offered<N: News + Drop>(outgoing: &mut Outgoing<N>, shown: &Newest<N>) -> Turn
    requires { rest_of outgoing.old ≡ [] }
    ensures tells { GoesOnTelling outgoing.old outgoing.new }
    ensures waits { result ≡ Waits → HasAll (Some outgoing.new) shown.now }
{
    let Some(news) = &shown.news else {
        return Turn::Waits;
    };
    if !outgoing.takes(news.revision()) {
        return Turn::Waits;
    }
    let Ok(news) = Arc::try_clone(news) else {
        return Turn::Over;
    };
    outgoing.offer(news);
    Turn::Goes
}

// Sends once of the frame that is being sent.
fn sent_once<N: News + Drop>(outgoing: &mut Outgoing<N>, socket: &mut Socket) -> Turn
    ensures tells { GoesOnTelling outgoing.old outgoing.new }
    ensures reads { socket.new.may_read ≡ socket.old.may_read }
{
    let (head, document) = outgoing.rest();
    match socket.write_both(head, document) {
        Ok(0) => Turn::Over,
        Ok(count) => {
            outgoing.sent(count);
            Turn::Goes
        }
        Err(fault) => turn_after(fault),
    }
}
