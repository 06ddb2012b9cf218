//! What a loop is handed: news, connections, and the word to stop.

ghost use Rattle.std.specs.Prelude.{IsFalse};
ghost use Rattle.std.specs.Arc.{arc_value};
ghost use Rattle.fp_stream.specs.declared.hello.Hello.TheVariants.{Has};
ghost use Rattle.fp_news.specs.Newest.{had, Rises};

use super::{LAST, Loop};
use crate::inbox::{Handed, Taken};
use crate::informed::Informed;
use crate::member::Member;
use crate::queue::enqueue_all;
use crate::socket::Socket;
use fp_connections::Role;
use fp_news::News;
use mio::{Interest, Registry, Token};
use std::io;
use std::net::TcpStream;
use std::sync::Wait;

impl<S, N> Loop<S, N>
where
    S: Informed<N> + Drop,
    N: News + Drop,
{
    ghost use Rattle.fp_loop.specs.Courses.{KeepsOn, RunsOn, shown_by};

    // Does what was handed in asks for, where it is time to look.
    pub(super) fn look_in<R: Wait>(&mut self, rt: &R, is_time: bool, now: u64)
        ensures { RunsOn S.answers S.informs self.old self.new }
    {
        if !is_time {
            return;
        }
        let taken = self.inbox.take(rt);
        self.take_in(taken, now);
    }

    // Shows the news and begins the connections that were taken, or only stops where that is said.
    fn take_in(&mut self, taken: Taken<N>, now: u64)
        ensures on { RunsOn S.answers S.informs self.old self.new }
        // What it shows then is no older than these news.
        ensures shows { IsFalse taken.is_stopped
            → Rises (had (λ n. N.shows (arc_value n.shown)) taken.news) (shown_by self.new) }
    {
        let Taken {
            streams,
            news,
            is_stopped,
        } = taken;
        if is_stopped {
            self.stop(now);
            return;
        }
        if let Some(news) = news {
            self.show(news);
        }
        self.begin_all(streams, now);
    }

    // From now on answers nothing, and lets what is being sent be taken.
    fn stop(&mut self, now: u64)
        ensures { KeepsOn self.old self.new }
    {
        if self.returns.is_some() {
            return;
        }
        self.returns = Some(now.saturating_add(LAST));
        enqueue_all(&mut self.queue, &mut self.members, None);
    }

    // Begins the connections that were handed in.
    fn begin_all(&mut self, streams: Vec<(TcpStream, Role)>, now: u64)
        ensures { KeepsOn self.old self.new }
    {
        for (stream, role) in streams {
            if self.admit(stream, role, now).is_err() {
                self.counts.left(role);
            }
        }
    }

    // From now on shows these news, if they are newer.
    fn show(&mut self, news: Handed<N>)
        ensures on { RunsOn S.answers S.informs self.old self.new }
        ensures shows { Rises (Has (N.shows (arc_value news.shown)).revision) (shown_by self.new) }
    {
        let Handed { shown, told } = news;
        if !self.shown.take(shown) {
            return;
        }
        self.service.service.inform(told);
        enqueue_all(&mut self.queue, &mut self.members, Some(Role::Frames));
    }

    fn admit(&mut self, stream: TcpStream, role: Role, now: u64) -> io::Result<()>
        ensures { KeepsOn self.old self.new }
    {
        // So there is room for a turn of each, and none is lost for want of memory.
        let room = self.members.len().saturating_add(1);
        self.queue.reserve(room)?;
        let key = self.members.vacant_key();
        let socket = registered(self.poll.registry(), stream, key)?;
        let member = Member::new(&self.beginning, role, socket, now)?;
        self.members.insert(member)?;
        Ok(())
    }
}

// The socket of a connection, of which the loop is told by this key what it is ready for.
fn registered(registry: &Registry, stream: TcpStream, key: usize) -> io::Result<Socket> {
    let mut stream = mio::net::TcpStream::from_std(stream);
    let all = Interest::READABLE | Interest::WRITABLE | Interest::PRIORITY;
    registry.register(&mut stream, Token(key), all)?;
    Ok(Socket::new(stream))
}
