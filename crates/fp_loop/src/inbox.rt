//! What loops are handed from other threads: connections, news, and that they stop.

ghost use Rattle.std.specs.Prelude.{◌≡◌, IfOk};
ghost use Rattle.std.specs.Arc.{arc_value};
ghost use Rattle.fp_stream.specs.declared.hello.Hello.TheVariants.{Has};
ghost use Rattle.fp_news.specs.Newest.{had, Rises};

use fp_connections::Role;
use fp_news::News;
use mio::Waker;
use std::alloc::{AllocError, Global};
use std::mem;
use std::net::TcpStream;
use std::sync::{Arc, Mutex, Wait};

/// News as a loop is handed them: once to show, and once to inform its service of.
#[derive(Drop)]
pub(crate) struct Handed<N: News + Drop> {
    pub(crate) shown: Arc<N, Global>,
    pub(crate) told: Arc<N, Global>,
    ghost same: { arc_value told ≡ arc_value shown },
}

// What was handed in and not taken yet.
#[derive(Drop)]
struct Post<N: News + Drop> {
    streams: Vec<(TcpStream, Role)>,
    newest: Option<Handed<N>>,
    is_stopped: bool,
}

/// Where one loop is handed what concerns it.
#[derive(Drop)]
pub struct Inbox<N: News + Drop> {
    alloc: Global,
    post: Mutex<Post<N>>,
    waker: Waker,
}

/// What a loop took from its inbox.
#[derive(Drop)]
pub(crate) struct Taken<N: News + Drop> {
    pub(crate) streams: Vec<(TcpStream, Role)>,
    pub(crate) news: Option<Handed<N>>,
    pub(crate) is_stopped: bool,
}

impl<N: News + Drop> Handed<N> {
    // These news, for one more loop.
    fn of(news: &Arc<N, Global>) -> Result<Handed<N>, AllocError>
        ensures { IfOk result (λ h. arc_value h.shown ≡ arc_value news.now) }
    {
        let shown = Arc::try_clone(news)?;
        let told = Arc::try_clone(news)?;
        Ok(Handed { shown, told })
    }
}

impl<N: News + Drop> Post<N> {
    // Keeps these news until they are taken, if they are newer.
    fn put(&mut self, news: Handed<N>)
        ensures { Rises (Has (N.shows (arc_value news.shown)).revision)
            (had (λ n. N.shows (arc_value n.shown)) self.new.newest) }
    {
        if let Some(kept) = &self.newest
            && kept.shown.revision() >= news.shown.revision()
        {
            return;
        }
        self.newest = Some(news);
    }

    // All of it. That it is stopped stays.
    fn take(&mut self, alloc: Global) -> Taken<N>
        ensures streams { result.streams ≡ self.old.streams }
        ensures news { result.news ≡ self.old.newest }
        ensures is_stopped { result.is_stopped ≡ self.old.is_stopped }
    {
        Taken {
            streams: mem::replace(&mut self.streams, Vec::new(alloc)),
            news: self.newest.take(),
            is_stopped: self.is_stopped,
        }
    }
}

impl<N: News + Drop> Inbox<N> {
    pub(crate) fn new(alloc: Global, waker: Waker) -> Inbox<N> {
        let post = Post {
            streams: Vec::new(alloc),
            newest: None,
            is_stopped: false,
        };
        Inbox {
            alloc,
            post: Mutex::new(post),
            waker,
        }
    }

    /// Hands news to the loop. Older ones that it hasn't taken yet are dropped. It fails where they
    /// can have no further owner.
    pub fn post_news<R: Wait>(&self, rt: &R, news: &Arc<N, Global>) -> Result<(), AllocError> {
        let news = Handed::of(news)?;
        self.post.lock(rt).put(news);
        let _ = self.waker.wake();
        Ok(())
    }

    /// Hands a connection to the loop, whose socket doesn't wait. Without memory it is closed.
    pub fn post_connection<R: Wait>(
        &self,
        rt: &R,
        stream: TcpStream,
        role: Role,
    ) -> Result<(), AllocError> {
        self.post.lock(rt).streams.push((stream, role))?;
        let _ = self.waker.wake();
        Ok(())
    }

    /// Has the loop answer nothing any more and return: once what is being sent was taken, or two
    /// seconds later. All of its connections end by then.
    pub fn stop<R: Wait>(&self, rt: &R) {
        self.post.lock(rt).is_stopped = true;
        let _ = self.waker.wake();
    }

    /// What was handed in since the last time.
    pub(crate) fn take<R: Wait>(&self, rt: &R) -> Taken<N> {
        self.post.lock(rt).take(self.alloc)
    }
}

/// The inboxes of all loops.
#[derive(Drop)]
pub struct Loops<N: News + Drop> {
    inboxes: Vec<Arc<Inbox<N>, Global>>,
}

impl<N: News + Drop> Loops<N> {
    /// The inboxes of no loop yet: `add` each, and share them by `Arc` from then on.
    pub fn new(alloc: Global) -> Loops<N> {
        Loops {
            inboxes: Vec::new(alloc),
        }
    }

    /// Adds the inbox of a loop.
    pub fn add(&mut self, inbox: Arc<Inbox<N>, Global>) -> Result<(), AllocError> {
        Ok(self.inboxes.push(inbox)?)
    }

    /// Hands news to all loops. Each shows them if they are newer than what it shows. It fails where
    /// they can have no further owner: then some loops may have them.
    pub fn post_news<R: Wait>(&self, rt: &R, news: &Arc<N, Global>) -> Result<(), AllocError> {
        for inbox in &self.inboxes {
            inbox.post_news(rt, news)?;
        }
        Ok(())
    }

    /// Hands a connection to the loop whose turn it is; `turn` is any number that goes on. Without
    /// a loop, or without memory, it is closed.
    pub fn post_connection<R: Wait>(
        &self,
        rt: &R,
        turn: u64,
        stream: TcpStream,
        role: Role,
    ) -> Result<(), AllocError> {
        let count = self.inboxes.len() as u64;
        if count == 0 {
            return Err(AllocError);
        }
        let at = (turn % count) as usize;
        self.inboxes[at].post_connection(rt, stream, role)
    }

    /// Has each loop answer nothing any more and return: once what is being sent was taken, or two
    /// seconds later. All connections end by then.
    pub fn stop<R: Wait>(&self, rt: &R) {
        for inbox in &self.inboxes {
            inbox.stop(rt);
        }
    }
}
