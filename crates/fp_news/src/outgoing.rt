//! The frames of one subscriber, as bytes that are sent piece by piece.

ghost use Rattle.std.specs.Prelude.{◌≡◌, ◌≢◌, ◌+◌, ◌<◌, ◌≤◌, ◌↔◌, ℕ, List, [], ◌∷◌, ◌++◌, length};
ghost use Rattle.std.specs.Prelude.{take, drop, Some, IsTrue, IsFalse};
ghost use Rattle.std.specs.Arc.{arc_value};
ghost use Rattle.fp_stream.specs.declared.hello.Hello.{Hello};
ghost use Rattle.fp_stream.specs.declared.hello.Hello.TheVariants.{Has};
ghost use Rattle.fp_stream.specs.Frames.{Snapshot, frame};
ghost use Rattle.fp_stream.specs.declared.head.TheConstants.{MOST_BODY};
ghost use Rattle.fp_stream.specs.Heads.{IsNewer};

use crate::news::News;
use fp_stream::{HEAD, Hello, head_bytes};
use std::alloc::Global;
use std::sync::Arc;

// A frame that is being sent: its head, and how many of its bytes were sent.
#[derive(Drop)]
struct Sending<N: News + Drop> {
    head: [u8; HEAD],
    news: Arc<N, Global>,
    at: usize,
    ghost within: { at < length (head ++ (N.shows (arc_value news)).document) },
}

/// What goes to a subscriber: a frame at a time, each newer than what it has.
#[derive(Drop)]
pub struct Outgoing<N: News + Drop> {
    // What it has once all that is being sent is sent.
    has: Hello,
    sending: Option<Sending<N>>,
}

impl<N: News + Drop> Outgoing<N> {
    ghost use Rattle.fp_news.specs.Outgoing.{rest_of, Tells};

    /// What goes to a subscriber that said this hello.
    pub fn new(has: Hello) -> Outgoing<N>
        // Nothing went yet, and no frame was begun.
        ensures { Tells has result [] [] }
    {
        Outgoing { has, sending: None }
    }

    /// Whether a frame is being sent: some of its bytes are left.
    pub fn is_sending(&self) -> bool
        ensures { IsTrue result ↔ (rest_of self.now ≢ []) }
    {
        self.sending.is_some()
    }

    /// Whether a frame of this revision may begin: exactly where none is being sent, and the
    /// revision is newer than what the subscriber has.
    pub fn takes(&self, revision: u64) -> bool
        ensures { IsTrue result ↔ (rest_of self.now ≡ []) × IsNewer self.now.has revision }
    {
        self.sending.is_none() && self.has.is_behind(revision)
    }

    /// Begins the frame of these news, if it may begin. Answers whether it did.
    pub fn offer(&mut self, news: Arc<N, Global>) -> bool
        // `true` exactly where none is being sent, and the news are newer than what the subscriber
        // has.
        ensures begun { IsTrue result ↔ (rest_of self.old ≡ [])
            × IsNewer self.old.has (N.shows (arc_value news)).revision }
        // `true`: what is left to send is the whole frame of these news.
        ensures frame { IsTrue result → rest_of self.new
            ≡ frame (N.shows (arc_value news)).revision (N.shows (arc_value news)).document }
        // `true`: with these news as the last, what went and what is left are still frames of news,
        // each newer than the one before and than the hello.
        ensures told { IsTrue result → (hello : Hello) (went : List ℕ) (begun : List Snapshot)
            → Tells hello self.old went begun
            → Tells hello self.new went (begun ++ N.shows (arc_value news) ∷ []) }
        // `false`: nothing changed.
        ensures kept { IsFalse result → self.new ≡ self.old }
    {
        let revision = news.revision();
        if !self.takes(revision) {
            return false;
        }
        self.begin(news, revision);
        true
    }

    /// The bytes to send next: what is left of the head, and of the document behind it. Together
    /// they are all that is left of the frame.
    pub fn rest(&self) -> (&[u8], &[u8])
        ensures { result.0.now ++ result.1.now ≡ rest_of self.now }
    {
        match &self.sending {
            None => (&[], &[]),
            Some(sending) => sending.rest(),
        }
    }

    /// So many of these bytes were sent. Where it was all, no frame is being sent any more.
    pub fn sent(&mut self, count: usize)
        // No more than are left.
        requires { count ≤ length (rest_of self.old) }
        // What is left is what stood behind these bytes.
        ensures rest { rest_of self.new ≡ drop count (rest_of self.old) }
        // With these bytes behind those that went before, what went and what is left are still
        // frames of the same news, however they are cut.
        ensures told { (hello : Hello) (went : List ℕ) (begun : List Snapshot)
            → Tells hello self.old went begun
            → Tells hello self.new (went ++ take count (rest_of self.old)) begun }
    {
        let Some(sending) = &mut self.sending else {
            return;
        };
        let len = sending.len();
        let at = sending.at + count;
        if at < len {
            sending.at = at;
            return;
        }
        self.sending = None;
    }

    // Begins the frame of these news, which have this revision.
    fn begin(&mut self, news: Arc<N, Global>, revision: u64)
        requires { revision ≡ (N.shows (arc_value news)).revision }
        ensures frame { rest_of self.new
            ≡ frame revision (N.shows (arc_value news)).document }
        ensures short { length (N.shows (arc_value news)).document ≤ MOST_BODY }
        ensures has { self.new.has ≡ Has revision }
    {
        self.sending = Some(Sending::of(news, revision));
        self.has = Hello::Has(revision);
    }
}

impl<N: News + Drop> Sending<N> {
    ghost use Rattle.fp_news.specs.Outgoing.{left_of};

    // The frame of these news, which have this revision.
    fn of(news: Arc<N, Global>, revision: u64) -> Sending<N>
        requires { revision ≡ (N.shows (arc_value news)).revision }
        ensures frame { left_of (Some result)
            ≡ frame revision (N.shows (arc_value news)).document }
        ensures short { length (N.shows (arc_value news)).document ≤ MOST_BODY }
    {
        let head = head_bytes(revision, news.document().len() as u32);
        Sending { head, news, at: 0 }
    }

    // How many bytes it has in all.
    fn len(&self) -> usize
        ensures { result
            ≡ length (self.now.head ++ (N.shows (arc_value self.now.news)).document) }
    {
        HEAD + self.news.document().len()
    }

    // What is left of its head, and of the document behind it.
    fn rest(&self) -> (&[u8], &[u8])
        ensures { result.0.now ++ result.1.now ≡ left_of (Some self.now) }
    {
        let document = self.news.document();
        if self.at < HEAD {
            (&self.head[self.at..], document)
        } else {
            (&[], &document[self.at - HEAD..])
        }
    }
}
