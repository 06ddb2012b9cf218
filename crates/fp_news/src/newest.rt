//! The newest of what came.

ghost use Rattle.std.specs.Prelude.{◌≡◌, ◌↔◌, IsTrue, IsFalse, None, Some};
ghost use Rattle.std.specs.Arc.{arc_value};
ghost use Rattle.fp_stream.specs.Heads.{IsNewer};
ghost use Rattle.fp_news.specs.Newest.{had, Rises};

use crate::news::News;
use std::alloc::Global;
use std::sync::Arc;

/// The newest news that came.
#[derive(Drop)]
pub struct Newest<N: News + Drop> {
    /// `None` where none came.
    pub news: Option<Arc<N, Global>>,
}

impl<N: News + Drop> Newest<N> {
    /// None came yet.
    pub fn new() -> Newest<N>
        // It has none.
        ensures { result.news ≡ None }
    {
        Newest { news: None }
    }

    /// Takes these news, if they are newer. Answers whether it did.
    pub fn take(&mut self, news: Arc<N, Global>) -> bool
        // `true` exactly where they are newer than what it has; where it has none, any are.
        ensures taken { IsTrue result ↔ IsNewer (had (λ n. N.shows (arc_value n)) self.old.news)
            (N.shows (arc_value news)).revision }
        // `true`: it has these from now on.
        ensures new { IsTrue result → self.new.news ≡ Some news }
        // `false`: nothing changed.
        ensures kept { IsFalse result → self.new ≡ self.old }
        // So what it has never falls.
        ensures rises { Rises (had (λ n. N.shows (arc_value n)) self.old.news)
            (had (λ n. N.shows (arc_value n)) self.new.news) }
    {
        if !self.is_behind(news.revision()) {
            return false;
        }
        self.news = Some(news);
        true
    }

    // Whether this is newer.
    fn is_behind(&self, revision: u64) -> bool
        ensures { IsTrue result
            ↔ IsNewer (had (λ n. N.shows (arc_value n)) self.now.news) revision }
    {
        match &self.news {
            None => true,
            Some(news) => news.revision() < revision,
        }
    }
}
