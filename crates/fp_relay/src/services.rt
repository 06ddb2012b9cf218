//! The services of a relay's ports, as its loops ask them.

ghost use Rattle.std.specs.Prelude.{◌≡◌, ℕ, Some, option_map};
ghost use Rattle.std.specs.Arc.{arc_value};
ghost use Rattle.http.specs.Request.{head_of};
ghost use Rattle.http_uri.specs.Uri.{uri_path};
ghost use Rattle.fp_connections.specs.declared.counts.Counted.{Counted};
ghost use Rattle.fp_relay_replies.specs.Answers.{IsSent, Responds};
ghost use Rattle.fp_relay_replies.specs.Asking.{asked_by};
ghost use Rattle.fp_relay_replies.specs.Status.{status_answer};
ghost use Rattle.fp_relay_replies.specs.declared.status.Report.{Report};
ghost use Rattle.fp_relay.specs.Counting.{with_counts};

use crate::numbers::Numbers;
use crate::set::Set;
use bytes::Bytes;
use fp_connections::{Counted, Counts};
use fp_loop::Informed;
use fp_relay_replies::{Moment, Origins, Report, answer_status, respond};
use http::Request;
use http_server::{Response, Service};
use std::alloc::{AllocError, Global};
use std::sync::Arc;
use std::time::Clock;

/// Evaluations, over the newest set that their loop was shown.
#[derive(Drop)]
pub struct Evaluations<R: Drop> {
    rt: R,
    alloc: Global,
    origins: Arc<Origins, Global>,
    numbers: Arc<Numbers, Global>,
    set: Option<Arc<Set, Global>>,
}

impl<R: Clock + Drop> Evaluations<R> {
    /// Over no set yet.
    pub fn new(
        rt: R,
        alloc: Global,
        origins: Arc<Origins, Global>,
        numbers: Arc<Numbers, Global>,
    ) -> Evaluations<R> {
        Evaluations {
            rt,
            alloc,
            origins,
            numbers,
            set: None,
        }
    }
}

impl<R: Clock + Drop> Service for Evaluations<R> {
    // By what it is shown, at some moment; and it goes on to be shown that.
    ghost answers = { λ old request response new. (now : ℕ) × Responds (option_map arc_value old.set)
        (arc_value old.origins) (asked_by request) now response × (new.set ≡ old.set) };

    fn call(
        &mut self,
        request: &Request<Bytes>,
        response: &mut Response,
    ) -> Result<(), AllocError> {
        let shown = match &self.set {
            Some(set) => Some(set.shown()),
            None => None,
        };
        let now = Moment::now(&self.rt);
        respond(self.alloc, shown, &self.origins, request, now, response)?;
        self.numbers.answer(response.status.as_u16());
        Ok(())
    }
}

impl<R: Clock + Drop> Informed<Set> for Evaluations<R> {
    fn inform(&mut self, news: Arc<Set, Global>)
        ensures { self.new.set ≡ Some news }
    {
        self.set = Some(news);
    }

    fn refused(&self, status: u16) {
        self.numbers.answer(status);
    }
}

/// What an operator reads.
#[derive(Drop)]
pub struct StatusPages<R: Drop> {
    rt: R,
    alloc: Global,
    numbers: Arc<Numbers, Global>,
    counts: Arc<Counts, Global>,
}

impl<R: Clock + Drop> StatusPages<R> {
    /// Of these numbers and counts.
    pub fn new(
        rt: R,
        alloc: Global,
        numbers: Arc<Numbers, Global>,
        counts: Arc<Counts, Global>,
    ) -> StatusPages<R> {
        StatusPages {
            rt,
            alloc,
            numbers,
            counts,
        }
    }
}

impl<R: Clock + Drop> Service for StatusPages<R> {
    // By a report, with what was counted of connections in it.
    ghost answers = { λ _ request response _. (report : Report) × (counted : Counted)
        × IsSent (status_answer (with_counts report counted) (head_of request).method
        (uri_path (head_of request).uri)) response };

    fn call(
        &mut self,
        request: &Request<Bytes>,
        response: &mut Response,
    ) -> Result<(), AllocError> {
        let mut report = self.numbers.report(&self.rt);
        add_counts(&mut report, &self.counts.now());
        answer_status(self.alloc, request, &report, response)?;
        Ok(())
    }
}

impl<R: Clock + Drop> Informed<Set> for StatusPages<R> {
    fn inform(&mut self, _news: Arc<Set, Global>)
        ensures { self.new ≡ self.old }
    {}
}

// Adds what was counted of connections to a report.
fn add_counts(report: &mut Report, counted: &Counted)
    ensures { report.new ≡ with_counts report.old counted.now }
{
    report.connections = counted.requesters.saturating_add(counted.subscribers);
    report.connections_total = counted.accepted;
    report.refused_total = counted.refused;
}
