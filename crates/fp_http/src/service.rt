//! The service that hyper asks: a request's reply once its body came.

ghost use Rattle.std.specs.Prelude.{◌<◌, ℕ, List, Option, IfOk, IfSome, IsSomeAnd, option_map};
ghost use Rattle.http.specs.Request.{head_of};
ghost use Rattle.http.specs.Response as reply;
ghost use Rattle.fp_ofrep.specs.Seen.{body_seen, response_seen};
ghost use Rattle.fp_http.specs.Asking.{IsAsked};
ghost use Rattle.fp_http.specs.Answering.{Answers as IsAnswer, MayReply, WasGathered};

use crate::asked::Asked;
use crate::blocking::Note;
use crate::evaluator::Evaluator;
use crate::fault::NoReply;
use crate::gathering::Gathering;
use crate::limits::Stop;
use crate::response::response_of;
use bytes::Bytes;
use fp_ofrep::{Body, LONGEST_BODY, Moment, Reply};
use futures::Future;
use futures::task::{Context, Poll};
use http_body_util::{Full, Limited, LimitedError};
use hyper::body::Incoming;
use hyper::service::Service;
use hyper::{Request, Response};
use std::alloc::Global;
use std::cell::RefCell;
use std::rc::Rc;

/// The evaluator of a connection, where it is still there.
pub type Shared<E> = Rc<RefCell<Option<E>>>;

/// A service over an evaluator, which it shares with the reply under way.
#[derive(Drop)]
pub struct Answers<E: Drop, N: Drop> {
    pub alloc: Global,
    pub evaluator: Shared<E>,
    pub now: N,
    pub note: Note,
}

/// The reply to one request, once its body came. What memory was wanting for is `None`.
#[derive(Drop)]
pub struct Answering<C: Drop, E: Drop> {
    alloc: Global,
    asked: Option<Asked>,
    body: C,
    evaluator: Option<Shared<E>>,
    moment: Moment,
    note: Option<Note>,
}

impl<I: Drop, E: Evaluator, N: Fn() -> Moment + Drop> Service<Request<Incoming<I>>>
    for Answers<E, N> {
    type Response = Response<Full<Bytes>>;

    type Error = NoReply;

    type Future = Answering<Gathering<Limited<Incoming<I>>>, E>;

    ghost can_call = { λ s. N.IsAlwaysCallable s.now };

    // What is asked is the request's, and the moment is one that the clock gives at this call.
    ghost calls = { λ s request future.
        IfSome future.asked (IsAsked (head_of request)) × N.post s.now future.moment };

    fn call(&self, request: Request<Incoming<I>>) -> Self::Future {
        let moment = (self.now)();
        Answering {
            alloc: self.alloc,
            asked: Asked::of(self.alloc, &request).ok(),
            body: Gathering::new(self.alloc, Limited::new(request.into_body(), LONGEST_BODY)),
            evaluator: self.evaluator.clone().ok(),
            moment,
            note: self.note.clone().ok(),
        }
    }
}

impl<C, E> Future for Answering<C, E>
where
    C: Future<Output = Result<Vec<u8>, LimitedError<hyper::Error>>>,
    E: Evaluator,
{
    type Output = Result<Response<Full<Bytes>>, NoReply>;

    ghost can_poll = { λ f. C.can_poll f.body };

    ghost needs = { λ f. C.needs f.body };

    // A response is that of a reply which may be given to what was asked and to the body that came.
    ghost gives = { λ f given. IfOk given (λ response. IsSomeAnd f.asked (λ asked.
        (gathered : _) × C.gives f.body gathered × (body : Option (List ℕ))
        × WasGathered gathered body × IsAnswer E.replies asked body f.moment
        (reply.head_of response) (reply.body_of response).buf)) };

    fn poll(&mut self, cx: &mut Context<'_>) -> Poll<Self::Output> {
        let gathered = match self.body.poll(cx) {
            Poll::Pending => return Poll::Pending,
            Poll::Ready(gathered) => gathered,
        };
        let answered = answered(
            self.alloc,
            &self.asked,
            gathered,
            &self.evaluator,
            &self.moment,
        );
        if let (Err(NoReply::Memory), Some(note)) = (&answered, &self.note) {
            note.set(Some(Stop::Memory));
        }
        Poll::Ready(answered)
    }
}

// The body, or none where it is too long.
fn whole_body(
    gathered: Result<Vec<u8>, LimitedError<hyper::Error>>,
) -> Result<Option<Vec<u8>>, NoReply>
    ensures { IfOk result (λ body. WasGathered gathered (option_map (λ v. v.items) body)) }
{
    match gathered {
        Ok(whole) => Ok(Some(whole)),
        Err(LimitedError::LengthLimit) => Ok(None),
        Err(LimitedError::Body(_cause)) => Err(NoReply::BodyBroke),
    }
}

// The response to a request whose body came.
fn answered<E: Evaluator>(
    alloc: Global,
    asked: &Option<Asked>,
    gathered: Result<Vec<u8>, LimitedError<hyper::Error>>,
    evaluator: &Option<Shared<E>>,
    moment: &Moment,
) -> Result<Response<Full<Bytes>>, NoReply>
    ensures { IfOk result (λ response. IsSomeAnd asked.now (λ asked. (body : Option (List ℕ))
        × WasGathered gathered body × IsAnswer E.replies asked body moment.now
        (reply.head_of response) (reply.body_of response).buf)) }
{
    let body = whole_body(gathered)?;
    let (Some(asked), Some(evaluator)) = (asked, evaluator) else {
        return Err(NoReply::Memory);
    };
    let body = match &body {
        Some(whole) => Body::Whole(whole.as_slice()),
        None => Body::TooLong,
    };
    let reply = reply_to(alloc, evaluator, asked, body, moment)?;
    response_of(alloc, reply)
}

// Asks the evaluator.
fn reply_to<E: Evaluator>(
    alloc: Global,
    evaluator: &Shared<E>,
    asked: &Asked,
    body: Body<'_>,
    moment: &Moment,
) -> Result<Reply, NoReply>
    ensures { IfOk result (λ reply.
        MayReply E.replies asked.now (body_seen body.entry) moment.now (response_seen reply)) }
{
    let mut held = evaluator.try_borrow_mut().map_err(|_| NoReply::Memory)?;
    let there = held.as_mut().ok_or(NoReply::Memory)?;
    let tags = asked.if_none_match.as_ref().map(|tags| tags.as_slice());
    let now = moment.seconds();
    there.answer(alloc, &asked.method, asked.target.as_str(), tags, body, now)
}
