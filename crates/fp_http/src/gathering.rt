//! A request's body, copied into one piece as it comes.

ghost use Rattle.std.specs.Prelude.{◌≡◌, ◌++◌, ◌⊎◌, [], IsErrAnd, OnOk, alloc_error};
ghost use Rattle.http_body.specs.Frame.{bytes_in};
ghost use Rattle.fp_http.specs.Gathering.{Gathers};

use bytes::Bytes;
use futures::task::{Context, Poll};
use futures::{Future, ready};
use http_body::{Body, Frame};
use std::alloc::{AllocError, Global};
use std::mem;

// So many frames are taken at once.
const BUDGET: u32 = 128;

/// The data of a body once it has come. Nothing is kept of what its frames were read into, which
/// may be far more than their data where these come a few bytes at a time.
#[derive(Drop)]
pub struct Gathering<T: Drop> {
    alloc: Global,
    body: T,
    data: Vec<u8>,
}

impl<T: Drop> Gathering<T> {
    /// Of this body, of which nothing came yet.
    pub fn new(alloc: Global, body: T) -> Gathering<T>
        ensures body { result.body ≡ body }
        ensures data { result.«data».items ≡ [] }
    {
        Gathering {
            alloc,
            body,
            data: Vec::new(alloc),
        }
    }
}

impl<T, E> Future for Gathering<T>
where
    T: Body<Data = Bytes, Error = E>,
    E: From<AllocError> + Drop,
{
    type Output = Result<Vec<u8>, E>;

    ghost can_poll = { λ g. T.can_poll g.body };

    ghost needs = { λ g. T.needs g.body };

    ghost gives = { λ g r. Gathers (T.yields g.body) g.«data».items r
        ⊎ IsErrAnd r (E.from_gives alloc_error) };

    fn poll(&mut self, cx: &mut Context<'_>) -> Poll<Result<Vec<u8>, E>> {
        for _ in 0..BUDGET {
            let frame = match ready!(self.body.poll_frame(cx)) {
                Some(Ok(frame)) => frame,
                Some(Err(fault)) => return Poll::Ready(Err(fault)),
                None => {
                    let all = mem::replace(&mut self.data, Vec::new(self.alloc));
                    return Poll::Ready(Ok(all));
                }
            };
            if let Err(fault) = add(&mut self.data, frame) {
                return Poll::Ready(Err(E::from(fault)));
            }
        }
        cx.yield_now()
    }
}

// Puts the data of a frame behind what came. Trailers have none.
fn add(all: &mut Vec<u8>, frame: Frame<Bytes>) -> Result<(), AllocError>
    ensures { OnOk result (all.new.items ≡ all.old.items ++ bytes_in frame.kind) }
{
    match frame.into_data() {
        Ok(piece) => all.extend_from_slice(piece.as_slice()),
        Err(_trailers) => Ok(()),
    }
}
