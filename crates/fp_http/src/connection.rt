//! One connection, served to its end.

use crate::blocking::Note;
use crate::evaluator::Evaluator;
use crate::service::Answers;
use fp_ofrep::Moment;
use futures::executor::block_on;
use hyper::server::conn::http1;
use std::alloc::AllocGlobal;
use std::cell::RefCell;
use std::hash::RandomState;
use std::io;
use std::io::ErrorKind;
use std::random::RandomSource;
use std::rc::Rc;
use std::sync::Wait;
use tokio::io::{AsyncRead, AsyncWrite};

/// Serves the requests of one HTTP/1.1 connection until the peer is done, and gives the evaluator
/// back where there was memory to begin. It is safe and total but for the peer's silence, and asks
/// `hyper` for what that asks of a service.
///
/// `now` is asked for the moment of each request as it comes. `note` says where memory was wanting
/// for a reply, which closes the connection.
pub fn serve_ofrep<R, I, E, N>(
    rt: &R,
    connection: I,
    evaluator: E,
    now: N,
    note: Note,
) -> io::Result<Option<E>>
where
    R: Wait + RandomSource + AllocGlobal,
    I: AsyncRead + AsyncWrite,
    E: Evaluator,
    N: Fn() -> Moment + Drop,
    // `now` may be called always.
    requires { N.IsAlwaysCallable now }
{
    let alloc = rt.alloc();
    let shared = Rc::new(alloc, RefCell::new(Some(evaluator)))?;
    let mut http = http1::Builder::new(alloc, RandomState::new(rt)?);
    http.auto_date_header(false);
    let service = Answers {
        alloc,
        evaluator: shared.clone()?,
        now,
        note,
    };
    let _ended = block_on(rt, http.serve_connection(connection, service))?;
    match shared.try_borrow_mut() {
        Ok(mut held) => Ok(held.take()),
        Err(_) => Err(io::Error::from(ErrorKind::Other)),
    }
}
