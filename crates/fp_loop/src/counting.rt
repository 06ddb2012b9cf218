//! A service whose answers are counted.

ghost use Rattle.std.specs.Prelude.{◌≡◌};

use crate::informed::Informed;
use bytes::Bytes;
use http::Request;
use http_server::{Response, Service};
use std::alloc::AllocError;

/// A service, and how often it was called.
#[derive(Drop)]
pub(crate) struct Counting<S: Drop> {
    pub(crate) service: S,
    // How many calls it answered, counted round.
    pub(crate) calls: u64,
}

impl<S: Drop> Counting<S> {
    /// Tells the service of a request that was refused with this status.
    pub(crate) fn tell_refusal<N>(&mut self, refusal: Option<u16>)
    where
        S: Informed<N>,
        ensures { self.new.service ≡ self.old.service }
    {
        if let Some(status) = refusal {
            self.service.refused(status);
        }
    }
}

impl<S: Service + Drop> Service for Counting<S> {
    ghost answers = { λ old request response new.
        S.answers old.service request response new.service };

    fn call(
        &mut self,
        request: &Request<Bytes>,
        response: &mut Response,
    ) -> Result<(), AllocError> {
        self.service.call(request, response)?;
        self.calls = self.calls.wrapping_add(1);
        Ok(())
    }
}
