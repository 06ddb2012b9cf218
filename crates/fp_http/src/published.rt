//! Replies over what is published.

ghost use Rattle.std.specs.Prelude.{◌≡◌, ◌<◌, ◌^◌, IfOk, Some, None};
ghost use Rattle.std.specs.Option.{option_copied};
ghost use Rattle.fp_group_commit.specs.Tokens.{FrontState, front_set};
ghost use Rattle.fp_publish.specs.Fronts.{Begins};
ghost use Rattle.fp_ofrep.specs.Reply.{reply};
ghost use Rattle.fp_ofrep.specs.Seen.{body_seen, response_seen};

use crate::evaluator::Evaluator;
use crate::fault::NoReply;
use fp_ofrep::{Body, Kept, Reply, answer_keeping};
use fp_publish::Evaluator as Reader;
use http::Method;
use std::alloc::Global;
use std::marker::Model;

/// An evaluator of what is published, and what its connection keeps from request to request.
#[derive(Drop)]
pub struct Keeping {
    reader: Reader,
    kept: Kept,
}

impl Model for Keeping {
    ghost use Rattle.std.specs.Coded.{codes};
    ghost use Rattle.fp_edit.specs.Flags.{coded_state};
    ghost use Rattle.fp_group_commit.specs.Changes.{coded_change};
    ghost use Rattle.fp_publish.specs.Evaluator.{EvaluatorState};
    ghost use Rattle.fp_ofrep.specs.Kept.{IsKeptOf};

    ghost Value = { EvaluatorState };

    ghost coded = { Prim.hlevel (codes, coded_state, coded_change) };

    ghost view = { λ k. k.reader };

    ghost invariant = { λ k. IsKeptOf k.kept k.reader.known.store };
}

impl Keeping {
    /// An evaluator of what is published, of which no tag is kept yet.
    pub fn new(reader: Reader) -> Keeping
        ensures { result ≡ reader }
    {
        Keeping {
            reader,
            kept: Kept::new(),
        }
    }

    /// Gives the evaluator back, as it is.
    pub fn into_reader(self) -> Reader
        ensures { result ≡ self }
    {
        let Keeping { reader, kept: _ } = self;
        reader
    }

    // The reply over what was taken.
    fn reply(
        &mut self,
        alloc: Global,
        method: &Method,
        target: &str,
        if_none_match: Option<&[u8]>,
        body: Body<'_>,
        now: u64,
    ) -> Result<Reply, NoReply>
        requires moment { now < 2 ^ 63 }
        requires entered { self.old.lent ≡ Some self.old.known }
        ensures over { IfOk result (λ r. response_seen r
            ≡ reply (front_set self.old.known) method.now target.now
            (option_copied if_none_match.entry) (body_seen body.entry) now) }
        ensures same { self.new ≡ self.old }
    {
        let Some(view) = self.reader.view() else {
            return Err(NoReply::Memory);
        };
        let kept = &mut self.kept;
        match answer_keeping(alloc, &view, method, target, if_none_match, body, now, kept) {
            Ok(reply) => Ok(reply),
            Err(_) => Err(NoReply::Memory),
        }
    }
}

impl Evaluator for Keeping {
    // The reply over the flags of one front.
    ghost replies = { λ method target tags body now said. (front : FrontState)
        × (said ≡ reply (front_set front) method target tags body now) };

    // What was taken is let go of as soon as the reply's bytes are made.
    fn answer(
        &mut self,
        alloc: Global,
        method: &Method,
        target: &str,
        if_none_match: Option<&[u8]>,
        body: Body<'_>,
        now: u64,
    ) -> Result<Reply, NoReply>
        // The moment is below 2^63.
        requires { now < 2 ^ 63 }
        // `Ok`: the reply, by tags that are kept or without, is that over the flags of some front.
        ensures replies { IfOk result (λ r. (front : FrontState) × (response_seen r
            ≡ reply (front_set front) method.now target.now (option_copied if_none_match.entry)
            (body_seen body.entry) now)) }
        // What it knows then is no less than it took or learnt before.
        ensures goes_on { Begins self.old.known self.new.known }
        // `Ok`: the reply is that over what it knows now.
        ensures over { IfOk result (λ r. response_seen r
            ≡ reply (front_set self.new.known) method.now target.now
            (option_copied if_none_match.entry) (body_seen body.entry) now) }
        // It holds back no publication then, whatever is answered.
        ensures rested { self.new.lent ≡ None }
    {
        if self.reader.enter().is_err() {
            return Err(NoReply::Memory);
        }
        let reply = self.reply(alloc, method, target, if_none_match, body, now);
        self.reader.rest();
        reply
    }
}
