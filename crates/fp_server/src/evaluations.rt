//! A plane's evaluator on loan to one connection.

ghost use Rattle.std.specs.Prelude.{◌≡◌, ◌<◌, ◌^◌, None, IfOk};
ghost use Rattle.std.specs.Coded.{codes};
ghost use Rattle.std.specs.Option.{option_copied};
ghost use Rattle.fp_edit.specs.Flags.{coded_state};
ghost use Rattle.fp_group_commit.specs.Tokens.{FrontState, front_set};
ghost use Rattle.fp_ofrep.specs.Reply.{reply};
ghost use Rattle.fp_publish.specs.Fronts.{Begins};
ghost use Rattle.fp_ofrep.specs.Seen.{body_seen, response_seen};

use fp_http::{Evaluator as Answers, Keeping, NoReply};
use fp_ofrep::{Body, Reply};
use fp_plane::{EvaluatorsUsed, Naming, Plane};
use http::Method;
use std::alloc::{AllocError, Global};
use std::sync::Wait;

/// Why a connection got no evaluator.
#[derive(Debug, Drop, Clone, Copy)]
pub enum LoanFault {
    /// Somebody has each.
    Used,
    /// There was no memory.
    Memory,
}

impl From<AllocError> for LoanFault {
    fn from(_fault: AllocError) -> LoanFault {
        LoanFault::Memory
    }
}

impl From<EvaluatorsUsed> for LoanFault {
    fn from(_fault: EvaluatorsUsed) -> LoanFault {
        LoanFault::Used
    }
}

/// An evaluator of a plane, which is given back where this is let go of; the tags that it kept
/// aren't.
pub struct LentEvaluator<K: Naming, R: Wait + Copy + Drop> {
    plane: Plane<K, R>,
    evaluator: Keeping,
    ghost ours: { evaluator.known.store ≡ K.store } by { Prim.hlevel (codes, coded_state) },
}

impl<K: Naming, R: Wait + Copy + Drop> LentEvaluator<K, R> {
    /// One that nobody has.
    pub fn of(plane: &Plane<K, R>) -> Result<LentEvaluator<K, R>, LoanFault> {
        let plane = plane.try_copy()?;
        let evaluator = Keeping::new(plane.evaluator()?);
        Ok(LentEvaluator { plane, evaluator })
    }
}

impl<K: Naming, R: Wait + Copy + Drop> Drop for LentEvaluator<K, R> {
    fn drop(self) {
        let Self { plane, evaluator } = self;
        plane.give_back(evaluator.into_reader());
    }
}

impl<K: Naming, R: Wait + Copy + Drop> Answers for LentEvaluator<K, R> {
    // The reply over the flags of one front of the plane's store.
    ghost replies = { λ method target tags body now said. (front : FrontState)
        × (front.store ≡ K.store) × (said ≡ reply (front_set front) method target tags body now) };

    fn answer(
        &mut self,
        alloc: Global,
        method: &Method,
        target: &str,
        if_none_match: Option<&[u8]>,
        body: Body<'_>,
        now: u64,
    ) -> Result<Reply, NoReply>
        requires { now < 2 ^ 63 }
        ensures replies { IfOk result
            (λ r. (front : FrontState) × (front.store ≡ K.store) × (response_seen r
            ≡ reply (front_set front) method.now target.now (option_copied if_none_match.entry)
            (body_seen body.entry) now)) }

        // Over no less than it took or learnt before, and then it holds nothing back.
        ensures goes_on { Begins self.old.evaluator.known self.new.evaluator.known }
        ensures over { IfOk result (λ r. response_seen r
            ≡ reply (front_set self.new.evaluator.known) method.now target.now
            (option_copied if_none_match.entry) (body_seen body.entry) now) }
        ensures rested { self.new.evaluator.lent ≡ None }
    {
        let _under_way = self.plane.begin_evaluation();
        self.evaluator
            .answer(alloc, method, target, if_none_match, body, now)
    }
}
