//! The workloads by their names.

use crate::awkward::awkward;
use crate::edits::edits;
use crate::evaluations::evaluations;
use crate::importing::importing;
use crate::job::Job;
use crate::opening::opening;
use crate::sets::sets;
use crate::snapshots::snapshots;
use crate::uncommon::uncommon;
use std::sync::Wait;

/// What is timed.
#[derive(Clone, Copy)]
pub enum Workload {
    Opening,
    Edits,
    Import,
    Evaluations,
    Snapshots,
    Awkward,
    Uncommon,
    Sets,
}

/// Each of them.
pub const WORKLOADS: [Workload; 8] = [
    Workload::Opening,
    Workload::Edits,
    Workload::Import,
    Workload::Evaluations,
    Workload::Snapshots,
    Workload::Awkward,
    Workload::Uncommon,
    Workload::Sets,
];

impl Workload {
    /// The word for it.
    pub fn name(self) -> &'static str {
        match self {
            Workload::Opening => "opening",
            Workload::Edits => "edits",
            Workload::Import => "import",
            Workload::Evaluations => "evaluations",
            Workload::Snapshots => "snapshots",
            Workload::Awkward => "awkward",
            Workload::Uncommon => "uncommon",
            Workload::Sets => "sets",
        }
    }

    /// Does the job.
    pub fn run<R: Wait>(self, rt: &R, job: &mut Job) {
        match self {
            Workload::Opening => opening(job),
            Workload::Edits => edits(job),
            Workload::Import => importing(job),
            Workload::Evaluations => evaluations(rt, job),
            Workload::Snapshots => snapshots(rt, job),
            Workload::Awkward => awkward(rt, job),
            Workload::Uncommon => uncommon(rt, job),
            Workload::Sets => sets(job),
        }
    }
}
