//! Runs one of eight workloads through the product's calls, over disks in memory, and prints a digest
//! of all that they answered.
#![tactic(auto)]

mod awkward;
mod commands;
mod digest;
mod disk;
mod edits;
mod evaluations;
mod flags;
mod importing;
mod job;
mod opening;
mod pool;
mod random;
mod sets;
mod snapshots;
mod text;
mod uncommon;
mod workload;
mod world;

use crate::digest::Digest;
use crate::job::Job;
use crate::workload::{WORKLOADS, Workload};
use anyhow::{Result, bail};
use std::alloc::AllocGlobal;
use std::env;
use std::sync::Wait;

// Runs a workload, and prints its line.
fn run<R: Wait + Print>(rt: &R, workload: Workload, job: Job) -> Result<()> {
    let mut job = job;
    workload.run(rt, &mut job);
    let Some(digest) = job.digest.whole() else {
        bail!("a call failed")
    };
    let (name, rounds, seed) = (workload.name(), job.rounds, job.seed);
    println!(rt; "{name} {rounds} {seed} {digest:016x}")?;
    Ok(())
}

// One workload by its name, or a small one of each.
fn run_named<R: Wait + Print>(rt: &R, name: &str, job: Job) -> Result<()> {
    for workload in WORKLOADS {
        if job.is_small || name == workload.name() {
            run(rt, workload, job)?;
        }
    }
    Ok(())
}

fn main(rt: HostRuntime) -> Result<()> {
    let mut words = env::args(&rt)?.skip(1);
    let (Some(name), Some(rounds), Some(seed)) = (words.next(), words.next(), words.next()) else {
        bail!("usage: fp_bench WORKLOAD ROUNDS SEED")
    };
    let (Ok(rounds), Ok(seed)) = (rounds.parse::<u64>(), seed.parse::<u64>()) else {
        bail!("ROUNDS and SEED are numbers")
    };
    let job = Job {
        alloc: rt.alloc(),
        rounds,
        seed,
        is_small: name.as_str() == "each",
        digest: Digest::new(),
    };
    run_named(&rt, name.as_str(), job)
}
