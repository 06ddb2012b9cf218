//! Disks of many flags with many batches behind them, each opened and shown.

use crate::commands::shown;
use crate::disk::{Contents, disk_of};
use crate::flags::Rules;
use crate::job::Job;
use crate::pool::Pool;

/// A disk a round.
pub fn opening(job: &mut Job) {
    let mut pool = Pool::on_disk(job, Rules::Usual);
    for round in 0..job.rounds {
        let contents = Contents {
            slot: 1 << 22,
            flags: job.count(1_500),
            batches: job.count(30),
        };
        let disk = disk_of(job, &mut pool, round, contents);
        let _disk = shown(job, disk);
    }
}
