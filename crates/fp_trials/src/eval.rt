//! The program's evaluation of one flag.

ghost use Rattle.std.specs.Prelude.{◌<◌, ◌^◌};

use crate::commands::stopped;
use crate::trial::{Answer, Trial};
use fp_commands::{CommandFault, eval_disk};
use fp_streams::FailureCounted;
use fp_transcript::Args;

/// `eval KEY [at MOMENT]`: the evaluation of the flag of a key by the request that waits.
pub fn on_eval(trial: &mut Trial, args: &mut Args<'_>) -> Answer {
    let (key, moment) = args.rest.split_once(" at ").unwrap_or((args.rest, "0"));
    let now = args.number_of(moment);
    if now >= 1 << 63 {
        return Answer::NotUnderstood;
    }
    match evaluated(trial, key, now) {
        Ok(()) => Answer::Text,
        Err(fault) => stopped(trial, "", &fault),
    }
}

// How the command ends: what it writes stands in the trial.
fn evaluated(trial: &mut Trial, key: &str, now: u64) -> Result<(), CommandFault>
    requires { now < 2 ^ 63 }
{
    let alloc = trial.alloc;
    let input = trial.take_input();
    let disk = trial.take_disk();
    let mut reader = FailureCounted::new(input.as_slice());
    let mut writer = FailureCounted::new(Vec::new(alloc));
    let (disk, outcome) = eval_disk(alloc, &mut reader, &mut writer, disk, key, now);
    trial.put_disk(disk);
    trial.text.bytes(&writer.into_inner());
    outcome
}
