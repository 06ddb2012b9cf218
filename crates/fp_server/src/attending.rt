//! What the program's words ask of the service, done over files and streams.

ghost use Rattle.std.specs.Prelude.{◌≡◌, IfNone, IsSome, MatchOption, None, map, string_bytes};
ghost use Rattle.fp_commands.specs.Task.{task_of_words};
ghost use Rattle.fp_server.specs.Attends.{Attends};
ghost use Rattle.fp_server.specs.Tasks.{AsksFor};
ghost use Rattle.fp_server.specs.declared.task.Task.{Task};

use crate::serving::serve;
use crate::task::{Task, task_of};
use crate::watching::watch;
use fp_commands::status_of;
use fp_connections::Host;
use fp_files::DiskFiles;
use fp_http::TimeLimits;
use fp_streams::FailureCounted;
use std::io::{Read, Write};

/// Does what the words ask of the service (`serve` or `watch`), and answers the program's status: 0
/// where it ended well, and 1 where a fault ended it, which `e` is told. `None` where they ask
/// nothing of the service.
pub fn attend<R, F, I, O, E>(
    rt: &R,
    files: &mut F,
    words: &[String],
    r: &mut FailureCounted<I>,
    w: &mut FailureCounted<O>,
    e: &mut FailureCounted<E>,
) -> Option<u8>
where
    R: Host,
    F: DiskFiles,
    F::Disk: Drop + Send + 'static,
    I: Read,
    O: Write,
    E: Write,
    // `None`: the words ask nothing of the service. `Some`: they ask for a task, which ended
    // somehow, and this is its status, 0 or 1, and at 1 the error stream is told the line of the
    // fault, unless it failed, as of `status_of`. `serve`: all that `serve` promises of that end.
    // `watch`: all that `watch` promises of it; no file was opened, and the input is as it was.
    ensures attended { MatchOption result
        ((task : Task) → ¬ AsksFor (map string_bytes words.now) task)
        (λ status. (task : Task) × AsksFor (map string_bytes words.now) task
        × Attends F.DiskFiles F.Disk.Disk I.remaining O.contents E.contents
        (record { files = files.old; reader = r.old; writer = w.old })
        (record { files = files.new; reader = r.new; writer = w.new }) e.old e.new task status) }
    // `None`: files, input, output and error stream are as they were.
    ensures untouched { IfNone result ((files.new ≡ files.old) × (r.new ≡ r.old)
        × (w.new ≡ w.old) × (e.new ≡ e.old)) }
    // `Some`: the words name no command.
    ensures apart { IsSome result → task_of_words (map string_bytes words.now) ≡ None }
{
    match task_of(words) {
        Some(Task::Serve(path, addresses)) => {
            let served = serve(rt, files, path, &addresses, TimeLimits::usual(), r, w);
            Some(status_of(e, served))
        }
        Some(Task::Watch(address)) => {
            let watched = watch(rt, address, w);
            Some(status_of(e, watched))
        }
        None => None,
    }
}
