//! How what the words ask for ended, as a status and as a line.

ghost use Rattle.fp_commands.specs.Task.{IsStatusOf};

use fp_streams::FailureCounted;
use std::fmt::Display;
use std::io::Write;

/// The program's status: 0 where all went well, and the error stream is as it was; 1 where a fault
/// ended it, whose line is told by its own text, unless the error stream failed. It takes no memory
/// to tell.
pub fn status_of<E: Write, F: Display + Drop>(
    e: &mut FailureCounted<E>,
    outcome: Result<(), F>,
) -> u8
    ensures { IsStatusOf F.output E.contents e.old e.new outcome result }
{
    match outcome {
        Ok(()) => 0,
        Err(fault) => {
            let _ = e.say(&format_args!("flagplane: {fault}"));
            1
        }
    }
}
